//! How a gate is opened, and its passes dealt.
ghost use Rattle.std.specs.Prelude.{◌≡◌, ℕ, ◌+◌, ◌<◌, ◌≤◌, [], length, vec_len, vec_capacity, slice_get, IfOk, IfSome};
ghost use Rattle.lat_gate.specs.History.{of_number};
ghost use Rattle.lat_gate.specs.Rule.{IsDealt};
ghost use Rattle.lat_gate.specs.Steps.{first_view, others, first_alone};
ghost use Rattle.lat_gate.specs.Seats.{known_of, dealt};
ghost use Rattle.lat_gate.specs.declared.view.Hand.TheVariants.{Idle};
ghost use Rattle.lat_gate.specs.Passes.{gate_id, known};

use super::Gate;
use crate::faults::NoMemory;
use crate::machine::Machine;
use crate::pass::Pass;
use crate::rule::{Deal, Rule};
use crate::view::{Opening, View};
use atomic_table::{Refused, Seat, Table};
use std::alloc::Global;
use std::snapshot::Snapshot;

/// The largest number of passes.
pub const MAX_PASSES: u32 = 16;

impl<M: Machine> Gate<M> {
    /// Opens a gate over `machine`, with `passes` passes, which are numbered from 1 on.
    ///
    /// Requires that `passes` is from 1 to [`MAX_PASSES`], and that the machine has no entry of
    /// these numbers. Each pass has seen the machine's history, and keeps its setting and
    /// history as those that the gate was opened with.
    pub fn open(alloc: Global, machine: M, passes: u32) -> Result<(Gate<M>, Vec<Pass<M>>), NoMemory>
        requires passes { (1 ≤ passes) × (passes ≤ MAX_PASSES) }
        requires unused { (n : ℕ) → IsDealt passes n →
            of_number M.number n (M.entries machine) ≡ [] }
        ensures count { IfOk result (λ made. vec_len made.1 ≡ passes) }
        ensures dealt { IfOk result (λ made. (i : ℕ) → i < passes →
            IfSome (slice_get made.1.items i) (λ pass. known pass ≡
            dealt (gate_id made.0) (M.setting machine) (M.entries machine) passes (i + 1))) }
        ensures legal { IfOk result (λ made. M.legal (M.setting machine) (M.entries machine)) }
    {
        let mut slots = Vec::with_capacity(alloc, 1)?;
        let room = Vec::with_capacity(alloc, passes as usize)?;
        let key = Opening {
            machine: Snapshot::of(&machine),
            passes,
        };
        let free = [2 * u64::from(machine.count())];
        slots.push_reserved(Some(machine));
        match Table::new(alloc, &free, slots, &key) {
            Ok((table, seat)) => {
                let gate = Gate { table };
                let dealt = gate.deal(seat, passes, room);
                Ok((gate, dealt))
            }
            Err(Refused { slots: _ }) => Err(NoMemory),
        }
    }

    // Gives each number of the first seat to a seat of its own. The passes take the room of `room`.
    fn deal(
        &self,
        mut first: Seat<Option<M>, View<M::Entry>>,
        passes: u32,
        room: Vec<Pass<M>>,
    ) -> Vec<Pass<M>>
        requires gate { first.table_id ≡ gate_id self.now }
        requires all { first.me ≡ (first_view first.me.0.setting first.me.0.opening passes, []) }
        requires room { (room.items ≡ []) × (vec_capacity room ≡ passes) }
        ensures count { vec_len result ≡ passes }
        ensures dealt { (i : ℕ) → i < passes →
            IfSome (slice_get result.items i) (λ pass. known pass ≡
            dealt first.table_id first.me.0.setting first.me.0.opening passes (i + 1)) }
    {
        let mut dealt = room;
        for _ in 0..passes {
            dealt.push_reserved(self.next(&mut first));
        }
        dealt
    }

    // Gives the first number of a seat to a seat of its own.
    fn next(&self, seat: &mut Seat<Option<M>, View<M::Entry>>) -> Pass<M>
        requires gate { seat.old.table_id ≡ gate_id self.now }
        requires idle { (seat.old.me.1 ≡ []) × (seat.old.me.0.hand ≡ Idle)
            × (0 < length seat.old.me.0.own) }
        ensures seat { (seat.new.table_id ≡ seat.old.table_id)
            × (seat.new.me ≡ (others seat.old.me.0, [])) }
        ensures pass { known result ≡ known_of seat.old.table_id (first_alone seat.old.me.0) }
    {
        Pass {
            seat: self.table.shared.split_seat::<Deal>(seat),
        }
    }
}
