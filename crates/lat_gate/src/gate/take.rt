//! How the machine is taken, and what a session finds in it.
ghost use Rattle.std.specs.Prelude.{◌≡◌, ◌≢◌, ℕ, ◌+◌, ◌%◌, List, [], ◌∷◌, Some, length, Contains, true, false, None};
ghost use mathlib.Core.Option.{none};
ghost use Rattle.atomic_table.specs.Table.{step};
ghost use Rattle.lat_gate.specs.History.{of_number, BeginsWith};
ghost use Rattle.lat_gate.specs.Rule.{HasNumber};
ghost use Rattle.lat_gate.specs.Steps.{looked, Took, held_log};
ghost use Rattle.lat_gate.specs.Seats.{known_of};
ghost use Rattle.lat_gate.specs.declared.view.Hand.TheVariants.{Holds};
ghost use Rattle.lat_gate.specs.Passes.{gate_id, known, IsPassOf, pass_of, taken, machine_of};

use super::Gate;
use crate::machine::Machine;
use crate::pass::Pass;
use crate::rule::{Look, Take};
use crate::turn::Turn;
use crate::view::View;
use atomic_table::Seat;
use std::sync::Wait;
use std::thread::yield_now;

impl<M: Machine> Gate<M> {
    /// Waits until the gate is free, and takes the machine.
    ///
    /// Requires that the pass is of this gate and has one number. The machine then has the
    /// setting that the gate was opened with. Its history is legal and begins with what the pass
    /// has seen, and the entries of the pass's number in it are exactly the pass's own.
    pub fn take<'g, R: Wait>(&'g self, rt: &R, pass: Pass<M>) -> Turn<'g, M>
        requires of_gate { IsPassOf self.now pass }
        requires one_number { length (known pass).own ≡ 1 }
        ensures pass { pass_of result ≡ known pass }
        ensures setting { M.setting (machine_of result) ≡ (known pass).setting }
        ensures history { M.entries (machine_of result) ≡ taken result }
        ensures begins { BeginsWith (taken result) (known pass).seen }
        ensures own { (n : ℕ) (mine : List M.Entry) → Contains (known pass).own (n, mine) →
            of_number M.number n (taken result) ≡ mine }
        ensures legal { M.legal (known pass).setting (taken result) }
    {
        let Pass { mut seat } = pass;
        for _ in rt.forever() {
            let word = self.look(&mut seat);
            if word % 2 == 0 && self.try_take(&mut seat, word) {
                return self.slot_out(seat);
            }
            yield_now();
        }
        unreachable!()
    }

    // The word, which is even where the gate is free.
    pub(super) fn look(&self, seat: &mut Seat<Option<M>, View<M::Entry>>) -> u64
        requires gate { seat.old.table_id ≡ gate_id self.now }
        ensures seat { (seat.new.table_id ≡ seat.old.table_id) × (seat.new.id ≡ seat.old.id) }
        ensures looked { looked {M = M} (step 1 0 0 0 none) seat.old.me result seat.new.me }
    {
        self.table.shared.load::<Look>(seat, 0)
    }

    // Takes the slot if the word is still the even word that was seen.
    fn try_take(&self, seat: &mut Seat<Option<M>, View<M::Entry>>, word: u64) -> bool
        requires gate { seat.old.table_id ≡ gate_id self.now }
        requires even { word % 2 ≡ 0 }
        requires idle { seat.old.me.1 ≡ [] }
        requires number { HasNumber seat.old.me.0.own }
        ensures seat { (seat.new.table_id ≡ seat.old.table_id) × (seat.new.id ≡ seat.old.id) }
        ensures taken { result ≡ true → Took M.entries M.number M.setting seat.old.me seat.new.me }
        ensures missed { result ≡ false → seat.new.me ≡ seat.old.me }
    {
        self.table
            .shared
            .compare_exchange::<Take>(seat, 0, word, word + 1)
            == word
    }

    // Takes the machine out of the slot.
    fn slot_out<'g>(&'g self, mut seat: Seat<Option<M>, View<M::Entry>>) -> Turn<'g, M>
        requires gate { seat.table_id ≡ gate_id self.now }
        requires held { (x : M) × (seat.me.1 ≡ (0, Some x) ∷ [])
            × (seat.me.0.hand ≡ Holds (M.entries x)) × (M.setting x ≡ seat.me.0.setting) }
        requires one_number { length seat.me.0.own ≡ 1 }
        ensures pass { pass_of result ≡ known_of seat.table_id seat.me.0 }
        ensures machine { seat.me.1 ≡ (0, Some (machine_of result)) ∷ [] }
        ensures taken { taken result ≡ held_log seat.me.0.hand }
        ensures legal { M.legal (M.setting (machine_of result)) (M.entries (machine_of result)) }
    {
        let Some(machine) = self.table.shared.exchange(&mut seat, 0, None) else {
            unreachable!()
        };
        let _count = machine.count();
        Turn {
            gate: self,
            seat,
            machine,
        }
    }
}
