//! A turn: the machine in the hands of one session.
ghost use Rattle.std.specs.Prelude.{◌≡◌, ℕ, List, [], ◌∷◌, ◌++◌};
ghost use Rattle.lat_gate.specs.Seats.{IsHeld};

use crate::gate::Gate;
use crate::machine::Machine;
use crate::pass::Pass;
use crate::rule::GiveBack;
use crate::view::View;
use atomic_table::Seat;

mod lend;

/// The machine of a gate, in the hands of the session that took it.
///
/// It has to be spent by [`publish`](Turn::publish) or [`give_back`](Turn::give_back).
pub struct Turn<'g, M: Machine> {
    pub(crate) gate: &'g Gate<M>,
    pub(crate) seat: Seat<Option<M>, View<M::Entry>>,
    pub(crate) machine: M,
    ghost of_gate: { seat.table_id ≡ gate.now.table.shared.table_id },
    ghost held: { IsHeld seat.me },
}

impl<'g, M: Machine> Turn<'g, M> {
    ghost use Rattle.lat_gate.specs.History.{of_number};
    ghost use Rattle.lat_gate.specs.Rule.{Has};
    ghost use Rattle.lat_gate.specs.Steps.{settled};
    ghost use Rattle.lat_gate.specs.Seats.{known_of, AddsOne, published, informed};
    ghost use Rattle.lat_gate.specs.Passes.{known, pass_of, taken, machine_of};

    /// Puts the machine back with one entry more, of the number of the pass, and gives the pass
    /// back.
    ///
    /// Requires that the machine has the gate's setting, and that its history is the one at the
    /// take and one entry more. The pass has then seen this history, and has the entry behind
    /// its own ones.
    pub fn publish(self) -> Pass<M>
        requires setting { M.setting (machine_of self) ≡ (pass_of self).setting }
        requires one_more { AddsOne M.number (pass_of self).own (taken self)
            (M.entries (machine_of self)) }
        ensures pass { (e : M.Entry) →
            M.entries (machine_of self.entry) ≡ taken self.entry ++ e ∷ [] →
            known result ≡ published (pass_of self.entry) (M.entries (machine_of self.entry)) e }
        ensures legal { M.legal (pass_of self.entry).setting (M.entries (machine_of self.entry)) }
    {
        self.settle()
    }

    /// Puts the machine back as it was taken, and gives the pass back.
    ///
    /// Requires that the machine has the gate's setting and the history at the take. The pass
    /// has then seen this history.
    pub fn give_back(self) -> Pass<M>
        requires setting { M.setting (machine_of self) ≡ (pass_of self).setting }
        requires none_more { M.entries (machine_of self) ≡ taken self }
        ensures pass { known result ≡ informed (pass_of self.entry) (taken self.entry) }
        ensures legal { M.legal (pass_of self.entry).setting (taken self.entry) }
    {
        self.settle()
    }

    // Puts the machine back, with entries more of the number of the pass alone.
    fn settle(self) -> Pass<M>
        requires setting { M.setting (machine_of self) ≡ (pass_of self).setting }
        requires more { (more : List M.Entry) × (M.entries (machine_of self) ≡ taken self ++ more)
            × ((n : ℕ) → ¬ Has (pass_of self).own n → of_number M.number n more ≡ []) }
        ensures pass { known result ≡ known_of self.entry.seat.table_id
            (settled M.number self.entry.seat.me.0 (M.entries (machine_of self.entry))) }
        ensures legal { M.legal (pass_of self.entry).setting (M.entries (machine_of self.entry)) }
    {
        let Turn {
            gate,
            mut seat,
            machine,
        } = self;
        let word = 2 * u64::from(machine.count());
        let shared = &gate.table.shared;
        let None = shared.exchange(&mut seat, 0, Some(machine)) else {
            unreachable!()
        };
        shared.swap::<GiveBack>(&mut seat, 0, word);
        Pass { seat }
    }
}
