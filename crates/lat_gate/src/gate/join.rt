//! How passes are joined, and how a gate is closed.
ghost use Rattle.std.specs.Prelude.{◌≡◌, ℕ, List, Contains};
ghost use Rattle.lat_gate.specs.History.{of_number, BeginsWith};
ghost use Rattle.lat_gate.specs.Rule.{Has};
ghost use Rattle.lat_gate.specs.Seats.{joined, HasEvery};
ghost use Rattle.lat_gate.specs.Passes.{known, IsPassOf};

use super::Gate;
use crate::machine::Machine;
use crate::pass::Pass;
use crate::rule::Merge;

impl<M: Machine> Gate<M> {
    /// Gives the numbers of `other` to `kept`, each with its own entries.
    ///
    /// Requires that both passes are of this gate. What the kept pass has then seen is the
    /// longer of the two histories that they had seen, and it begins with both. A pass with more
    /// than one number is only joined further, or closed.
    pub fn join(&self, kept: &mut Pass<M>, other: Pass<M>)
        requires kept_of_gate { IsPassOf self.now kept.old }
        requires other_of_gate { IsPassOf self.now other }
        ensures pass { known kept.new ≡ joined (known kept.old) (known other) }
        ensures begins_with_kept { BeginsWith (known kept.new).seen (known kept.old).seen }
        ensures begins_with_other { BeginsWith (known kept.new).seen (known other).seen }
    {
        let Pass { seat } = other;
        self.table.shared.join_seat::<Merge>(&mut kept.seat, seat);
        self.look(&mut kept.seat);
    }

    /// Closes the gate, and gives the machine.
    ///
    /// Requires that the pass is of this gate and has every number that was dealt. The machine
    /// then has the setting that the gate was opened with. Its history is legal and begins with
    /// what the pass has seen. Of each of the pass's numbers it has exactly the pass's own
    /// entries, and of every other number exactly those that it had at the opening.
    pub fn close(self, pass: Pass<M>) -> M
        requires of_gate { IsPassOf self pass }
        requires every { HasEvery (known pass) }
        ensures setting { M.setting result ≡ (known pass).setting }
        ensures begins { BeginsWith (M.entries result) (known pass).seen }
        ensures own { (n : ℕ) (mine : List M.Entry) → Contains (known pass).own (n, mine) →
            of_number M.number n (M.entries result) ≡ mine }
        ensures others { (n : ℕ) → ¬ Has (known pass).own n →
            of_number M.number n (M.entries result) ≡ of_number M.number n (known pass).opening }
        ensures legal { M.legal (known pass).setting (M.entries result) }
    {
        let Gate { table } = self;
        let Pass { seat } = pass;
        let mut closed = table.close_with(seat);
        let slot = closed.take(0);
        closed.free();
        let Some(machine) = slot else { unreachable!() };
        let _count = machine.count();
        machine
    }
}
