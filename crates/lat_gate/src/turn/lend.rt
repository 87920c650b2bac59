//! The machine of a turn is lent. This has a file of its own, since its clause names the row of
//! `Turn`, which the file that declares `Turn` can't import.
ghost use Rattle.std.specs.Prelude.{◌≡◌, []};
ghost use Rattle.std.specs.Borrow.{sem, follows};
ghost use mir.Syntax.{named};
ghost use Rattle.lat_gate.specs.contracts.turn.Turn.{the_row};
ghost use Rattle.lat_gate.specs.Passes.{machine_of, with_machine};

use super::Turn;
use crate::machine::Machine;

impl<'g, M: Machine> Turn<'g, M> {
    /// The machine. Once the borrow ends, the turn has it as it was left, and is else as before.
    pub fn machine(&mut self) -> &mut M
        ensures* writes_back { sem 𝓛 (follows
            (the_row (record { mir = named 0; lft = [] }) M.row M.Entry.row M.Machine) M.row
            self.entry.ghost_name result.ghost_name (with_machine self.old)) }
        ensures value { result.now ≡ machine_of self.old }
    {
        &mut self.machine
    }
}
