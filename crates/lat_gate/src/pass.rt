//! The token by which a session uses a gate.
ghost use Rattle.std.specs.Prelude.{◌≡◌, ◌<◌, length};
ghost use Rattle.lat_gate.specs.Seats.{IsIdle};

use crate::machine::Machine;
use crate::view::View;
use atomic_table::Seat;

/// What a session may do with a gate, and what it was told. It has no bytes.
///
/// A pass has one number or more, and of each number a list of entries that are its own. It has
/// seen a history, and it keeps the setting, the history and the number of passes that the gate
/// was opened with.
#[derive(Drop)]
pub struct Pass<M: Machine> {
    pub(crate) seat: Seat<Option<M>, View<M::Entry>>,
    ghost idle: { IsIdle seat.me },
}
