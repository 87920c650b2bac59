//! The gate itself.
ghost use Rattle.std.specs.Prelude.{◌≡◌};

use crate::machine::Machine;
use crate::rule::Rule;
use crate::view::{Opening, View};
use atomic_table::Table;
use std::alloc::Global;

mod join;
mod open;
mod take;

pub use open::MAX_PASSES;

/// A machine behind a lock, and with it a count: the number of entries of the machine's history.
#[derive(Drop)]
pub struct Gate<M: Machine> {
    pub(crate) table: Table<Option<M>, View<M::Entry>, Opening<M>, Rule<M>, Global>,
    ghost sized: { (table.shared.table_id.words ≡ 1) × (table.shared.table_id.slots ≡ 1) },
}
