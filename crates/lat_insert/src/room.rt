//! Room for further fields.

ghost use Rattle.std.specs.Prelude.{◌↔◌, ◌+◌, ◌<◌, length, IsTrue};

use lat_core::{Lattice, MAX_FIELDS};

// Whether so many more fields are too many.
pub(crate) fn lacks_room(lattice: &Lattice, need: u32) -> bool
    ensures { IsTrue result ↔ (lattice.now.edition.room < length lattice.now.rows + need) }
{
    let _edition = lattice.edition();
    lattice.fields() as usize + need as usize > MAX_FIELDS
}
