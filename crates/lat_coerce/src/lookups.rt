//! What a field of a lattice is, and whether a pair has a map.
ghost use Rattle.std.specs.Prelude.{◌≡◌, ◌↔◌, IsTrue};
ghost use Rattle.alg_model.specs.Maps.{degree_of};
ghost use Rattle.alg_model.specs.Lattices.{field_at};
ghost use Rattle.lat_core.specs.Answers.{IsNumber, IsStoredPair};

use ff_field::Field;
use lat_core::Lattice;

// The field of a number.
pub(crate) fn field(lattice: &Lattice, number: u32) -> &Field
    requires number { IsNumber lattice.now number }
    ensures field { result.now ≡ field_at lattice.now.rows number }
{
    &lattice.field(number).field
}

// The degree of the field of a number.
pub(crate) fn degree(lattice: &Lattice, number: u32) -> u32
    requires number { IsNumber lattice.now number }
    ensures degree { result ≡ degree_of (field_at lattice.now.rows number) }
{
    field(lattice, number).degree()
}

// Whether a map is stored for the pair.
pub(crate) fn is_stored(lattice: &Lattice, i: u32, j: u32) -> bool
    ensures stored { IsTrue result ↔ IsStoredPair lattice.now i j }
{
    lattice.map(i, j).is_some()
}
