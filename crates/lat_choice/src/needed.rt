//! Which common subfields restrict an embedding: those that go into no other one that does for
//! them too.
ghost use Rattle.std.specs.Prelude.{◌≡◌, ◌↔◌, ℕ, ◌<◌, List, length, IsTrue};
ghost use Rattle.alg_model.specs.Maps.{degree_of};
ghost use Rattle.alg_model.specs.Lattices.{field_at, Stored};
ghost use Rattle.alg_choices.specs.Fitting.{IsCommonSubfield, IsCovered};
ghost use Rattle.lat_choice.specs.PrivateNeeded.{ComesFirst, Covers, IsNeeded};

use lat_core::Lattice;

// Whether a field restricts the embeddings of `from` into `into`.
pub(crate) fn is_needed(lattice: &Lattice, from: u32, into: u32, d: u32) -> bool
    requires { d < length lattice.now.rows }
    ensures { IsTrue result ↔ IsNeeded lattice.now from into d }
{
    is_common(lattice, from, into, d)
        && degree(lattice, d) != 1
        && !is_covered(lattice, from, into, d)
}

// Whether a field has maps into both fields.
fn is_common(lattice: &Lattice, from: u32, into: u32, d: u32) -> bool
    ensures { IsTrue result ↔ IsCommonSubfield lattice.now from into d }
{
    is_stored(lattice, d, from) && is_stored(lattice, d, into)
}

// Whether a map from one field to another is stored.
fn is_stored(lattice: &Lattice, i: u32, j: u32) -> bool
    ensures { IsTrue result ↔ ((m : List (List ℕ)) × Stored lattice.now i j m) }
{
    lattice.map(i, j).is_some()
}

// The degree of a field.
fn degree(lattice: &Lattice, d: u32) -> u32
    requires { d < length lattice.now.rows }
    ensures { result ≡ degree_of (field_at lattice.now.rows d) }
{
    let row = lattice.field(d);
    row.field.degree()
}

// Whether a common subfield goes into another one that does for it too.
fn is_covered(lattice: &Lattice, from: u32, into: u32, d: u32) -> bool
    requires { d < length lattice.now.rows }
    ensures { IsTrue result ↔ IsCovered lattice.now from into d }
{
    for c in 0..lattice.fields() {
        if covers(lattice, from, into, c, d) {
            return true;
        }
    }
    false
}

// Whether field c does for field d too.
fn covers(lattice: &Lattice, from: u32, into: u32, c: u32, d: u32) -> bool
    requires cover { c < length lattice.now.rows }
    requires within { d < length lattice.now.rows }
    ensures { IsTrue result ↔ Covers lattice.now from into d c }
{
    comes_first(lattice, c, d) && is_stored(lattice, d, c) && is_common(lattice, from, into, c)
}

// Whether the degree of field c is greater, or the same and its number less.
fn comes_first(lattice: &Lattice, c: u32, d: u32) -> bool
    requires cover { c < length lattice.now.rows }
    requires within { d < length lattice.now.rows }
    ensures { IsTrue result ↔ ComesFirst lattice.now d c }
{
    let (first, second) = (degree(lattice, c), degree(lattice, d));
    second < first || second == first && c < d
}
