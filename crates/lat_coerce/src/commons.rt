//! Common overfields.
ghost use Rattle.std.specs.Prelude.{◌+◌, ◌↔◌, IsTrue, MatchResult, length};
ghost use Rattle.lat_core.specs.Answers.{IsNumber, IsCommon, HasCommon};
ghost use Rattle.lat_coerce.specs.PrivateSearches.{IsBestBelow};

use crate::lookups::{degree, is_stored};
use lat_core::{Answer, CoerceFault, Lattice};

/// Of the fields into which `a` and `b` both have maps, one of least degree: of those `a`, else `b`,
/// else the one of least number.
///
/// `NoCommonField` exactly where there is none.
///
/// A field that has a map into the other one is the common overfield of least degree, since degrees
/// divide along maps; only where neither has, all fields are gone through, once.
pub fn common(lattice: &Lattice, a: u32, b: u32) -> Result<u32, CoerceFault>
    ensures common { MatchResult result
        (λ field. HasCommon lattice.now a b (Answer.Is field))
        (λ fault. HasCommon lattice.now a b (Answer.Refused fault)) }
{
    let _edition = lattice.edition();
    if is_stored(lattice, b, a) {
        return Ok(a);
    }
    if is_stored(lattice, a, b) {
        return Ok(b);
    }
    match lowest(lattice, a, b) {
        None => Err(CoerceFault::NoCommonField { a, b }),
        Some(field) => Ok(field),
    }
}

// The first of the common overfields of lowest degree.
fn lowest(lattice: &Lattice, a: u32, b: u32) -> Option<u32>
    ensures best { IsBestBelow lattice.now a b (length lattice.now.rows) result }
{
    let mut best = None;
    for field in 0..lattice.fields() {
        best = lower(lattice, a, b, best, field);
    }
    best
}

// The first of lowest degree with one field more taken into account.
fn lower(lattice: &Lattice, a: u32, b: u32, best: Option<u32>, field: u32) -> Option<u32>
    requires number { IsNumber lattice.now field }
    requires best { IsBestBelow lattice.now a b field best }
    ensures best { IsBestBelow lattice.now a b (field + 1) result }
{
    if !is_common(lattice, a, b, field) {
        return best;
    }
    match best {
        None => Some(field),
        Some(other) => {
            if degree(lattice, field) < degree(lattice, other) {
                Some(field)
            } else {
                Some(other)
            }
        }
    }
}

// Whether both have maps into a field.
fn is_common(lattice: &Lattice, a: u32, b: u32, field: u32) -> bool
    ensures common { IsTrue result ↔ IsCommon lattice.now a b field }
{
    is_stored(lattice, a, field) && is_stored(lattice, b, field)
}
