//! Meets of subfields.
ghost use Rattle.std.specs.Prelude.{ℕ, ◌↔◌, IsTrue, MatchResult};
ghost use Rattle.std.specs.Int.{IsGcd};
ghost use Rattle.lat_core.specs.Answers.{IsNumber, HasMeet};
ghost use Rattle.lat_coerce.specs.PrivateSearches.{IsCommonSubfield, IsFirstOfDegree};

use crate::lookups::{degree, is_stored};
use lat_core::{Answer, CoerceFault, Lattice};

/// The first field with maps into `i` and `j` from which all values come that are images in `k`
/// both of a value of `i` and of a value of `j`.
///
/// `NotEmbedded` exactly where `i`, or else `j`, has no map into `k`.
///
/// It is the first common subfield of `i` and `j` whose degree is the greatest common divisor of
/// theirs (Lidl and Niederreiter, Finite Fields, theorem 2.6).
pub fn meet(lattice: &Lattice, i: u32, j: u32, k: u32) -> Result<u32, CoerceFault>
    ensures meet { MatchResult result
        (λ field. HasMeet lattice.now i j k (Answer.Is field))
        (λ fault. HasMeet lattice.now i j k (Answer.Refused fault)) }
{
    let _edition = lattice.edition();
    if !is_stored(lattice, i, k) {
        return Err(CoerceFault::NotEmbedded { i, j: k });
    }
    if !is_stored(lattice, j, k) {
        return Err(CoerceFault::NotEmbedded { i: j, j: k });
    }
    let d = gcd(degree(lattice, i), degree(lattice, j));
    Ok(first_of_degree(lattice, i, j, d))
}

// The first common subfield of this degree, which there is.
fn first_of_degree(lattice: &Lattice, i: u32, j: u32, d: u32) -> u32
    requires some { (l : ℕ) × IsCommonSubfield lattice.now i j d l }
    ensures first { IsFirstOfDegree lattice.now i j d result }
{
    for field in 0..lattice.fields() {
        if is_common_subfield(lattice, i, j, d, field) {
            return field;
        }
    }
    unreachable!()
}

// Whether a field is a common subfield of this degree.
fn is_common_subfield(lattice: &Lattice, i: u32, j: u32, d: u32, field: u32) -> bool
    requires number { IsNumber lattice.now field }
    ensures common { IsTrue result ↔ IsCommonSubfield lattice.now i j d field }
{
    degree(lattice, field) == d && is_stored(lattice, field, i) && is_stored(lattice, field, j)
}

// The greatest common divisor, by Euclid's algorithm.
fn gcd(a: u32, b: u32) -> u32
    ensures gcd { IsGcd a b result }
{
    if b == 0 {
        return a;
    }
    gcd(b, a % b)
}
