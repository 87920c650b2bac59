//! The degrees that two fields of a lattice lack.
ghost use Rattle.std.specs.Prelude.{◌≡◌, ℕ, ◌↔◌, ◌<◌, ◌≤◌, All, AllPairs, Contains, IsTrue, length};
ghost use Rattle.alg_model.specs.Maps.{degree_of};
ghost use Rattle.alg_model.specs.Lattices.{field_at};
ghost use Rattle.alg_model.specs.Candidates.{IsMember, AreMissing};
ghost use Rattle.alg_compatible.specs.Theorems.{AreFields};
ghost use Rattle.alg_choices.specs.Degrees.{AreDegrees};
ghost use Rattle.ff_meet.specs.Degrees.{Holds};
ghost use Rattle.lat_fill.specs.PrivateListing.{IsSmallDegree};

use arrayvec::ArrayVec;
use ff_meet::DegreeSet;
use ff_poly::MAX_DEGREE;
use lat_core::{Lattice, MAX_FIELDS};

/// At most `MAX_DEGREE` degrees.
pub type DegreeList = ArrayVec<u32, MAX_DEGREE>;

/// The degrees that field `from` and field `into` lack, lowest first: those of the closure of their
/// members' degrees under greatest common divisors that no member has. A member is a field with a
/// stored map into one of the two, which are numbers of fields. Each degree is 1 to `MAX_DEGREE`.
pub fn missing(lattice: &Lattice, from: u32, into: u32) -> DegreeList
    requires fields { AreFields lattice.now from into }
    ensures missing { AreMissing lattice.now from into result.items }
    ensures small { All (λ d. (0 < d) × (d ≤ MAX_DEGREE)) result.items }
{
    let degrees = member_degrees(lattice, from, into);
    rising(&DegreeSet::of(degrees.as_slice()).missing())
}

// Whether a field has a stored map into one of the two.
pub(crate) fn is_member(lattice: &Lattice, from: u32, into: u32, number: u32) -> bool
    ensures { IsTrue result ↔ IsMember lattice.now from into number }
{
    lattice.map(number, into).is_some() || lattice.map(number, from).is_some()
}

// The degrees of the members.
fn member_degrees(lattice: &Lattice, from: u32, into: u32) -> ArrayVec<u32, MAX_FIELDS>
    ensures degrees { AreDegrees lattice.now from into (Contains result.items) }
    ensures small { All IsSmallDegree result.items }
{
    let _edition = lattice.edition();
    let mut degrees = ArrayVec::new();
    for number in 0..lattice.fields() {
        if is_member(lattice, from, into, number) {
            degrees.push(degree_at(lattice, number));
        }
    }
    degrees
}

// The degree of a field.
fn degree_at(lattice: &Lattice, number: u32) -> u32
    requires { number < length lattice.now.rows }
    ensures value { result ≡ degree_of (field_at lattice.now.rows number) }
    ensures small { IsSmallDegree result }
{
    lattice.field(number).field.degree()
}

// The degrees that the set holds, lowest first; each is 1 to `MAX_DEGREE`.
fn rising(set: &DegreeSet) -> DegreeList
    requires { (d : ℕ) → Holds set.now d → IsSmallDegree d }
    ensures rising { AllPairs (λ a b. a < b) result.items }
    ensures exactly { (d : ℕ) → Contains result.items d ↔ Holds set.now d }
    ensures small { All IsSmallDegree result.items }
{
    let mut degrees = ArrayVec::new();
    for degree in 1..MAX_DEGREE as u32 + 1 {
        if set.holds(degree) {
            degrees.push(degree);
        }
    }
    degrees
}
