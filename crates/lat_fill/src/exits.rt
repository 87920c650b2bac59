//! The members that lead into a field, by the degrees of the fields that go into them.
ghost use Rattle.std.specs.Prelude.{◌≡◌, ℕ, ◌+◌, ◌<◌, Some, None, length, slice_index_or};
ghost use Prim.Native.Nat.{◌∣◌};
ghost use Rattle.ff_poly.specs.declared.TheConstants.{MAX_DEGREE};
ghost use Rattle.lat_world.specs.Worlds.{AreMembers};
ghost use Rattle.lat_fill.specs.PrivateListing.{IsSmallDegree};
ghost use Rattle.lat_fill.specs.PrivateWays.{Leads, AreExits};

use crate::links::is_stored;
use ff_poly::MAX_DEGREE;
use lat_core::Lattice;
use lat_world::Member;

// Degrees are places of a table.
const PLACES: usize = MAX_DEGREE + 1;

// Puts a place at each divisor of a degree.
fn open(exits: &mut [Option<u8>], degree: u32, place: u8)
    requires count { length exits.old ≡ MAX_DEGREE + 1 }
    requires degree { IsSmallDegree degree }
    ensures count { length exits.new ≡ MAX_DEGREE + 1 }
    ensures divisors { (d : ℕ) → d ∣ degree → slice_index_or exits.new d None ≡ Some place }
    ensures others { (d : ℕ) → (d ∣ degree → ⊥)
        → slice_index_or exits.new d None ≡ slice_index_or exits.old d None }
{
    for d in 1..degree + 1 {
        if degree % d == 0 {
            exits[d as usize] = Some(place);
        }
    }
}

// Adds the `b`-th member, which leads into field `k`, for the degrees that divide its own and have no
// member yet.
fn add_exit(lattice: &Lattice, members: &[Member], k: u32, b: usize, exits: &mut [Option<u8>])
    requires members { AreMembers members.now }
    requires place { b < length members.now }
    requires leads { Leads lattice.now members.now b k }
    requires exits { AreExits lattice.now members.now k b exits.old }
    ensures { AreExits lattice.now members.now k (b + 1) exits.new }
{
    let degree = members[b].map.source_degree();
    match exits[degree as usize] {
        Some(_) => {}
        None => open(exits, degree, b as u8),
    }
}

// For each degree the place of a member that a field of this degree goes into and that has a stored
// map into field `k`; None exactly where there is none.
pub(crate) fn exits_to(lattice: &Lattice, members: &[Member], k: u32) -> [Option<u8>; PLACES]
    requires { AreMembers members.now }
    ensures { AreExits lattice.now members.now k (length members.now) result }
{
    let mut exits = [None; PLACES];
    for b in 0..members.len() {
        if is_stored(lattice, members[b].number, k) {
            add_exit(lattice, members, k, b, &mut exits);
        }
    }
    exits
}
