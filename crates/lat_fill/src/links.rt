//! The maps between the fields that go into the target.
ghost use Rattle.std.specs.Prelude.{◌≡◌, ◌↔◌, ℕ, ◌<◌, ◌++◌, ◌∷◌, [], List, IfOk, OnOk, IsTrue, length};
ghost use Rattle.alg_model.specs.Lattices.{Stored};
ghost use Rattle.lat_world.specs.Worlds.{AreMembers};
ghost use Rattle.lat_fill.specs.PrivateListing.{number_at};
ghost use Rattle.lat_fill.specs.PrivateWays.{AreWays, IsHad, Keeps, Provides, Goes};

use lat_core::{Lattice, NoMemory, SharedMap};
use lat_world::{Member, World};

// Appends a map.
#[inline(always)]
pub(crate) fn add(maps: &mut Vec<SharedMap>, map: SharedMap) -> Result<(), NoMemory>
    ensures { OnOk result (maps.new.items ≡ maps.old.items ++ map ∷ []) }
{
    maps.push(map)?;
    Ok(())
}

// Whether a map from one field to another is stored.
pub(crate) fn is_stored(lattice: &Lattice, i: u32, k: u32) -> bool
    ensures { IsTrue result ↔ ((m : List (List ℕ)) × Stored lattice.now i k m) }
{
    lattice.map(i, k).is_some()
}

// Whether the degree of the `a`-th member divides that of the `b`-th.
pub(crate) fn goes(members: &[Member], a: usize, b: usize) -> bool
    requires first { a < length members.now }
    requires second { b < length members.now }
    ensures { IsTrue result ↔ Goes members.now a b }
{
    members[b].map.source_degree() % members[a].map.source_degree() == 0
}

// Appends the map from the `a`-th to the `b`-th member that agrees with their maps into the target.
#[inline(never)]
fn push_link(
    lattice: &Lattice,
    members: &[Member],
    a: usize,
    b: usize,
    maps: &mut Vec<SharedMap>,
) -> Result<(), NoMemory>
    requires members { AreMembers members.now }
    requires first { a < length members.now }
    requires second { b < length members.now }
    requires goes { Goes members.now a b }
    requires ways { AreWays lattice.now members.now maps.old.items }
    ensures { OnOk result (Provides lattice.now members.now (Goes members.now a b)
        (number_at members.now a) (number_at members.now b) maps.old.items maps.new.items) }
{
    let (from, into) = (members[a].number, members[b].number);
    let alloc = lattice.allocator();
    let map = World::of(members).link(alloc, a, b)?;
    add(maps, SharedMap::of_stored(alloc, from, into, map)?)
}

// Appends the map from the `a`-th to the `b`-th member, if there is one and the lattice has none
// for the pair.
fn add_link(
    lattice: &Lattice,
    members: &[Member],
    a: usize,
    b: usize,
    maps: &mut Vec<SharedMap>,
) -> Result<(), NoMemory>
    requires members { AreMembers members.now }
    requires first { a < length members.now }
    requires second { b < length members.now }
    requires ways { AreWays lattice.now members.now maps.old.items }
    ensures { OnOk result (Provides lattice.now members.now (Goes members.now a b)
        (number_at members.now a) (number_at members.now b) maps.old.items maps.new.items) }
{
    if !goes(members, a, b) || is_stored(lattice, members[a].number, members[b].number) {
        return Ok(());
    }
    push_link(lattice, members, a, b, maps)
}

// Appends the maps to the `b`-th member.
fn add_links_to(
    lattice: &Lattice,
    members: &[Member],
    b: usize,
    maps: &mut Vec<SharedMap>,
) -> Result<(), NoMemory>
    requires members { AreMembers members.now }
    requires place { b < length members.now }
    requires ways { AreWays lattice.now members.now maps.old.items }
    ensures ways { OnOk result (AreWays lattice.now members.now maps.new.items) }
    ensures kept { OnOk result (Keeps maps.old.items maps.new.items) }
    ensures linked { OnOk result ((a : ℕ) → a < length members.now → Goes members.now a b
        → IsHad lattice.now maps.new.items (number_at members.now a) (number_at members.now b)) }
{
    for a in 0..members.len() {
        add_link(lattice, members, a, b, maps)?;
    }
    Ok(())
}

// Maps between members, so that with the lattice's own there is one for each two whose degrees
// divide.
pub(crate) fn links(lattice: &Lattice, members: &[Member]) -> Result<Vec<SharedMap>, NoMemory>
    requires { AreMembers members.now }
    ensures ways { IfOk result (λ maps. AreWays lattice.now members.now maps.items) }
    ensures linked { IfOk result (λ maps. (a b : ℕ) → a < length members.now
        → b < length members.now → Goes members.now a b
        → IsHad lattice.now maps.items (number_at members.now a) (number_at members.now b)) }
{
    let mut maps = Vec::new(lattice.allocator());
    for b in 0..members.len() {
        add_links_to(lattice, members, b, &mut maps)?;
    }
    Ok(maps)
}
