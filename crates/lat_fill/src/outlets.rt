//! The maps out of the fields that go into the target, into fields that don't.
ghost use Rattle.std.specs.Prelude.{◌↔◌, ℕ, ◌<◌, OnOk, IsTrue, length};
ghost use Rattle.lat_world.specs.Worlds.{AreMembers};
ghost use Rattle.lat_fill.specs.PrivateListing.{number_at};
ghost use Rattle.lat_fill.specs.PrivateWays.{AreWays, IsHad, Keeps, Provides, IsExit, IsReached};
ghost use Rattle.lat_fill.specs.PrivateWays.{AreAtHome, AreExits, HasPlace};

use crate::exits::exits_to;
use crate::links::{add, is_stored};
use lat_core::{Lattice, NoMemory, SharedMap};
use lat_world::{Member, World};

// Appends the map from the `a`-th member to the `b`-th, and then the stored one to field `k`.
#[inline(never)]
fn push_outlet(
    lattice: &Lattice,
    members: &[Member],
    a: usize,
    b: usize,
    k: u32,
    maps: &mut Vec<SharedMap>,
) -> Result<(), NoMemory>
    requires members { AreMembers members.now }
    requires home { AreAtHome lattice.now members.now }
    requires first { a < length members.now }
    requires second { b < length members.now }
    requires exit { IsExit lattice.now members.now a b k }
    requires ways { AreWays lattice.now members.now maps.old.items }
    ensures { OnOk result (Provides lattice.now members.now (IsReached lattice.now members.now a k)
        (number_at members.now a) k maps.old.items maps.new.items) }
{
    let from = members[a].number;
    let alloc = lattice.allocator();
    let link = World::of(members).link(alloc, a, b)?;
    match lattice.map(members[b].number, k) {
        None => unreachable!(),
        Some(stored) => {
            let map = link.compose(alloc, stored)?;
            add(maps, SharedMap::of_stored(alloc, from, k, map)?)
        }
    }
}

// The same, where the lattice has no map for the pair.
fn add_outlet_through(
    lattice: &Lattice,
    members: &[Member],
    a: usize,
    b: usize,
    k: u32,
    maps: &mut Vec<SharedMap>,
) -> Result<(), NoMemory>
    requires members { AreMembers members.now }
    requires home { AreAtHome lattice.now members.now }
    requires first { a < length members.now }
    requires second { b < length members.now }
    requires exit { IsExit lattice.now members.now a b k }
    requires ways { AreWays lattice.now members.now maps.old.items }
    ensures { OnOk result (Provides lattice.now members.now (IsReached lattice.now members.now a k)
        (number_at members.now a) k maps.old.items maps.new.items) }
{
    if is_stored(lattice, members[a].number, k) {
        return Ok(());
    }
    push_outlet(lattice, members, a, b, k, maps)
}

// Appends a map from the `a`-th member to field `k`, if there is one and the lattice has none for
// the pair.
fn add_outlet(
    lattice: &Lattice,
    members: &[Member],
    exits: &[Option<u8>],
    a: usize,
    k: u32,
    maps: &mut Vec<SharedMap>,
) -> Result<(), NoMemory>
    requires members { AreMembers members.now }
    requires home { AreAtHome lattice.now members.now }
    requires exits { AreExits lattice.now members.now k (length members.now) exits.now }
    requires place { a < length members.now }
    requires ways { AreWays lattice.now members.now maps.old.items }
    ensures { OnOk result (Provides lattice.now members.now (IsReached lattice.now members.now a k)
        (number_at members.now a) k maps.old.items maps.new.items) }
{
    let degree = members[a].map.source_degree();
    match exits[degree as usize] {
        None => Ok(()),
        Some(b) => add_outlet_through(lattice, members, a, b as usize, k, maps),
    }
}

// Appends the maps into field `k`.
fn add_outlets_to(
    lattice: &Lattice,
    members: &[Member],
    k: u32,
    maps: &mut Vec<SharedMap>,
) -> Result<(), NoMemory>
    requires members { AreMembers members.now }
    requires home { AreAtHome lattice.now members.now }
    requires ways { AreWays lattice.now members.now maps.old.items }
    ensures ways { OnOk result (AreWays lattice.now members.now maps.new.items) }
    ensures kept { OnOk result (Keeps maps.old.items maps.new.items) }
    ensures linked { OnOk result ((a : ℕ) → a < length members.now
        → IsReached lattice.now members.now a k
        → IsHad lattice.now maps.new.items (number_at members.now a) k) }
{
    let exits = exits_to(lattice, members, k);
    for a in 0..members.len() {
        add_outlet(lattice, members, &exits, a, k, maps)?;
    }
    Ok(())
}

// Whether a member has this number.
fn has_place(members: &[Member], k: u32) -> bool
    ensures { IsTrue result ↔ HasPlace members.now k }
{
    for member in members {
        if member.number == k {
            return true;
        }
    }
    false
}

// Appends maps out of the members, so that with the lattice's own there is one for each field that a
// member has a stored map into, and each member that goes into that one.
pub(crate) fn add_outlets(
    lattice: &Lattice,
    members: &[Member],
    maps: &mut Vec<SharedMap>,
) -> Result<(), NoMemory>
    requires members { AreMembers members.now }
    requires home { AreAtHome lattice.now members.now }
    requires ways { AreWays lattice.now members.now maps.old.items }
    ensures ways { OnOk result (AreWays lattice.now members.now maps.new.items) }
    ensures kept { OnOk result (Keeps maps.old.items maps.new.items) }
    ensures linked { OnOk result ((a k : ℕ) → a < length members.now
        → k < length lattice.now.rows → (HasPlace members.now k → ⊥)
        → IsReached lattice.now members.now a k
        → IsHad lattice.now maps.new.items (number_at members.now a) k) }
{
    for k in 0..lattice.fields() {
        if !has_place(members, k) {
            add_outlets_to(lattice, members, k, maps)?;
        }
    }
    Ok(())
}
