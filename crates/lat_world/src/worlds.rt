//! All fields that go into one field.
ghost use Rattle.std.specs.Prelude.{◌≡◌, ℕ, ◌<◌, ◌↔◌, length, Contains, IsSome, IfOk, IfSome};
ghost use Prim.Native.Nat.{◌∣◌};
ghost use Rattle.alg_model.specs.Maps.{degree_of};
ghost use Rattle.alg_choices.specs.Degrees.{InClosure};
ghost use Rattle.ff_embed.specs.SmallEmbeddings.{IsSmallEmbedding};
ghost use Rattle.ff_meet.specs.Degrees.{Holds};
ghost use Rattle.lat_world.specs.Worlds.{AreMembers, degrees_of, map_at, IsForcedBetween};

use crate::{MAX_MEMBERS, Member};
use arrayvec::ArrayVec;
use ff_embed::StoredEmbedding;
use ff_meet::DegreeSet;
use std::alloc::{AllocError, Global};
use std::marker::Model;

/// The members below one field, as a lattice has them.
///
/// They are lent, and not changed. Contracts see them as their list.
#[derive(Drop)]
pub struct World<'m> {
    members: &'m [Member],
}

impl<'m> Model for World<'m> {
    ghost use Rattle.std.specs.Prelude.{List};
    ghost use Rattle.lat_world.specs.declared.members.Member.{Member};
    ghost use Rattle.lat_world.specs.Worlds.{AreMembers};

    ghost Value = { List Member };

    ghost view = { λ a. a.members.now };

    ghost invariant = { λ a. AreMembers a.members.now };
}

impl<'m> World<'m> {
    /// The world of these members: at least one and at most `MAX_MEMBERS`, whose maps end in one
    /// field and whose numbers differ.
    pub fn of(members: &'m [Member]) -> World<'m>
        requires { AreMembers members.now }
        ensures { result ≡ members.now }
    {
        World { members }
    }

    /// The degrees that the members lack: those of the closure of their degrees under greatest
    /// common divisors that no member has.
    pub fn missing(&self) -> DegreeSet
        ensures { (d : ℕ) → Holds result d
            ↔ (InClosure (Contains (degrees_of self.now)) d
            × (Contains (degrees_of self.now) d → ⊥)) }
    {
        self.degrees().missing()
    }

    /// The one map from the `a`-th to the `b`-th member, counted from 0, which, followed by the map
    /// of the `b`-th, is that of the `a`-th; `None` exactly where the degree of the `a`-th doesn't
    /// divide that of the `b`-th.
    ///
    /// The only fault is want of memory.
    pub fn forced(
        &self,
        alloc: Global,
        a: usize,
        b: usize,
    ) -> Result<Option<StoredEmbedding>, AllocError>
        requires first { a < length self.now }
        requires second { b < length self.now }
        ensures some { IfOk result (λ forced. IsSome forced
            ↔ (degree_of (map_at self.now a).source ∣ degree_of (map_at self.now b).source)) }
        ensures forced { IfOk result (λ forced. IfSome forced (IsForcedBetween self.now a b)) }
        ensures whole { IfOk result (λ forced. IfSome forced IsSmallEmbedding) }
    {
        let members = self.members();
        let (from, into) = (&members[a].map, &members[b].map);
        if into.source_degree() % from.source_degree() != 0 {
            return Ok(None);
        }
        Ok(Some(StoredEmbedding::through(alloc, from, into)?))
    }

    /// The one map from the `a`-th to the `b`-th member, counted from 0, which, followed by the map
    /// of the `b`-th, is that of the `a`-th; the degree of the `a`-th divides that of the `b`-th. The
    /// only fault is want of memory.
    pub fn link(&self, alloc: Global, a: usize, b: usize) -> Result<StoredEmbedding, AllocError>
        requires first { a < length self.now }
        requires second { b < length self.now }
        requires divides { degree_of (map_at self.now a).source
            ∣ degree_of (map_at self.now b).source }
        ensures forced { IfOk result (IsForcedBetween self.now a b) }
        ensures whole { IfOk result IsSmallEmbedding }
    {
        let members = self.members();
        StoredEmbedding::through(alloc, &members[a].map, &members[b].map)
    }

    // The members.
    fn members(&self) -> &[Member]
        ensures value { result.now ≡ self.now }
        ensures whole { AreMembers self.now }
    {
        self.members
    }

    // The degrees of the members.
    fn degrees(&self) -> DegreeSet
        ensures { (d : ℕ) → Holds result d ↔ Contains (degrees_of self.now) d }
    {
        let mut degrees = ArrayVec::<u32, MAX_MEMBERS>::new();
        for member in self.members() {
            degrees.push(member.map.source_degree());
        }
        DegreeSet::of(degrees.as_slice())
    }
}
