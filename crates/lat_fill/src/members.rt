//! The members below the target of an embedding, with their maps into it.
ghost use Rattle.std.specs.Prelude.{◌≡◌, ◌+◌, ◌<◌, MatchOption, IfOk, OnOk, length};
ghost use Rattle.alg_model.specs.Lattices.{field_at};
ghost use Rattle.alg_model.specs.Candidates.{IsMember};
ghost use Rattle.alg_model.specs.Filling.{IsMapInto};
ghost use Rattle.lat_fill.specs.PrivateListing.{AreListed};
ghost use Rattle.lat_core.specs.SharedRows.{IsBetween};

use crate::degrees::is_member;
use ff_embed::{Embedding, StoredEmbedding};
use lat_core::{Lattice, NoMemory};
use lat_world::Member;

// A member's map into field `into`: the stored one, or the stored one into field `from` and then
// `phi`; None exactly for a field that is no member.
fn member_map(
    lattice: &Lattice,
    from: u32,
    into: u32,
    phi: &StoredEmbedding,
    number: u32,
) -> Result<Option<StoredEmbedding>, NoMemory>
    requires source { phi.now.source ≡ field_at lattice.now.rows from }
    requires target { phi.now.target ≡ field_at lattice.now.rows into }
    ensures { IfOk result (λ map. MatchOption map (IsMember lattice.now from into number → ⊥)
        (λ e. IsMapInto lattice.now from into phi.now.images lattice.now.rows number e.images
        × IsBetween lattice.now.rows number into e)) }
{
    if let Some(map) = lattice.map(number, into) {
        return Ok(Some(map.copy()?));
    }
    match lattice.map(number, from) {
        None => Ok(None),
        Some(map) => { Ok(Some(map.compose(lattice.allocator(), phi)?)) }
    }
}

// Lists field `number`, if it is a member, behind the members below it.
#[inline(never)]
fn list_member(
    lattice: &Lattice,
    from: u32,
    into: u32,
    phi: &StoredEmbedding,
    number: u32,
    members: &mut Vec<Member>,
) -> Result<(), NoMemory>
    requires source { phi.now.source ≡ field_at lattice.now.rows from }
    requires target { phi.now.target ≡ field_at lattice.now.rows into }
    requires within { number < length lattice.now.rows }
    requires listed { AreListed lattice.now from into phi.now.images lattice.now.rows number
        members.old.items }
    ensures { OnOk result (AreListed lattice.now from into phi.now.images lattice.now.rows
        (number + 1) members.new.items) }
{
    if let Some(map) = member_map(lattice, from, into, phi, number)? {
        members.push(Member { number, map })?;
    }
    Ok(())
}

// The members, in the order of their numbers, where the embedding is stored.
fn members_by(
    lattice: &Lattice,
    from: u32,
    into: u32,
    phi: &StoredEmbedding,
) -> Result<Vec<Member>, NoMemory>
    requires source { phi.now.source ≡ field_at lattice.now.rows from }
    requires target { phi.now.target ≡ field_at lattice.now.rows into }
    ensures { IfOk result (λ members. AreListed lattice.now from into phi.now.images
        lattice.now.rows (length lattice.now.rows) members.items) }
{
    let mut members = Vec::new(lattice.allocator());
    for number in 0..lattice.fields() {
        if is_member(lattice, from, into, number) {
            list_member(lattice, from, into, phi, number, &mut members)?;
        }
    }
    Ok(members)
}

// The members, in the order of their numbers.
pub(crate) fn members(
    lattice: &Lattice,
    from: u32,
    into: u32,
    phi: &Embedding,
) -> Result<Vec<Member>, NoMemory>
    requires source { phi.now.source ≡ field_at lattice.now.rows from }
    requires target { phi.now.target ≡ field_at lattice.now.rows into }
    ensures { IfOk result (λ members. AreListed lattice.now from into phi.now.images
        lattice.now.rows (length lattice.now.rows) members.items) }
{
    let stored = StoredEmbedding::of(lattice.allocator(), phi)?;
    members_by(lattice, from, into, &stored)
}
