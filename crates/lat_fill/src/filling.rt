//! Filling a lattice.
ghost use Rattle.std.specs.Prelude.{◌≡◌, ℕ, ◌+◌, ◌≤◌, List, length, Option, IfOk};
ghost use Rattle.alg_model.specs.Lattices.{field_at};
ghost use Rattle.alg_model.specs.Candidates.{embedding_by, IsCandidate, AreMissing};
ghost use Rattle.alg_model.specs.Filling.{IsFilled};
ghost use Rattle.alg_compatible.specs.Theorems.{AreFields};
ghost use Rattle.lat_core.specs.SharedRows.{map_count};
ghost use Rattle.lat_world.specs.Worlds.{AreMembers};
ghost use Rattle.lat_fill.specs.PrivateWays.{AreAtHome, AreAllWays};

use crate::degrees::missing;
use crate::links::links;
use crate::made::{list_made, made_fields};
use crate::members::members;
use crate::outlets::add_outlets;
use ff_embed::Embedding;
use lat_core::{Lattice, NoMemory, SharedMap};
use lat_world::Member;

/// A filled lattice, and what was added.
#[derive(Drop)]
pub struct Filled {
    /// The lattice.
    pub lattice: Lattice,
    /// How many fields were added.
    pub made: u32,
    /// How many maps were added.
    pub linked: u32,
}

// All maps that are added: those between members, and those out of them.
fn ways(lattice: &Lattice, members: &[Member]) -> Result<Vec<SharedMap>, NoMemory>
    requires members { AreMembers members.now }
    requires home { AreAtHome lattice.now members.now }
    ensures { IfOk result (λ maps. AreAllWays lattice.now members.now maps.items) }
{
    let mut maps = links(lattice, members)?;
    add_outlets(lattice, members, &mut maps)?;
    Ok(maps)
}

/// The lattice with all that the embedding `phi` of field `from` into field `into` adds: a field
/// for each missing degree, lowest first, and all maps that are forced. The embedding is a
/// candidate, and there is room for the fields.
///
/// The fields that go into `into` are listed with their maps into it; between two of them whose
/// degrees divide, the one map that agrees with these is stored, and each of them gets a map into
/// each field that another one of them, into which it goes, has a map into. `NoMemory` is the only
/// fault; no clause says when it comes.
pub fn fill(lattice: &Lattice, from: u32, into: u32, phi: &Embedding) -> Result<Filled, NoMemory>
    requires fields { AreFields lattice.now from into }
    requires candidate { (sending : Option (List ℕ × List ℕ)) × (v : List ℕ)
        × IsCandidate lattice.now from into sending v
        × (phi.now.images ≡ embedding_by lattice.now from into v) }
    requires source { phi.now.source ≡ field_at lattice.now.rows from }
    requires target { phi.now.target ≡ field_at lattice.now.rows into }
    requires room { (degrees : List ℕ) → AreMissing lattice.now from into degrees
        → length lattice.now.rows + length degrees ≤ lattice.now.edition.room }
    ensures filled { IfOk result (λ f. IsFilled lattice.now from into phi.now.images f.lattice) }
    ensures made { IfOk result (λ f. (degrees : List ℕ)
        → AreMissing lattice.now from into degrees → f.made ≡ length degrees) }
    ensures linked { IfOk result (λ f.
        map_count f.lattice ≡ map_count lattice.now + f.linked) }
{
    let _edition = lattice.edition();
    let degrees = missing(lattice, from, into);
    let fields = made_fields(lattice, into, degrees.as_slice())?;
    let mut members = members(lattice, from, into, phi)?;
    list_made(lattice, into, fields.as_slice(), &mut members)?;
    let maps = ways(lattice, members.as_slice())?;
    let grown = lattice.grown_sharing(fields.as_slice(), maps.as_slice())?;
    let linked = grown.maps() - lattice.maps();
    Ok(Filled {
        lattice: grown,
        made: fields.len() as u32,
        linked,
    })
}
