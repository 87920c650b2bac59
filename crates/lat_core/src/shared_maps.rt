//! Maps of a lattice that lattices share.

ghost use Rattle.std.specs.Prelude.{◌≡◌, IfOk};

use crate::memory::NoMemory;
use crate::rows::MapRow;
use ff_embed::{Embedding, StoredEmbedding};
use std::alloc::Global;
use std::marker::Model;
use std::sync::Arc;

/// A map of a lattice, whose embedding is shared: the numbers of its fields, and the embedding.
/// Contracts see it as the `MapRow` of the same numbers and embedding.
#[derive(Drop)]
pub struct SharedMap {
    pub from: u32,
    pub into: u32,
    pub map: Arc<StoredEmbedding>,
}

impl Model for SharedMap {
    ghost use Rattle.lat_core.specs.declared.rows.MapRow.{MapRow};

    ghost Value = { MapRow };

    ghost view = { λ row. record { from = row.from; into = row.into; map = row.map.value } };
}

impl SharedMap {
    /// The embedding of the field of one number in that of another one, to be shared.
    pub fn new(alloc: Global, from: u32, into: u32, map: &Embedding) -> Result<SharedMap, NoMemory>
        ensures { IfOk result (λ row. row ≡ record { from = from; into = into; map = map.now }) }
    {
        let stored = StoredEmbedding::of(alloc, map)?;
        SharedMap::of_stored(alloc, from, into, stored)
    }

    /// The same of an embedding that is stored already.
    pub fn of_stored(
        alloc: Global,
        from: u32,
        into: u32,
        map: StoredEmbedding,
    ) -> Result<SharedMap, NoMemory>
        ensures { IfOk result (λ row. row ≡ record { from = from; into = into; map = map }) }
    {
        Ok(SharedMap {
            from,
            into,
            map: Arc::new(alloc, map)?,
        })
    }

    // The same map, to be shared.
    fn of_row(alloc: Global, row: &MapRow) -> Result<SharedMap, NoMemory>
        ensures { IfOk result (λ shared. shared ≡ row.now) }
    {
        SharedMap::new(alloc, row.from, row.into, &row.map)
    }
}

// The same maps, to be shared.
pub(crate) fn shared(alloc: Global, maps: &[MapRow]) -> Result<Vec<SharedMap>, NoMemory>
    ensures { IfOk result (λ list. list.items ≡ maps.now) }
{
    let mut list = Vec::new(alloc);
    for row in maps {
        list.push(SharedMap::of_row(alloc, row)?)?;
    }
    Ok(list)
}
