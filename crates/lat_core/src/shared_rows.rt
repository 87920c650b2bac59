//! A field of a lattice with the maps that start there, which lattices share.

ghost use Rattle.std.specs.Prelude.{◌≡◌, Some, None, MatchOption, IfOk, OnOk};
ghost use Rattle.std.specs.FinMap.{get, empty, insert, len};
ghost use Rattle.lat_core.specs.PrivateLattices.{row_with};

use crate::memory::NoMemory;
use crate::rows::FieldRow;
use crate::shared_maps::SharedMap;
use ff_embed::StoredEmbedding;
use indexmap::IndexMap;
use std::alloc::Global;
use std::marker::Model;
use std::sync::Arc;

/// A named field of a lattice, and the maps that are stored from it, by the numbers of the fields
/// in which they end. Lattices that grow from one another share such rows.
#[derive(Drop)]
pub struct SharedRow {
    row: Arc<FieldRow>,
    maps: IndexMap<u32, Arc<StoredEmbedding>>,
}

impl Model for SharedRow {
    ghost use Rattle.std.specs.Prelude.{map};
    ghost use Rattle.lat_core.specs.SharedRows.{RowMaps};
    ghost use Rattle.lat_core.specs.PrivateLattices.{row_maps_code, maps_of};

    ghost Value = { RowMaps };

    ghost coded = { row_maps_code };

    ghost view = { λ a. record {
      row = a.row.value;
      maps = maps_of (map (λ e. (e.0, e.1.value)) a.maps.entries);
    } };
}

impl SharedRow {
    /// The named field.
    pub fn field(&self) -> &FieldRow
        ensures { result.now ≡ self.now.row }
    {
        let row: &FieldRow = &self.row;
        row
    }

    /// The map into the field of this number; None exactly where there is none.
    pub fn map_into(&self, target: u32) -> Option<&Arc<StoredEmbedding>>
        ensures { MatchOption result (get self.now.maps target ≡ None)
            (λ e. get self.now.maps target ≡ Some e.now.value) }
    {
        self.maps.get(&target)
    }

    // A field from which no map is stored.
    pub(crate) fn new(alloc: Global, row: FieldRow) -> Result<SharedRow, NoMemory>
        ensures { IfOk result (λ new. new ≡ record { row = row; maps = empty }) }
    {
        Ok(SharedRow {
            row: Arc::new(alloc, row)?,
            maps: IndexMap::new(alloc),
        })
    }

    // An equal row with a table of its own, whose field and maps are shared.
    pub(crate) fn copy(&self) -> Result<SharedRow, NoMemory>
        ensures { IfOk result (λ row. row ≡ self.now) }
    {
        Ok(SharedRow {
            row: Arc::try_clone(&self.row)?,
            maps: self.maps.clone()?,
        })
    }

    // How many maps are stored.
    pub(crate) fn count(&self) -> usize
        ensures { result ≡ len self.now.maps }
    {
        self.maps.len()
    }

    // Stores a map into the field of this number.
    fn store(&mut self, target: u32, map: &Arc<StoredEmbedding>) -> Result<(), NoMemory>
        ensures { OnOk result (self.new ≡ record {
          row = self.old.row;
          maps = insert self.old.maps target map.now.value;
        }) }
    {
        let map = Arc::try_clone(map)?;
        self.maps.insert(target, map)?;
        Ok(())
    }

    // Stores those of the maps that begin at the field of this number.
    pub(crate) fn put_in(&mut self, number: u32, maps: &[SharedMap]) -> Result<(), NoMemory>
        ensures { OnOk result (self.new ≡ row_with number self.old maps.now) }
    {
        for row in maps {
            if row.from == number {
                self.store(row.into, &row.map)?;
            }
        }
        Ok(())
    }
}
