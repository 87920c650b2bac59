//! Compatible lattices of finite fields.

ghost use Rattle.std.specs.Prelude.{◌≡◌, ℕ, ◌+◌, ◌<◌, ◌≤◌, ◌++◌, length, map, slice_index_or, All, Some, None, MatchOption, IfOk, OnOk};
ghost use Rattle.std.specs.Bool.{OnFalse};
ghost use Rattle.std.specs.List.{sum_by};
ghost use Rattle.std.specs.FinMap.{get, len};
ghost use Rattle.alg_model.specs.Lattices.{no_row, field_at, Stored, IsCompatible};
ghost use Rattle.alg_model.specs.Declaring.{IsOpening};
ghost use Rattle.lat_core.specs.Editions.{edition_of};
ghost use Rattle.lat_core.specs.SharedRows.{RowMaps, IsBetween, IsRowOf, map_count, with_rows, no_rows, AreBetween};
ghost use Rattle.lat_core.specs.PrivateLattices.{row_with, rows_with, new_row};
ghost use Rattle.lat_core.specs.declared.TheConstants.{MAX_FIELDS};
ghost use Rattle.lat_core.specs.Step.{IsNamed, IsFreeName};

use crate::editions::Edition;
use crate::memory::NoMemory;
use crate::names::FieldName;
use crate::opening::{identities, prime_fields};
use crate::rows::{FieldRow, MapRow};
use crate::shared_maps::{SharedMap, shared};
use crate::shared_rows::SharedRow;
use ff_embed::StoredEmbedding;
use std::alloc::Global;
use std::marker::Model;
use std::sync::Arc;

/// A compatible lattice of finite fields of an edition: fields by number, and at most one embedding
/// for each pair of numbers.
#[derive(Drop)]
pub struct Lattice {
    edition: Edition,
    rows: Arc<Vec<Arc<SharedRow>>>,
}

impl Model for Lattice {
    ghost use Rattle.std.specs.Prelude.{map};
    ghost use Rattle.alg_model.specs.Lattices as lattices;
    ghost use Rattle.lat_core.specs.Editions.{edition_of};
    ghost use Rattle.lat_core.specs.PrivateLattices.{lattice_code, lattice_of, AreKept};

    ghost Value = { lattices.Lattice };

    ghost coded = { lattice_code };

    ghost view = { λ a. lattice_of (edition_of a.edition) (map (λ r. r.value) a.rows.value.items) };

    ghost invariant = { λ a. AreKept (edition_of a.edition) (map (λ r. r.value) a.rows.value.items) };
}

impl Lattice {
    /// The opening lattice of an edition: its prime fields, and their identities.
    pub fn open(alloc: Global, edition: Edition) -> Result<Lattice, NoMemory>
        ensures edition { IfOk result (λ lattice. lattice.edition ≡ edition_of edition) }
        ensures opening { IfOk result IsOpening }
    {
        let fields = prime_fields(alloc, edition)?;
        let maps = identities(alloc, fields.as_slice())?;
        let shared_maps = shared(alloc, maps.as_slice())?;
        Lattice::of_rows(alloc, edition, fields, shared_maps)
    }

    /// The edition.
    pub fn edition(&self) -> Edition
        ensures value { edition_of result ≡ self.now.edition }
        ensures whole { IsCompatible self.now }
    {
        self.edition
    }

    /// What its rows are allocated by.
    pub fn allocator(&self) -> Global
        ensures { IsCompatible self.now }
    {
        let _edition = self.edition();
        let rows: &Vec<Arc<SharedRow>> = &self.rows;
        *rows.allocator()
    }

    /// How many fields there are.
    pub fn fields(&self) -> u32
        ensures value { result ≡ length self.now.rows }
        ensures whole { IsCompatible self.now }
    {
        let rows: &Vec<Arc<SharedRow>> = &self.rows;
        rows.len() as u32
    }

    /// The row of a field, whose number is below the count.
    pub fn row(&self, number: u32) -> &Arc<SharedRow>
        requires { number < length self.now.rows }
        ensures { IsRowOf self.now number result.now.value }
    {
        let rows: &Vec<Arc<SharedRow>> = &self.rows;
        &rows[number as usize]
    }

    /// A field and its name; the number is below the count.
    pub fn field(&self, number: u32) -> &FieldRow
        requires { number < length self.now.rows }
        ensures value { result.now ≡ slice_index_or self.now.rows number no_row }
        ensures whole { IsCompatible self.now }
    {
        let _edition = self.edition();
        let row: &SharedRow = self.row(number);
        row.field()
    }

    /// The number of the field with this name; None exactly where no field has it.
    pub fn field_named(&self, name: &FieldName) -> Option<u32>
        ensures { MatchOption result (IsFreeName self.now name.now)
            (λ n. IsNamed self.now n name.now) }
    {
        for number in 0..self.fields() {
            let row = self.field(number);
            if row.name.equals(name) {
                return Some(number);
            }
        }
        None
    }

    /// The map from one field to another; None exactly where none is stored for the pair.
    pub fn map(&self, i: u32, j: u32) -> Option<&StoredEmbedding>
        ensures { MatchOption result (get self.now.maps (i, j) ≡ None)
            (λ e. Stored self.now i j e.now.images × IsBetween self.now.rows i j e.now) }
    {
        if i >= self.fields() {
            return None;
        }
        let row: &SharedRow = self.row(i);
        match row.map_into(j) {
            None => None,
            Some(map) => Some(map),
        }
    }

    /// How many maps there are.
    pub fn maps(&self) -> u32
        ensures { result ≡ map_count self.now }
    {
        let rows: &Vec<Arc<SharedRow>> = &self.rows;
        count_maps(rows.as_slice())
    }

    /// The lattice of the edition with these fields and maps. They are compatible, and each map
    /// goes between the fields of its numbers; of maps for one pair the last one counts. The maps
    /// are shared, and not copied.
    pub fn of_rows(
        alloc: Global,
        edition: Edition,
        fields: Vec<FieldRow>,
        maps: Vec<SharedMap>,
    ) -> Result<Lattice, NoMemory>
        requires compatible { IsCompatible
            (with_rows (no_rows (edition_of edition)) fields.items maps.items) }
        requires between { AreBetween fields.items maps.items }
        ensures { IfOk result (λ lattice. lattice
            ≡ with_rows (no_rows (edition_of edition)) fields.items maps.items) }
    {
        let none = Vec::new(alloc);
        let rows = grown_rows(alloc, none.as_slice(), fields.as_slice(), maps.as_slice())?;
        Ok(Lattice {
            edition,
            rows: Arc::new(alloc, rows)?,
        })
    }

    /// This lattice with these fields after its own, and these maps put in. They are compatible,
    /// and each map goes between the fields of its numbers. Rows that get no map are shared.
    pub fn grown(&self, fields: &[FieldRow], maps: &[MapRow]) -> Result<Lattice, NoMemory>
        requires compatible { IsCompatible (with_rows self.now fields.now maps.now) }
        requires between { AreBetween (self.now.rows ++ fields.now) maps.now }
        ensures { IfOk result (λ lattice. lattice ≡ with_rows self.now fields.now maps.now) }
    {
        let maps = shared(self.allocator(), maps)?;
        self.grown_sharing(fields, maps.as_slice())
    }

    /// The same with maps that are shared, and not copied.
    pub fn grown_sharing(
        &self,
        fields: &[FieldRow],
        maps: &[SharedMap],
    ) -> Result<Lattice, NoMemory>
        requires compatible { IsCompatible (with_rows self.now fields.now maps.now) }
        requires between { AreBetween (self.now.rows ++ fields.now) maps.now }
        ensures { IfOk result (λ lattice. lattice ≡ with_rows self.now fields.now maps.now) }
    {
        let alloc = self.allocator();
        let old: &Vec<Arc<SharedRow>> = &self.rows;
        let rows = grown_rows(alloc, old.as_slice(), fields, maps)?;
        Ok(Lattice {
            edition: self.edition,
            rows: Arc::new(alloc, rows)?,
        })
    }

    /// An equal lattice, which shares the list of the rows of this one.
    pub fn copy(&self) -> Result<Lattice, NoMemory>
        ensures { IfOk result (λ lattice. lattice ≡ self.now) }
    {
        Ok(Lattice {
            edition: self.edition,
            rows: Arc::try_clone(&self.rows)?,
        })
    }
}

// How many maps start at these rows, at each of them at most as many as there are fields.
fn count_maps(rows: &[Arc<SharedRow>]) -> u32
    requires rows { length rows.now ≤ MAX_FIELDS }
    requires maps { All (λ r. len r.value.maps ≤ MAX_FIELDS) rows.now }
    ensures { result ≡ sum_by (λ r. len r.value.maps) rows.now }
{
    let mut count = 0;
    for row in rows {
        let row: &SharedRow = row;
        count += row.count() as u32;
    }
    count
}

// Whether one of the maps begins at the field of this number.
fn begins(number: u32, maps: &[SharedMap]) -> bool
    ensures { OnFalse result ((r : RowMaps) → row_with number r maps.now ≡ r) }
{
    for map in maps {
        if map.from == number {
            return true;
        }
    }
    false
}

// A row of its own with those of the maps put in that begin there.
#[inline(never)]
fn row_copied(
    alloc: Global,
    number: u32,
    row: &SharedRow,
    maps: &[SharedMap],
) -> Result<Arc<SharedRow>, NoMemory>
    ensures { IfOk result (λ r. r.value ≡ row_with number row.now maps.now) }
{
    let mut grown = row.copy()?;
    grown.put_in(number, maps)?;
    Ok(Arc::new(alloc, grown)?)
}

// A row with those of the maps put in that begin there; where none does, the row is shared.
fn row_grown(
    alloc: Global,
    number: u32,
    row: &Arc<SharedRow>,
    maps: &[SharedMap],
) -> Result<Arc<SharedRow>, NoMemory>
    ensures { IfOk result (λ r. r.value ≡ row_with number row.now.value maps.now) }
{
    if !begins(number, maps) {
        return Ok(Arc::try_clone(row)?);
    }
    let shared: &SharedRow = row;
    row_copied(alloc, number, shared, maps)
}

// A field with those of the maps that begin there.
fn row_made(
    alloc: Global,
    number: u32,
    field: &FieldRow,
    maps: &[SharedMap],
) -> Result<Arc<SharedRow>, NoMemory>
    ensures { IfOk result (λ r. r.value ≡ row_with number (new_row field.now) maps.now) }
{
    let mut row = SharedRow::new(alloc, field.copy())?;
    row.put_in(number, maps)?;
    Ok(Arc::new(alloc, row)?)
}

// The rows with the maps that begin there.
fn old_rows(
    alloc: Global,
    rows: &[Arc<SharedRow>],
    maps: &[SharedMap],
) -> Result<Vec<Arc<SharedRow>>, NoMemory>
    requires { length rows.now ≤ MAX_FIELDS }
    ensures { IfOk result (λ grown. map (λ r. r.value) grown.items
        ≡ rows_with 0 (map (λ r. r.value) rows.now) maps.now) }
{
    let mut grown = Vec::new(alloc);
    for (number, row) in rows.iter().enumerate() {
        grown.push(row_grown(alloc, number as u32, row, maps)?)?;
    }
    Ok(grown)
}

// Adds a row for each field, with the maps that begin there.
fn add_rows(
    alloc: Global,
    grown: &mut Vec<Arc<SharedRow>>,
    fields: &[FieldRow],
    maps: &[SharedMap],
) -> Result<(), NoMemory>
    requires { length grown.old.items + length fields.now ≤ MAX_FIELDS }
    ensures { OnOk result (map (λ r. r.value) grown.new.items ≡ map (λ r. r.value) grown.old.items
        ++ rows_with (length grown.old.items) (map new_row fields.now) maps.now) }
{
    for field in fields {
        let number = grown.len() as u32;
        grown.push(row_made(alloc, number, field, maps)?)?;
    }
    Ok(())
}

// The rows and one for each field, with the maps that begin there.
fn grown_rows(
    alloc: Global,
    rows: &[Arc<SharedRow>],
    fields: &[FieldRow],
    maps: &[SharedMap],
) -> Result<Vec<Arc<SharedRow>>, NoMemory>
    requires { length rows.now + length fields.now ≤ MAX_FIELDS }
    ensures { IfOk result (λ grown. map (λ r. r.value) grown.items
        ≡ rows_with 0 (map (λ r. r.value) rows.now ++ map new_row fields.now) maps.now) }
{
    let mut grown = old_rows(alloc, rows, maps)?;
    add_rows(alloc, &mut grown, fields, maps)?;
    Ok(grown)
}
