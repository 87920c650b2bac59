//! Fields and maps by their numbers.

ghost use Rattle.std.specs.Prelude.{◌≡◌, ℕ, List, ◌+◌, ◌*◌, ◌<◌, ◌≤◌, length, All, AllPairs, None, MatchOption, IfOk, slice_index_or};
ghost use Rattle.std.specs.FinMap.{get};
ghost use Rattle.alg_model.specs.Maps.{degree_of};
ghost use Rattle.alg_model.specs.Lattices.{field_at, Stored, IsCompatible};
ghost use Rattle.lat_core.specs.declared.TheConstants.{MAX_FIELDS};
ghost use Rattle.lat_core.specs.SharedRows.{IsBetween, AreBetween};
ghost use Rattle.lat_audit.specs.PrivateReadings.{IsBefore};
ghost use Rattle.lat_audit.specs.PrivateTables.{pair_of, HasNoMap, IsMapAt, ArePlaces, lattice_with};

use crate::maps::field_of;
use ff_embed::StoredEmbedding;
use ff_field::Field;
use lat_core::{Edition, FieldRow, Lattice, MAX_FIELDS, NoMemory, SharedMap};
use std::alloc::Global;
use std::marker::Model;

// How many pairs of numbers there are.
const PAIRS: usize = MAX_FIELDS * MAX_FIELDS;

// Fields, and at most one map for each pair of their numbers, with the place of each map in the
// list.
#[derive(Drop)]
pub(crate) struct Table {
    fields: Vec<FieldRow>,
    maps: Vec<SharedMap>,
    places: Vec<Option<u32>>,
}

impl Model for Table {
    ghost use Rattle.alg_model.specs.Lattices as lattices;
    ghost use Rattle.lat_core.specs.PrivateLattices.{lattice_code};
    ghost use Rattle.lat_audit.specs.PrivateTables.{lattice_with, IsTable};

    ghost Value = { lattices.Lattice };

    ghost coded = { lattice_code };

    ghost view = { λ table. lattice_with table.fields.items table.maps.items };

    ghost invariant = { λ table. IsTable table.fields.items table.maps.items table.places.items };
}

// The place of a pair.
fn pair_place(i: u32, j: u32) -> usize
    requires first { i < MAX_FIELDS }
    requires second { j < MAX_FIELDS }
    ensures place { result ≡ MAX_FIELDS * i + j }
    ensures within { result < MAX_FIELDS * MAX_FIELDS }
{
    MAX_FIELDS * i as usize + j as usize
}

// No places.
fn no_places(alloc: Global) -> Result<Vec<Option<u32>>, NoMemory>
    ensures count { IfOk result (λ places. length places.items ≡ MAX_FIELDS * MAX_FIELDS) }
    ensures none { IfOk result (λ places. All (λ place. place ≡ None) places.items) }
{
    let mut places = Vec::new(alloc);
    'places: for _k in 0..PAIRS {
        places.push(None)?;
    }
    Ok(places)
}

// The embedding of a map.
fn stored_map(map: &SharedMap) -> &StoredEmbedding
    ensures { result.now ≡ map.now.map }
{
    &map.map
}

// The place of the map of each pair.
fn places_of(alloc: Global, maps: &[SharedMap]) -> Result<Vec<Option<u32>>, NoMemory>
    requires few { length maps.now ≤ MAX_FIELDS * MAX_FIELDS }
    requires within { All (λ m. (m.from < MAX_FIELDS) × (m.into < MAX_FIELDS)) maps.now }
    ensures count { IfOk result (λ places. length places.items ≡ MAX_FIELDS * MAX_FIELDS) }
    ensures placed { IfOk result (λ places. ArePlaces maps.now places.items) }
{
    let mut places = no_places(alloc)?;
    for (place, map) in maps.iter().enumerate() {
        places[pair_place(map.from, map.into)] = Some(place as u32);
    }
    Ok(places)
}

impl Table {
    // The fields and maps, each pair once and in order.
    pub(crate) fn new(
        alloc: Global,
        fields: Vec<FieldRow>,
        maps: Vec<SharedMap>,
    ) -> Result<Table, NoMemory>
        requires fields { length fields.items ≤ MAX_FIELDS }
        requires maps { length maps.items ≤ MAX_FIELDS * MAX_FIELDS }
        requires within { All (λ m. (m.from < length fields.items)
            × (m.into < length fields.items)) maps.items }
        requires between { AreBetween fields.items maps.items }
        requires rising { AllPairs (λ a b. IsBefore (pair_of a) (pair_of b)) maps.items }
        ensures { IfOk result (λ table. table ≡ lattice_with fields.items maps.items) }
    {
        let places = places_of(alloc, maps.as_slice())?;
        Ok(Table {
            fields,
            maps,
            places,
        })
    }

    // How many fields there are.
    pub(crate) fn count(&self) -> u32
        ensures count { result ≡ length self.now.rows }
        ensures few { result ≤ MAX_FIELDS }
        ensures within { (i j : ℕ) (m : List (List ℕ)) → Stored self.now i j m
            → (i < length self.now.rows) × (j < length self.now.rows) }
    {
        self.fields.len() as u32
    }

    // A field.
    pub(crate) fn field(&self, number: u32) -> &Field
        requires { number < length self.now.rows }
        ensures { result.now ≡ field_at self.now.rows number }
    {
        field_of(self.fields.as_slice(), number)
    }

    // The map from one field to another; None exactly where there is none.
    pub(crate) fn map(&self, i: u32, j: u32) -> Option<&StoredEmbedding>
        requires first { i < length self.now.rows }
        requires second { j < length self.now.rows }
        ensures { MatchOption result (get self.now.maps (i, j) ≡ None)
            (λ e. Stored self.now i j e.now.images × IsBetween self.now.rows i j e.now) }
    {
        match self.places[pair_place(i, j)] {
            None => None,
            Some(place) => Some(stored_map(&self.maps[place as usize])),
        }
    }

    // The degree of a field.
    pub(crate) fn degree(&self, i: u32) -> u32
        requires { i < length self.now.rows }
        ensures { result ≡ degree_of (field_at self.now.rows i) }
    {
        self.field(i).degree()
    }

    // The lattice of the fields and maps, which is compatible.
    pub(crate) fn into_lattice(self, alloc: Global) -> Result<Lattice, NoMemory>
        requires { IsCompatible self }
        ensures { IfOk result (λ lattice. lattice ≡ self) }
    {
        let Table {
            fields,
            maps,
            places: _places,
        } = self;
        Lattice::of_rows(alloc, Edition::One, fields, maps)
    }
}
