//! The maps of a dump.

ghost use Rattle.std.specs.Prelude.{◌≡◌, ◌<◌, ◌≤◌, length, All, Contains, IfOk, IfSome, MatchOption, MatchResult};
ghost use Rattle.alg_model.specs.Maps.{apply, generator};
ghost use Rattle.alg_model.specs.Lattices.{no_row, field_at};
ghost use Rattle.alg_model.specs.Candidates.{map_sending};
ghost use Rattle.ff_embed.specs.SmallEmbeddings.{IsSmallEmbedding};
ghost use Rattle.lat_core.specs.SharedRows.{IsBetween, AreBetween};
ghost use Rattle.lat_audit.specs.Verdicts.{IsGeneratorImage};
ghost use Rattle.lat_audit.specs.PrivateReadings.{IsRising};
ghost use Rattle.lat_audit.specs.PrivateFaults.{IsImage, MapFault, AreMapsOf};

use crate::contents::Image;
use crate::faults::Fault;
use ff_embed::{Embedding, StoredEmbedding};
use ff_field::Field;
use lat_core::{FieldRow, NoMemory, SharedMap};
use std::alloc::Global;

// The field of this number.
pub(crate) fn field_of(fields: &[FieldRow], number: u32) -> &Field
    requires { number < length fields.now }
    ensures { result.now ≡ field_at fields.now number }
{
    let row = &fields[number as usize];
    &row.field
}

// The embedding that sends the generator of the first field to the image; None exactly where there
// is none.
fn by_root(fields: &[FieldRow], image: &Image) -> Option<Embedding>
    requires { IsImage fields.now image.now }
    ensures { let e = image.now in MatchOption result
        (¬ IsGeneratorImage fields.now e.0.0 e.0.1 e.1)
        (λ map. IsGeneratorImage fields.now e.0.0 e.0.1 e.1
        × IsBetween fields.now e.0.0 e.0.1 map
        × (map.images ≡ map_sending (field_at fields.now e.0.0) (field_at fields.now e.0.1) e.1)) }
{
    let (i, j) = image.pair();
    let from = field_of(fields, i);
    let into = field_of(fields, j);
    if from.prime().number() != into.prime().number() {
        return None;
    }
    Embedding::of_root(from, into, image.value())
}

// The first field with the characteristic and the degree of field i.
fn first_alike(fields: &[FieldRow], i: u32) -> u32
    requires { i < length fields.now }
    ensures { result ≤ i }
{
    let field = field_of(fields, i);
    for l in 0..i {
        let other = field_of(fields, l);
        if other.degree() == field.degree() && other.prime().number() == field.prime().number() {
            return l;
        }
    }
    i
}

// A map from one field to another one in a list, if it is found: where the list is in the order of
// the pairs, that is where it is there, but no clause says so.
fn found<'m>(maps: &'m [SharedMap], from: u32, into: u32) -> Option<&'m SharedMap>
    ensures { IfSome result (λ map. Contains maps.now map.now
        × ((map.now.from ≡ from) × (map.now.into ≡ into))) }
{
    let place = maps.partition_point(|map| (map.from, map.into) < (from, into));
    if place == maps.len() {
        return None;
    }
    let map = &maps[place];
    if map.from == from && map.into == into {
        Some(map)
    } else {
        None
    }
}

// The first map followed by the second one, if that sends the generator to the image.
fn composed(
    alloc: Global,
    first: &SharedMap,
    second: &SharedMap,
    image: &Image,
) -> Result<Option<StoredEmbedding>, NoMemory>
    requires { second.now.map.source ≡ first.now.map.target }
    ensures { IfOk result (λ found. IfSome found (λ map.
        (map.source ≡ first.now.map.source) × (map.target ≡ second.now.map.target)
        × IsSmallEmbedding map × (apply map.target map.images (generator map.source) ≡ image.now.1))) }
{
    let (to, on): (&StoredEmbedding, &StoredEmbedding) = (&first.map, &second.map);
    let _degrees = (to.source_degree(), on.source_degree());
    if on.apply(&to.image()).digits() != image.value().digits() {
        return Ok(None);
    }
    Ok(Some(to.compose(alloc, on)?))
}

// The embedding of field i that sends its generator to the image, if the maps that are there lead to
// it: from i into the first field with its characteristic and degree, and on from there.
fn by_composition(
    alloc: Global,
    fields: &[FieldRow],
    maps: &[SharedMap],
    image: &Image,
) -> Result<Option<StoredEmbedding>, NoMemory>
    requires image { IsImage fields.now image.now }
    requires between { AreBetween fields.now maps.now }
    ensures { let e = image.now in IfOk result (λ found. IfSome found (λ map.
        IsGeneratorImage fields.now e.0.0 e.0.1 e.1
        × IsBetween fields.now e.0.0 e.0.1 map
        × (map.images ≡ map_sending (field_at fields.now e.0.0) (field_at fields.now e.0.1) e.1))) }
{
    let (i, j) = image.pair();
    let l = first_alike(fields, i);
    let Some(first) = found(maps, i, l) else {
        return Ok(None);
    };
    let Some(second) = found(maps, l, j) else {
        return Ok(None);
    };
    composed(alloc, first, second, image)
}

// The embedding that sends the generator of the first field to the image; None exactly where there
// is none. Maps that are there are taken before a root is tested and a matrix undone.
fn embedding(
    alloc: Global,
    fields: &[FieldRow],
    maps: &[SharedMap],
    image: &Image,
) -> Result<Option<StoredEmbedding>, NoMemory>
    requires image { IsImage fields.now image.now }
    requires between { AreBetween fields.now maps.now }
    ensures { let e = image.now in IfOk result (λ found. MatchOption found
        (¬ IsGeneratorImage fields.now e.0.0 e.0.1 e.1)
        (λ map. IsGeneratorImage fields.now e.0.0 e.0.1 e.1
        × IsBetween fields.now e.0.0 e.0.1 map
        × (map.images ≡ map_sending (field_at fields.now e.0.0) (field_at fields.now e.0.1) e.1))) }
{
    if let Some(map) = by_composition(alloc, fields, maps, image)? {
        return Ok(Some(map));
    }
    match by_root(fields, image) {
        None => Ok(None),
        Some(map) => Ok(Some(StoredEmbedding::of(alloc, &map)?)),
    }
}

// The maps of the images, or the numbers of the first one that is none.
pub(crate) fn judge_maps(
    alloc: Global,
    fields: &[FieldRow],
    images: &[Image],
) -> Result<Vec<SharedMap>, Fault>
    requires images { All (IsImage fields.now) images.now }
    requires rising { IsRising images.now }
    ensures { MatchResult result
        (λ maps. AreMapsOf fields.now images.now maps.items)
        (MapFault fields.now images.now) }
{
    let mut maps = Vec::new(alloc);
    for image in images {
        let (from, into) = image.pair();
        let Some(map) = embedding(alloc, fields, maps.as_slice(), image)? else {
            return Err(Fault::Map(from, into));
        };
        maps.push(SharedMap::of_stored(alloc, from, into, map)?)?;
    }
    Ok(maps)
}
