//! Reading a dump, line by line.

ghost use Rattle.std.specs.Prelude.{◌≡◌, ◌≢◌, ℕ, ◌+◌, ◌<◌, ◌≤◌, List, [], ◌∷◌, ◌++◌, length, IfErr, MatchResult};
ghost use Rattle.alg_model.specs.Lattices.{first_edition, Row};
ghost use Rattle.lat_core.specs.declared.TheConstants.{MAX_FIELDS};
ghost use Rattle.lat_audit.specs.declared.faults.Fault.TheVariants.{NoMemory as memory_fault};
ghost use Rattle.lat_audit.specs.declared.line_forms.TheConstants.{MAX_MAPS};
ghost use Rattle.lat_audit.specs.Readings.{IsDump, IsNextImage, field_place, map_place, Header, FieldCount, Field, MapCount, Map, End, Behind};
ghost use Rattle.lat_audit.specs.Readings as readings;
ghost use Rattle.lat_audit.specs.PrivateReadings.{IsRising, Continues, Stops};

use crate::contents::{Content, Image, NamedPoly};
use crate::cuts::Lines;
use crate::faults::Fault;
use crate::line_forms::{field_count, image, is_end, is_header, map_count, row};
use std::alloc::Global;

fn read_header(lines: &mut Lines) -> Result<(), Fault>
    ensures reading { MatchResult result
        (λ _. Continues Header 1 lines.old.text.now FieldCount 2 lines.new.text.now)
        (Stops Header 1 lines.old.text.now) }
    ensures some { MatchResult result (λ _. 0 < length lines.old.text.now)
        (λ fault. fault ≢ memory_fault) }
{
    match lines.next() {
        None => Err(Fault::Text(1)),
        Some(line) => {
            if is_header(line) {
                Ok(())
            } else {
                Err(Fault::Text(1))
            }
        }
    }
}

fn read_field_count(lines: &mut Lines) -> Result<u32, Fault>
    ensures { MatchResult result
        (λ n. (length first_edition.primes ≤ n) × (n ≤ first_edition.room)
        × Continues FieldCount 2 lines.old.text.now (field_place n []) 3 lines.new.text.now)
        (Stops FieldCount 2 lines.old.text.now) }
{
    match lines.next() {
        None => Err(Fault::Text(2)),
        Some(line) => match field_count(line) {
            None => Err(Fault::Text(2)),
            Some(count) => Ok(count),
        },
    }
}

// Reads the field behind these, in the line of this number.
fn read_row(lines: &mut Lines, number: u32, rows: &[NamedPoly]) -> Result<NamedPoly, Fault>
    requires { length rows.now < MAX_FIELDS }
    ensures { MatchResult result
        (λ row. (count : ℕ) → Continues (Field count rows.now) number lines.old.text.now
        (field_place count (rows.now ++ row ∷ [])) (number + 1) lines.new.text.now)
        (λ fault. (count : ℕ) → Stops (Field count rows.now) number lines.old.text.now fault) }
{
    match lines.next() {
        None => Err(Fault::Text(number)),
        Some(line) => match row(rows, line) {
            None => Err(Fault::Text(number)),
            Some(row) => Ok(row),
        },
    }
}

// Reads as many fields as there are.
fn read_rows(alloc: Global, lines: &mut Lines, count: u32) -> Result<Vec<NamedPoly>, Fault>
    requires { count ≤ MAX_FIELDS }
    ensures { MatchResult result
        (λ rows. (length rows.items ≡ count) × Continues (field_place count []) 3
        lines.old.text.now (MapCount rows.items) (count + 3) lines.new.text.now)
        (Stops (field_place count []) 3 lines.old.text.now) }
{
    let mut rows = Vec::new(alloc);
    for number in 0..count {
        let row = read_row(lines, number + 3, rows.as_slice())?;
        rows.push(row)?;
    }
    Ok(rows)
}

// Reads how many maps there are, in the line of this number.
fn read_map_count(lines: &mut Lines, number: u32) -> Result<u32, Fault>
    ensures { MatchResult result
        (λ n. (n ≤ MAX_MAPS) × ((rows : List Row) → Continues (MapCount rows) number
        lines.old.text.now (map_place rows n []) (number + 1) lines.new.text.now))
        (λ fault. (rows : List Row) → Stops (MapCount rows) number lines.old.text.now fault) }
{
    match lines.next() {
        None => Err(Fault::Text(number)),
        Some(line) => match map_count(line) {
            None => Err(Fault::Text(number)),
            Some(count) => Ok(count),
        },
    }
}

// Reads the image behind these, in the line of this number.
fn read_image(
    lines: &mut Lines,
    number: u32,
    rows: &[NamedPoly],
    images: &[Image],
) -> Result<Image, Fault>
    requires rows { length rows.now ≤ MAX_FIELDS }
    requires rising { IsRising images.now }
    ensures { MatchResult result
        (λ e. IsNextImage rows.now images.now e
        × ((count : ℕ) → Continues (Map rows.now count images.now) number lines.old.text.now
        (map_place rows.now count (images.now ++ e ∷ [])) (number + 1) lines.new.text.now))
        (λ fault. (count : ℕ)
        → Stops (Map rows.now count images.now) number lines.old.text.now fault) }
{
    match lines.next() {
        None => Err(Fault::Text(number)),
        Some(line) => match image(rows, images, line) {
            None => Err(Fault::Text(number)),
            Some(image) => Ok(image),
        },
    }
}

// Reads as many maps as there are.
fn read_images(
    alloc: Global,
    lines: &mut Lines,
    rows: &[NamedPoly],
    count: u32,
) -> Result<Vec<Image>, Fault>
    requires rows { length rows.now ≤ MAX_FIELDS }
    requires count { count ≤ MAX_MAPS }
    ensures { MatchResult result
        (λ images. (length images.items ≡ count) × Continues (map_place rows.now count [])
        (length rows.now + 4) lines.old.text.now
        (End (record { rows = rows.now; images = images.items })) (length rows.now + count + 4)
        lines.new.text.now)
        (Stops (map_place rows.now count []) (length rows.now + 4) lines.old.text.now) }
{
    let mut images = Vec::new(alloc);
    for number in 0..count {
        let line = rows.len() as u32 + number + 4;
        let image = read_image(lines, line, rows, images.as_slice())?;
        images.push(image)?;
    }
    Ok(images)
}

// Reads the last line, of this number.
fn read_end(lines: &mut Lines, number: u32) -> Result<(), Fault>
    ensures { MatchResult result
        (λ _. (c : readings.Content) → Continues (End c) number lines.old.text.now (Behind c)
        (number + 1) lines.new.text.now)
        (λ fault. (c : readings.Content) → Stops (End c) number lines.old.text.now fault) }
{
    match lines.next() {
        None => Err(Fault::Text(number)),
        Some(line) => {
            if is_end(line) {
                Ok(())
            } else {
                Err(Fault::Text(number))
            }
        }
    }
}

// What a text holds that is a dump, or its first bad line. Memory is taken for what was read
// alone: a line for each field and each map, at most as many as are said.
pub(crate) fn read(alloc: Global, text: &[u8]) -> Result<Content, Fault>
    ensures reading { MatchResult result
        (λ c. IsDump text.now (record { rows = c.rows.items; images = c.images.items }))
        (Stops Header 1 text.now) }
    ensures some { IfErr result (λ fault. fault ≡ memory_fault → 0 < length text.now) }
{
    let mut lines = Lines { text };
    read_header(&mut lines)?;
    let fields = read_field_count(&mut lines)?;
    let rows = read_rows(alloc, &mut lines, fields)?;
    let maps = read_map_count(&mut lines, fields + 3)?;
    let images = read_images(alloc, &mut lines, rows.as_slice(), maps)?;
    read_end(&mut lines, fields + maps + 4)?;
    if !lines.text.is_empty() {
        return Err(Fault::Text(fields + maps + 5));
    }
    Ok(Content { rows, images })
}
