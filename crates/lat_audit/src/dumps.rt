//! Writing a lattice as a dump.

ghost use Rattle.std.specs.Prelude.{◌≡◌, ℕ, ◌<◌, ◌++◌, length, slice_index_or, IfOk, OnOk};
ghost use Rattle.std.specs.FinMap.{get};
ghost use Rattle.alg_model.specs.Lattices.{no_row};
ghost use Rattle.lat_core.specs.Editions.{edition_of};
ghost use Rattle.lat_audit.specs.Dumps.{edition_number, header_line, fields_line, field_line, field_lines, maps_line, map_line, map_lines, stored_lines, dump_text};
ghost use Rattle.lat_audit.specs.PrivateDumps.{found_at, maps_from};

use crate::lines::{Word, add_line};
use lat_core::{Edition, FieldRow, Lattice, NoMemory};
use std::alloc::Global;

// The number of an edition.
fn number_of(edition: Edition) -> u32
    ensures { result ≡ edition_number (edition_of edition) }
{
    match edition {
        Edition::One => 1,
        Edition::Two => 2,
    }
}

// Appends the header.
fn add_header(out: &mut Vec<u8>, number: u32) -> Result<(), NoMemory>
    ensures { OnOk result (out.new.items ≡ out.old.items ++ header_line number) }
{
    add_line(out, &[Word::Text(b"lattice-dump"), Word::Number(number)])
}

// Appends the line of how many fields there are.
fn add_field_count(out: &mut Vec<u8>, count: u32) -> Result<(), NoMemory>
    ensures { OnOk result (out.new.items ≡ out.old.items ++ fields_line count) }
{
    add_line(out, &[Word::Text(b"fields"), Word::Number(count)])
}

// Appends the line of how many maps there are.
fn add_map_count(out: &mut Vec<u8>, count: u32) -> Result<(), NoMemory>
    ensures { OnOk result (out.new.items ≡ out.old.items ++ maps_line count) }
{
    add_line(out, &[Word::Text(b"maps"), Word::Number(count)])
}

// Appends the line of a field.
fn add_field(out: &mut Vec<u8>, number: u32, row: &FieldRow) -> Result<(), NoMemory>
    ensures { OnOk result (out.new.items ≡ out.old.items ++ field_line number row.now) }
{
    let poly = row.field.poly();
    add_line(
        out,
        &[
            Word::Text(b"field"),
            Word::Number(number),
            Word::Text(row.name.bytes()),
            Word::Number(u32::from(row.field.prime().number())),
            Word::Numbers(poly.coefficients()),
        ],
    )
}

// Appends the lines of all fields.
fn add_fields(out: &mut Vec<u8>, lattice: &Lattice) -> Result<(), NoMemory>
    ensures { OnOk result (out.new.items ≡ out.old.items ++ field_lines 0 lattice.now.rows) }
{
    for number in 0..lattice.fields() {
        add_field(out, number, lattice.field(number))?;
    }
    Ok(())
}

// Appends the line of a map from one field to another.
fn add_image(out: &mut Vec<u8>, i: u32, j: u32, image: &[u8]) -> Result<(), NoMemory>
    ensures { OnOk result (out.new.items ≡ out.old.items ++ map_line (i, j) image.now) }
{
    add_line(
        out,
        &[
            Word::Text(b"map"),
            Word::Number(i),
            Word::Number(j),
            Word::Numbers(image),
        ],
    )
}

// Appends the line of what is stored for a pair, if anything is.
fn add_pair(out: &mut Vec<u8>, lattice: &Lattice, i: u32, j: u32) -> Result<(), NoMemory>
    ensures { OnOk result (out.new.items ≡ out.old.items
        ++ stored_lines lattice.now.rows (found_at (i, j) (get lattice.now.maps (i, j)))) }
{
    match lattice.map(i, j) {
        None => Ok(()),
        Some(map) => add_image(out, i, j, map.image().digits()),
    }
}

// Appends the lines of the maps from a field.
fn add_maps_from(out: &mut Vec<u8>, lattice: &Lattice, i: u32) -> Result<(), NoMemory>
    ensures { OnOk result (out.new.items ≡ out.old.items
        ++ stored_lines lattice.now.rows (maps_from lattice.now i)) }
{
    for j in 0..lattice.fields() {
        add_pair(out, lattice, i, j)?;
    }
    Ok(())
}

// Appends the lines of all maps.
fn add_maps(out: &mut Vec<u8>, lattice: &Lattice) -> Result<(), NoMemory>
    ensures { OnOk result (out.new.items ≡ out.old.items ++ map_lines lattice.now) }
{
    for i in 0..lattice.fields() {
        add_maps_from(out, lattice, i)?;
    }
    Ok(())
}

/// The dump of a lattice: a header with the number of its edition; how many fields it has, and each
/// field with its number, name, characteristic and polynomial; how many maps it has, and each map
/// with the numbers of its fields and the image of the generator, rising by the first number and
/// then by the second; and `end`. Words are separated by one space, and each line ends with a line
/// feed.
pub fn write_dump(alloc: Global, lattice: &Lattice) -> Result<Vec<u8>, NoMemory>
    ensures { IfOk result (λ dump. dump.items ≡ dump_text lattice.now) }
{
    let mut out = Vec::new(alloc);
    add_header(&mut out, number_of(lattice.edition()))?;
    add_field_count(&mut out, lattice.fields())?;
    add_fields(&mut out, lattice)?;
    add_map_count(&mut out, lattice.maps())?;
    add_maps(&mut out, lattice)?;
    add_line(&mut out, &[Word::Text(b"end")])?;
    Ok(out)
}
