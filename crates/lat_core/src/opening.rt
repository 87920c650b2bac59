//! The fields and the maps of an opening lattice.

ghost use Rattle.std.specs.Prelude.{◌≡◌, ◌≤◌, length, map, IfOk};
ghost use Rattle.alg_model.specs.Coefficients.{IsCharacteristic};
ghost use Rattle.alg_model.specs.Lattices.{prime_row};
ghost use Rattle.lat_core.specs.declared.TheConstants.{MAX_FIELDS};
ghost use Rattle.lat_core.specs.Editions.{edition_of};
ghost use Rattle.lat_core.specs.PrivateOpening.{identity_row, identities_from};

use crate::editions::Edition;
use crate::memory::NoMemory;
use crate::names::FieldName;
use crate::rows::{FieldRow, MapRow};
use ff_embed::Embedding;
use ff_field::Field;
use ff_poly::{Poly, Prime};
use std::alloc::Global;

// The field of p elements, with its name.
fn prime_field(p: Prime) -> FieldRow
    ensures { result ≡ prime_row p }
{
    let _number = p.number();
    FieldRow {
        name: FieldName::of_prime(p),
        field: Field::new(Poly::trimmed(p, &[0, 1])),
    }
}

// The prime fields of an edition.
pub(crate) fn prime_fields(alloc: Global, edition: Edition) -> Result<Vec<FieldRow>, NoMemory>
    ensures { IfOk result (λ fields. fields.items ≡ map prime_row (edition_of edition).primes) }
{
    let mut fields = Vec::new(alloc);
    for p in edition.characteristics() {
        fields.push(prime_field(Prime::of(*p).unwrap()))?;
    }
    Ok(fields)
}

// The identity of the field of this number.
fn identity_of(number: u32, row: &FieldRow) -> MapRow
    ensures { result ≡ identity_row number row.now }
{
    MapRow {
        from: number,
        into: number,
        map: Embedding::identity(&row.field),
    }
}

// The identities of all fields.
pub(crate) fn identities(alloc: Global, fields: &[FieldRow]) -> Result<Vec<MapRow>, NoMemory>
    requires { length fields.now ≤ MAX_FIELDS }
    ensures { IfOk result (λ maps. maps.items ≡ identities_from 0 fields.now) }
{
    let mut maps = Vec::new(alloc);
    for (number, row) in fields.iter().enumerate() {
        maps.push(identity_of(number as u32, row))?;
    }
    Ok(maps)
}
