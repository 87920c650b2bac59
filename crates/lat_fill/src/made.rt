//! The fields that are added, and their maps into the target.
ghost use Rattle.std.specs.Prelude.{◌≡◌, ℕ, ◌+◌, ◌<◌, ◌≤◌, ◌++◌, List, All, IfOk, OnOk, length};
ghost use Prim.Native.Nat.{◌∣◌};
ghost use Rattle.alg_model.specs.Maps.{Field, degree_of};
ghost use Rattle.alg_model.specs.Lattices.{field_at};
ghost use Rattle.alg_model.specs.Filling.{IsMadeRow};
ghost use Rattle.lat_core.specs.declared.TheConstants.{MAX_FIELDS};
ghost use Rattle.lat_fill.specs.PrivateListing.{IsSmallDegree, AreListed, AreMade, GoInto};
ghost use Rattle.lat_fill.specs.PrivateMaking.{IsMadeMap};

use ff_embed::{Embedding, StoredEmbedding};
use ff_factor::least_irreducible;
use ff_field::Field;
use ff_poly::Prime;
use ff_roots::conjugate_roots;
use lat_core::{FieldName, FieldRow, Lattice, NoMemory};
use lat_world::Member;

// The field of this characteristic and degree that is added with this number.
fn made_field(number: u32, p: Prime, degree: u32) -> FieldRow
    requires number { number < MAX_FIELDS }
    requires degree { IsSmallDegree degree }
    ensures { IsMadeRow number p degree result }
{
    FieldRow {
        name: FieldName::made(number),
        field: Field::new(least_irreducible(p, degree)),
    }
}

// The field of a row.
fn field_in(row: &FieldRow) -> &Field
    ensures { result.now ≡ row.now.field }
{
    &row.field
}

// The field of this number.
fn field_of(lattice: &Lattice, number: u32) -> &Field
    requires { number < length lattice.now.rows }
    ensures { result.now ≡ field_at lattice.now.rows number }
{
    field_in(lattice.field(number))
}

// A field of each degree, of the characteristic of field `into`.
pub(crate) fn made_fields(
    lattice: &Lattice,
    into: u32,
    degrees: &[u32],
) -> Result<Vec<FieldRow>, NoMemory>
    requires target { into < length lattice.now.rows }
    requires room { length lattice.now.rows + length degrees.now ≤ MAX_FIELDS }
    requires degrees { All IsSmallDegree degrees.now }
    ensures { IfOk result (λ fields. AreMade lattice.now into degrees.now fields.items) }
{
    let p = field_of(lattice, into).prime();
    let first = lattice.fields();
    let mut fields = Vec::new(lattice.allocator());
    for (place, degree) in degrees.iter().enumerate() {
        fields.push(made_field(first + place as u32, p, *degree))?;
    }
    Ok(fields)
}

// The map of an added field by the least root of its polynomial.
fn made_map(field: &Field, target: &Field) -> Embedding
    requires characteristic { field.now.characteristic ≡ target.now.characteristic }
    requires divides { degree_of field.now ∣ degree_of target.now }
    ensures { IsMadeMap field.now target.now result }
{
    let _prime = target.prime();
    let roots = conjugate_roots(target, field.poly());
    match Embedding::of_root(field, target, &roots.items()[0]) {
        Some(map) => map,
        None => unreachable!(),
    }
}

// Lists the added fields behind the members.
pub(crate) fn list_made(
    lattice: &Lattice,
    into: u32,
    fields: &[FieldRow],
    members: &mut Vec<Member>,
) -> Result<(), NoMemory>
    requires target { into < length lattice.now.rows }
    requires room { length lattice.now.rows + length fields.now ≤ MAX_FIELDS }
    requires into { GoInto lattice.now into fields.now }
    ensures { (E : ℕ) (phi : List (List ℕ)) → AreListed lattice.now E into phi
        (lattice.now.rows ++ fields.now) (length lattice.now.rows) members.old.items
        → OnOk result (AreListed lattice.now E into phi (lattice.now.rows ++ fields.now)
        (length (lattice.now.rows ++ fields.now)) members.new.items) }
{
    let (first, target) = (lattice.fields(), field_of(lattice, into));
    for (place, row) in fields.iter().enumerate() {
        let made = made_map(field_in(row), target);
        let map = StoredEmbedding::of(lattice.allocator(), &made)?;
        members.push(Member {
            number: first + place as u32,
            map,
        })?;
    }
    Ok(())
}
