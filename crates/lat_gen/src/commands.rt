//! The commands of generated scripts.

ghost use Rattle.std.specs.Prelude.{◌≡◌, ◌<◌};
ghost use Rattle.lat_core.specs.Names.{IsDeclaredName};
ghost use Rattle.lat_gen.specs.Generated.{table_entry, field_name, declaration, embedding};

use arrayvec::ArrayVec;
use itoa::Buffer;
use lat_core::{Digits, FieldName, MAX_NAME};
use lat_language::Command;

// How many polynomials the table has.
pub(crate) const POLYNOMIALS: u32 = 8;

// The characteristic and the polynomial of this number.
fn polynomial(number: u32) -> (u32, &'static [u8])
    requires { number < POLYNOMIALS }
    ensures p { result.0 ≡ (table_entry number).0 }
    ensures poly { result.1.now ≡ (table_entry number).1 }
{
    match number {
        0 => (2, &[1, 1, 1]),
        1 => (2, &[1, 1, 0, 1]),
        2 => (2, &[1, 1, 0, 0, 1]),
        3 => (2, &[1, 0, 0, 1, 1]),
        4 => (2, &[1, 0, 0, 1, 0, 0, 1]),
        5 => (2, &[1, 0, 0, 1, 0, 0, 0, 0, 0, 0, 0, 0, 1]),
        6 => (3, &[1, 0, 1]),
        _ => (3, &[2, 1, 1]),
    }
}

// The bytes as a name, which they are.
pub(crate) fn name(text: &[u8]) -> FieldName
    requires { IsDeclaredName text.now }
    ensures { result ≡ text.now }
{
    match FieldName::declared_bytes(text) {
        Some(name) => name,
        None => unreachable!(),
    }
}

// The name of the field with this number.
#[tactic(auto, using(crate::proofs::FieldNames::number_fits, crate::proofs::FieldNames::field_named))]
fn name_of_field(number: u32) -> FieldName
    ensures { result ≡ field_name number }
{
    let mut buffer = Buffer::new();
    let mut bytes: ArrayVec<u8, MAX_NAME> = ArrayVec::new();
    bytes.push(b'G');
    match bytes.try_extend_from_slice(buffer.format(number).as_bytes()) {
        Ok(()) => name(bytes.as_slice()),
        Err(_) => unreachable!(),
    }
}

// The command that declares the field with this number, with the polynomial of this number.
#[tactic(auto, unfolding(crate::specs::Generated::declaration))]
pub(crate) fn declare(field: u32, number: u32) -> Command
    requires { number < POLYNOMIALS }
    ensures { result ≡ declaration field number }
{
    let (p, poly) = polynomial(number);
    match Digits::of(poly) {
        Some(poly) => Command::Field {
            name: name_of_field(field),
            p,
            poly,
        },
        None => unreachable!(),
    }
}

// The command that embeds one of the fields into another.
#[tactic(auto, unfolding(crate::specs::Generated::embedding))]
pub(crate) fn embed(from: u32, into: u32) -> Command
    ensures { result ≡ embedding from into }
{
    Command::Embed {
        from: name_of_field(from),
        into: name_of_field(into),
    }
}
