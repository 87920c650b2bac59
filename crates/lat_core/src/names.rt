//! Names of fields.

ghost use Rattle.std.specs.Prelude.{◌≡◌, ◌<◌, IsTrue, ◌↔◌, SomeIff};
ghost use Rattle.alg_model.specs.Lattices.{made_name, prime_row};
ghost use Rattle.lat_core.specs.declared.TheConstants.{MAX_FIELDS};
ghost use Rattle.lat_core.specs.Names.{IsNameByte, IsDeclaredName, IsFieldName};

use crate::MAX_FIELDS;
use arrayvec::ArrayVec;
use ff_lists::fixed;
use ff_poly::Prime;
use itoa::Buffer;
use std::marker::Model;

/// The most bytes of a name.
pub const MAX_NAME: usize = 32;

/// The name of a field, of 1 to 32 bytes: a declared name, which is a letter and then letters,
/// digits or `_`, or a made name, which is `_` and a number below `MAX_FIELDS`. Upper and lower
/// case differ.
#[derive(Drop)]
pub struct FieldName {
    bytes: ArrayVec<u8, MAX_NAME>,
}

impl Model for FieldName {
    ghost use Rattle.std.specs.Prelude.{List, ℕ};

    ghost Value = { List ℕ };

    ghost use Rattle.lat_core.specs.Names.{IsFieldName};

    ghost view = { λ name. name.bytes.items };

    ghost invariant = { λ name. IsFieldName name.bytes.items };
}

// The bytes as a name, which they are.
#[tactic(auto, using(crate::proofs::NameLengths::name_fits))]
fn name_of(text: &[u8]) -> FieldName
    requires { IsFieldName text.now }
    ensures { result ≡ text.now }
{
    FieldName { bytes: fixed(text) }
}

// Whether a byte is a letter, a digit or `_`.
fn is_name_byte(byte: u8) -> bool
    ensures { IsTrue result ↔ IsNameByte byte }
{
    byte.is_ascii_alphanumeric() || byte == b'_'
}

// Whether the text is a declared name.
fn is_declared_name(text: &[u8]) -> bool
    ensures { IsTrue result ↔ IsDeclaredName text.now }
{
    match text.split_first() {
        None => false,
        Some((first, rest)) => {
            first.is_ascii_alphabetic()
                && rest.len() < MAX_NAME
                && rest.iter().all(|byte| is_name_byte(*byte))
        }
    }
}

impl FieldName {
    /// The declared name that the text is; None exactly where it is none. Takes no memory.
    pub fn declared(text: &str) -> Option<FieldName>
        ensures { SomeIff result (IsDeclaredName text.now) text.now }
    {
        FieldName::declared_bytes(text.as_bytes())
    }

    /// The declared name that the bytes are; None exactly where they are none. Takes no memory.
    pub fn declared_bytes(text: &[u8]) -> Option<FieldName>
        ensures { SomeIff result (IsDeclaredName text.now) text.now }
    {
        if is_declared_name(text) {
            Some(name_of(text))
        } else {
            None
        }
    }

    /// The name of an added field: `_` and its number, which is below `MAX_FIELDS`. Takes no
    /// memory.
    #[tactic(auto, using(crate::proofs::NameLengths::made_fits, crate::proofs::NameLengths::made_named))]
    pub fn made(number: u32) -> FieldName
        requires { number < MAX_FIELDS }
        ensures { result ≡ made_name number }
    {
        let mut buffer = Buffer::new();
        let mut bytes = ArrayVec::new();
        bytes.push(b'_');
        match bytes.try_extend_from_slice(buffer.format(number).as_bytes()) {
            Ok(()) => FieldName { bytes },
            Err(_) => unreachable!(),
        }
    }

    // The name of the prime field of this characteristic.
    #[tactic(auto, using(crate::proofs::NameLengths::prime_fits, crate::proofs::NameLengths::prime_named))]
    pub(crate) fn of_prime(p: Prime) -> FieldName
        ensures { result ≡ (prime_row p).name }
    {
        let mut buffer = Buffer::new();
        let mut bytes = ArrayVec::new();
        bytes.push(b'F');
        match bytes.try_extend_from_slice(buffer.format(u32::from(p.number())).as_bytes()) {
            Ok(()) => FieldName { bytes },
            Err(_) => unreachable!(),
        }
    }

    /// The bytes of the name.
    pub fn bytes(&self) -> &[u8]
        ensures value { result.now ≡ self.now }
        ensures whole { IsFieldName self.now }
    {
        self.bytes.as_slice()
    }

    /// An equal name. Takes no memory.
    pub fn copy(&self) -> Self
        ensures { result ≡ self.now }
    {
        name_of(self.bytes())
    }

    /// Whether two names are the same.
    pub fn equals(&self, other: &FieldName) -> bool
        ensures { IsTrue result ↔ (self.now ≡ other.now) }
    {
        self.bytes() == other.bytes()
    }
}
