//! The operands of commands.

ghost use Rattle.std.specs.Prelude.{◌≡◌, ◌≢◌, ℕ, ◌<◌, ◌^◌, decimal, MatchOption};
ghost use Rattle.alg_model.specs.Lattices.{made_name};
ghost use Rattle.lat_core.specs.declared.TheConstants.{MAX_FIELDS};
ghost use Rattle.lat_core.specs.Names.{IsMadeName};
ghost use Rattle.lat_language.specs.PrivateReading.{name_of, field_of, number_of, digits_of, op_of, fixed_of};

use crate::commands::Op;
use crate::digits::read_digits;
use crate::numbers::read_number;
use lat_core::{Digits, FieldName};

// The declared name that the word is; None exactly where it is none.
pub(crate) fn name(word: &[u8]) -> Option<FieldName>
    ensures { result ≡ name_of word.now }
{
    FieldName::declared_bytes(word)
}

// The name of the added field whose number the digits are; None exactly where they are none.
fn added_name(digits: &[u8]) -> Option<FieldName>
    ensures { MatchOption result ((n : ℕ) → n < MAX_FIELDS → digits.now ≢ decimal n)
        (λ name. (n : ℕ) × (n < MAX_FIELDS) × (digits.now ≡ decimal n) × (name ≡ made_name n)) }
{
    match read_number(digits, 199) {
        None => None,
        Some(number) => Some(FieldName::made(number as u32)),
    }
}

// The name of an added field that the word is; None exactly where it is none.
fn made_word(word: &[u8]) -> Option<FieldName>
    ensures { MatchOption result (¬ (IsMadeName word.now))
        (λ name. (word.now ≡ name) × IsMadeName name) }
{
    match word.split_first() {
        None => None,
        Some((first, digits)) => {
            if *first == b'_' {
                added_name(digits)
            } else {
                None
            }
        }
    }
}

// The name of a field that the word is; None exactly where it is none.
pub(crate) fn field_word(word: &[u8]) -> Option<FieldName>
    ensures { result ≡ field_of word.now }
{
    match FieldName::declared_bytes(word) {
        Some(name) => Some(name),
        None => made_word(word),
    }
}

// The number of 32 bits that the word is in decimal; None exactly where it is none.
pub(crate) fn characteristic(word: &[u8]) -> Option<u32>
    ensures { result ≡ number_of (2 ^ 32) word.now }
{
    match read_number(word, 4_294_967_295) {
        None => None,
        Some(number) => Some(number as u32),
    }
}

// The number of 64 bits that the word is in decimal; None exactly where it is none.
pub(crate) fn exponent(word: &[u8]) -> Option<u64>
    ensures { result ≡ number_of (2 ^ 64) word.now }
{
    read_number(word, 18_446_744_073_709_551_615)
}

// The coefficient list that the word is; None exactly where it is none.
pub(crate) fn digits(word: &[u8]) -> Option<Digits>
    ensures { result ≡ digits_of word.now }
{
    read_digits(word)
}

// The operation that the word names; None exactly where it names none.
pub(crate) fn operation(word: &[u8]) -> Option<Op>
    ensures { result ≡ op_of word.now }
{
    if word == b"first".as_slice() {
        Some(Op::First)
    } else if word == b"second".as_slice() {
        Some(Op::Second)
    } else if word == b"third".as_slice() {
        Some(Op::Third)
    } else {
        None
    }
}

// Whether the word is this one.
pub(crate) fn fixed(word: &[u8], text: &[u8]) -> Option<()>
    ensures { result ≡ fixed_of text.now word.now }
{
    if word == text { Some(()) } else { None }
}
