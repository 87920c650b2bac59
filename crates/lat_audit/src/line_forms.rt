//! The forms of the lines of a dump.

ghost use Rattle.std.specs.Prelude.{◌≡◌, ◌≢◌, ℕ, ◌+◌, ◌<◌, ◌≤◌, List, [], ◌∷◌, ◌++◌, length, All, AllPairs, Contains, IsTrue, ◌↔◌, decimal, MatchOption, slice_index, slice_index_or};
ghost use Rattle.alg_model.specs.Maps.{field_values};
ghost use Rattle.alg_model.specs.Lattices.{first_edition, no_row, made_name, prime_row, Row, field_at};
ghost use Rattle.lat_core.specs.declared.TheConstants.{MAX_FIELDS};
ghost use Rattle.lat_core.specs.Names.{IsDeclaredName};
ghost use Rattle.lat_language.specs.CanonicalText.{line_of};
ghost use Rattle.lat_language.specs.Commands.{digits_text};
ghost use Rattle.lat_audit.specs.Dumps.{header_line, fields_line, field_line, maps_line, map_line, end_line};
ghost use Rattle.lat_audit.specs.Readings.{IsNewName, IsNewRow, IsNextRow, IsNextImage};
ghost use Rattle.lat_audit.specs.Readings as readings;
ghost use Rattle.lat_audit.specs.PrivateReadings.{Lacks, ended, AreFieldWords, AreMapWords, IsFieldPoly, AreCoefficients, IsBefore, IsRising};

use crate::contents::{Image, NamedPoly};
use crate::cuts::cut;
use ff_field::Value;
use ff_poly::{Poly, Prime};
use lat_core::{Edition, FieldName, MAX_FIELDS};
use lat_language::{read_digits, read_number};

/// The most maps of a dump: one for each pair of fields.
pub const MAX_MAPS: usize = 40_000;

// What stands behind this word and a space; None exactly where the text doesn't begin so.
fn after_word<'a>(text: &'a [u8], word: &[u8]) -> Option<&'a [u8]>
    requires { Lacks 32 word.now }
    ensures { MatchOption result ((rest : List ℕ) → text.now ≢ word.now ++ 32 ∷ rest)
        (λ rest. text.now ≡ word.now ++ 32 ∷ rest.now) }
{
    match cut(text, b' ') {
        None => None,
        Some((first, rest)) => { if first == word { Some(rest) } else { None } }
    }
}

// Whether the line is this text.
fn is_text(line: &[u8], text: &[u8]) -> bool
    ensures { IsTrue result ↔ (line.now ≡ text.now) }
{
    line == text
}

// Whether the line is the header of a dump of the first edition.
pub(crate) fn is_header(line: &[u8]) -> bool
    ensures { IsTrue result ↔ (ended line.now ≡ header_line 1) }
{
    is_text(line, b"lattice-dump 1")
}

// Whether the line is the last one of a dump.
pub(crate) fn is_end(line: &[u8]) -> bool
    ensures { IsTrue result ↔ (ended line.now ≡ end_line) }
{
    is_text(line, b"end")
}

// The number behind this word, up to a bound; None exactly where the line isn't of these two words.
fn counted(line: &[u8], word: &[u8], bound: u32) -> Option<u32>
    requires { Lacks 32 word.now }
    ensures { MatchOption result
        ((n : ℕ) → n ≤ bound → ended line.now ≢ line_of (word.now ∷ decimal n ∷ []))
        (λ n. (n ≤ bound) × (ended line.now ≡ line_of (word.now ∷ decimal n ∷ []))) }
{
    match after_word(line, word) {
        None => None,
        Some(digits) => match read_number(digits, u64::from(bound)) {
            None => None,
            Some(number) => Some(number as u32),
        },
    }
}

// How many fields there are, as a line says; None exactly where it says no number in range.
pub(crate) fn field_count(line: &[u8]) -> Option<u32>
    ensures { let e = first_edition in MatchOption result
        ((n : ℕ) → length e.primes ≤ n → n ≤ e.room → ended line.now ≢ fields_line n)
        (λ n. (length e.primes ≤ n) × (n ≤ e.room) × (ended line.now ≡ fields_line n)) }
{
    match counted(line, b"fields", MAX_FIELDS as u32) {
        None => None,
        Some(count) => {
            if count < Edition::One.primes() {
                None
            } else {
                Some(count)
            }
        }
    }
}

// How many maps there are, as a line says; None exactly where it says no number in range.
pub(crate) fn map_count(line: &[u8]) -> Option<u32>
    ensures { MatchOption result ((n : ℕ) → n ≤ MAX_MAPS → ended line.now ≢ maps_line n)
        (λ n. (n ≤ MAX_MAPS) × (ended line.now ≡ maps_line n)) }
{
    counted(line, b"maps", MAX_MAPS as u32)
}

// Whether the word is this number in decimal.
fn is_number(word: &[u8], number: u32) -> bool
    ensures { IsTrue result ↔ (word.now ≡ decimal number) }
{
    match read_number(word, u64::from(number)) {
        None => false,
        Some(read) => read == u64::from(number),
    }
}

// The number below a bound that the word is in decimal; None exactly where it is none.
fn number_below(word: &[u8], bound: u32) -> Option<u32>
    ensures { MatchOption result ((n : ℕ) → n < bound → word.now ≢ decimal n)
        (λ n. (n < bound) × (word.now ≡ decimal n)) }
{
    match read_number(word, u64::from(bound)) {
        None => None,
        Some(number) => {
            if number < u64::from(bound) {
                Some(number as u32)
            } else {
                None
            }
        }
    }
}

// The words of a field's line behind its first one: number, name, characteristic and polynomial.
fn field_words(line: &[u8]) -> Option<(&[u8], &[u8], &[u8], &[u8])>
    ensures { MatchOption result
        ((a b c d : List ℕ) → ¬ AreFieldWords line.now a b c d)
        (λ w. AreFieldWords line.now w.0.now w.1.now w.2.now w.3.now) }
{
    let Some(words) = after_word(line, b"field") else {
        return None;
    };
    let Some((number, behind)) = cut(words, b' ') else {
        return None;
    };
    let Some((name, last)) = cut(behind, b' ') else {
        return None;
    };
    match cut(last, b' ') {
        None => None,
        Some((characteristic, polynomial)) => Some((number, name, characteristic, polynomial)),
    }
}

// The characteristic of the first edition that the word is; None exactly where it is none.
fn characteristic(word: &[u8]) -> Option<Prime>
    ensures { MatchOption result
        ((p : ℕ) → Contains first_edition.primes p → word.now ≢ decimal p)
        (λ p. Contains first_edition.primes p × (word.now ≡ decimal p)) }
{
    match read_number(word, 31) {
        None => None,
        Some(number) => Edition::One.characteristic(number as u32),
    }
}

// Whether each number is below p.
fn are_below(p: Prime, numbers: &[u8]) -> bool
    ensures { IsTrue result ↔ All (λ a. a < p) numbers.now }
{
    let p = p.number();
    numbers.iter().all(|c| *c < p)
}

// Whether the numbers are the coefficients of a monic polynomial of degree 1 to the greatest.
fn are_coefficients(p: Prime, numbers: &[u8]) -> bool
    ensures { IsTrue result ↔ AreCoefficients p numbers.now }
{
    let length = numbers.len();
    if length < 2 || length > Edition::One.top() as usize + 1 {
        return false;
    }
    if numbers[length - 1] != 1 {
        return false;
    }
    are_below(p, numbers)
}

// The monic polynomial, of degree 1 to the greatest of the first edition, that the words are; None
// exactly where they are none.
fn polynomial(characteristic_word: &[u8], coefficients: &[u8]) -> Option<Poly>
    ensures { MatchOption result
        ((p : ℕ) (f : List ℕ) → IsFieldPoly p f → characteristic_word.now ≡ decimal p
        → coefficients.now ≢ digits_text f)
        (λ f. IsFieldPoly f.prime f.coefficients × (characteristic_word.now ≡ decimal f.prime)
        × (coefficients.now ≡ digits_text f.coefficients)) }
{
    let Some(p) = characteristic(characteristic_word) else {
        return None;
    };
    let Some(digits) = read_digits(coefficients) else {
        return None;
    };
    if are_coefficients(p, digits.numbers()) {
        Some(Poly::trimmed(p, digits.numbers()))
    } else {
        None
    }
}

// The name of the added field of this number that the word is; None exactly where it isn't.
fn name_made(word: &[u8], number: u32) -> Option<FieldName>
    requires { number < MAX_FIELDS }
    ensures { MatchOption result (word.now ≢ made_name number)
        (λ name. (name ≡ word.now) × (word.now ≡ made_name number)) }
{
    match word.split_first() {
        None => None,
        Some((first, digits)) => {
            if *first == b'_' && is_number(digits, number) {
                Some(FieldName::made(number))
            } else {
                None
            }
        }
    }
}

// Whether none of the rows has this name.
fn is_free(rows: &[NamedPoly], name: &FieldName) -> bool
    ensures { IsTrue result ↔ All (λ row. row.name ≢ name.now) rows.now }
{
    rows.iter().all(|row| !row.name().equals(name))
}

// The name of the field behind these that the word is; None exactly where it is none.
fn new_name(rows: &[NamedPoly], word: &[u8]) -> Option<FieldName>
    requires { length rows.now < MAX_FIELDS }
    ensures { MatchOption result (¬ IsNewName rows.now word.now)
        (λ name. (name ≡ word.now) × IsNewName rows.now word.now) }
{
    match FieldName::declared_bytes(word) {
        None => name_made(word, rows.len() as u32),
        Some(name) => {
            if is_free(rows, &name) {
                Some(name)
            } else {
                None
            }
        }
    }
}

// The name of the prime field of this characteristic that the word is; None exactly where it isn't.
fn prime_name(word: &[u8], p: u32) -> Option<FieldName>
    requires { (1 < p) × (p < 64) }
    ensures { MatchOption result (word.now ≢ (prime_row p).name)
        (λ name. (name ≡ word.now) × (word.now ≡ (prime_row p).name)) }
{
    match word.split_first() {
        None => None,
        Some((first, digits)) => {
            if *first == b'F' && is_number(digits, p) {
                FieldName::declared_bytes(word)
            } else {
                None
            }
        }
    }
}

// The row of the prime field of this number that a name and a polynomial are; None exactly where
// they are none.
fn prime_field(number: usize, word: &[u8], poly: Poly) -> Option<NamedPoly>
    requires number { number < length first_edition.primes }
    requires poly { IsFieldPoly poly.prime poly.coefficients }
    ensures { let row = prime_row (slice_index first_edition.primes number) in MatchOption result
        (word.now ≡ row.name → poly.prime ≡ row.field.characteristic
        → poly.coefficients ≢ row.field.polynomial)
        (λ r. (r ≡ row) × (r.name ≡ word.now) × (r.field.characteristic ≡ poly.prime)
        × (r.field.polynomial ≡ poly.coefficients)) }
{
    let p = u32::from(poly.prime().number());
    if Edition::One.characteristics()[number] != p {
        return None;
    }
    if !is_text(poly.coefficients(), &[0, 1]) {
        return None;
    }
    match prime_name(word, p) {
        None => None,
        Some(name) => Some(NamedPoly::new(name, poly)),
    }
}

// The row behind these that a name and a polynomial are; None exactly where they are none.
fn new_field(rows: &[NamedPoly], word: &[u8], poly: Poly) -> Option<NamedPoly>
    requires rows { length rows.now < MAX_FIELDS }
    requires poly { IsFieldPoly poly.prime poly.coefficients }
    ensures { MatchOption result
        ((row : Row) → IsNewRow rows.now row → word.now ≡ row.name
        → poly.prime ≡ row.field.characteristic → poly.coefficients ≢ row.field.polynomial)
        (λ r. IsNewRow rows.now r × (r.name ≡ word.now) × (r.field.characteristic ≡ poly.prime)
        × (r.field.polynomial ≡ poly.coefficients)) }
{
    if poly.coefficients().len() < 3 {
        return None;
    }
    match new_name(rows, word) {
        None => None,
        Some(name) => Some(NamedPoly::new(name, poly)),
    }
}

// The row behind these that a name and a polynomial are; None exactly where they are none.
fn field_behind(rows: &[NamedPoly], word: &[u8], poly: Poly) -> Option<NamedPoly>
    requires rows { length rows.now < MAX_FIELDS }
    requires poly { IsFieldPoly poly.prime poly.coefficients }
    ensures { MatchOption result
        ((row : Row) → IsNextRow rows.now row → word.now ≡ row.name
        → poly.prime ≡ row.field.characteristic → poly.coefficients ≢ row.field.polynomial)
        (λ r. IsNextRow rows.now r × (r.name ≡ word.now) × (r.field.characteristic ≡ poly.prime)
        × (r.field.polynomial ≡ poly.coefficients)) }
{
    if rows.len() < Edition::One.primes() as usize {
        prime_field(rows.len(), word, poly)
    } else {
        new_field(rows, word, poly)
    }
}

// The row behind these that the line is; None exactly where it is none.
pub(crate) fn row(rows: &[NamedPoly], line: &[u8]) -> Option<NamedPoly>
    requires { length rows.now < MAX_FIELDS }
    ensures { MatchOption result
        ((r : Row) → IsNextRow rows.now r → ended line.now ≢ field_line (length rows.now) r)
        (λ r. IsNextRow rows.now r × (ended line.now ≡ field_line (length rows.now) r)) }
{
    let Some((number, name, characteristic, coefficients)) = field_words(line) else {
        return None;
    };
    if !is_number(number, rows.len() as u32) {
        return None;
    }
    match polynomial(characteristic, coefficients) {
        None => None,
        Some(poly) => field_behind(rows, name, poly),
    }
}

// The words of a map's line behind its first one: the numbers of the fields, and the image.
fn map_words(line: &[u8]) -> Option<(&[u8], &[u8], &[u8])>
    ensures { MatchOption result ((a b c : List ℕ) → ¬ AreMapWords line.now a b c)
        (λ w. AreMapWords line.now w.0.now w.1.now w.2.now) }
{
    let Some(words) = after_word(line, b"map") else {
        return None;
    };
    let Some((from, behind)) = cut(words, b' ') else {
        return None;
    };
    match cut(behind, b' ') {
        None => None,
        Some((into, image)) => Some((from, into, image)),
    }
}

// Whether the numbers are the digits of a value of the field of this polynomial.
fn are_digits(row: &NamedPoly, numbers: &[u8]) -> bool
    ensures { IsTrue result ↔ (field_values row.now.field).Valid numbers.now }
{
    let poly = row.poly();
    if numbers.len() + 1 != poly.coefficients().len() {
        return false;
    }
    are_below(poly.prime(), numbers)
}

// The value of this field that the word is with all its places; None exactly where it is none.
fn value(row: &NamedPoly, word: &[u8]) -> Option<Value>
    ensures { MatchOption result
        ((v : List ℕ) → (field_values row.now.field).Valid v → word.now ≢ digits_text v)
        (λ v. (field_values row.now.field).Valid v × (word.now ≡ digits_text v)) }
{
    let _poly = row.poly();
    match read_digits(word) {
        None => None,
        Some(digits) => {
            if are_digits(row, digits.numbers()) {
                Some(Value::of_digits(digits.numbers()))
            } else {
                None
            }
        }
    }
}

// The row of this number.
fn row_at(rows: &[NamedPoly], number: u32) -> &NamedPoly
    requires { number < length rows.now }
    ensures { result.now ≡ slice_index_or rows.now number no_row }
{
    &rows[number as usize]
}

// Whether a pair of numbers comes before another one.
fn is_before(a: (u32, u32), b: (u32, u32)) -> bool
    ensures { IsTrue result ↔ IsBefore a b }
{
    a.0 < b.0 || (a.0 == b.0 && a.1 < b.1)
}

// Whether the pair of numbers comes behind those of the images.
fn rises(images: &[Image], from: u32, into: u32) -> bool
    requires { IsRising images.now }
    ensures { IsTrue result
        ↔ All (λ (e : readings.Image). IsBefore e.0 (from, into)) images.now }
{
    match images.last() {
        None => true,
        Some(last) => is_before(last.pair(), (from, into)),
    }
}

// The image behind these that the line is; None exactly where it is none.
pub(crate) fn image(rows: &[NamedPoly], images: &[Image], line: &[u8]) -> Option<Image>
    requires rows { length rows.now ≤ MAX_FIELDS }
    requires rising { IsRising images.now }
    ensures { MatchOption result
        ((e : readings.Image) → IsNextImage rows.now images.now e
        → ended line.now ≢ map_line e.0 e.1)
        (λ e. IsNextImage rows.now images.now e × (ended line.now ≡ map_line e.0 e.1)) }
{
    let Some((source, target, digits)) = map_words(line) else {
        return None;
    };
    let Some(from) = number_below(source, rows.len() as u32) else {
        return None;
    };
    let Some(into) = number_below(target, rows.len() as u32) else {
        return None;
    };
    let Some(value) = value(row_at(rows, into), digits) else {
        return None;
    };
    if rises(images, from, into) {
        Some(Image::new(from, into, value))
    } else {
        None
    }
}
