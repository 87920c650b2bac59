//! The requests of lines.
ghost use Rattle.std.specs.Prelude.{IfSome};
ghost use Rattle.lat_core.specs.Step.{IsProperRequest};

use arrayvec::ArrayVec;
use lat_core::{Digits, FieldName, MAX_DIGITS, Request};

// The numbers between commas.
fn digits_of(word: &str) -> Option<Digits> {
    let mut numbers = ArrayVec::<u8, MAX_DIGITS>::new();
    for number in word.split(',') {
        numbers.try_push(number.parse::<u8>().ok()?).ok()?;
    }
    Digits::of(numbers.as_slice())
}

// The request to declare a field: its name, its characteristic and its coefficients.
fn declaring(name: &str, p: &str, f: &str) -> Option<Request>
    ensures { IfSome result IsProperRequest }
{
    let name = FieldName::declared(name)?;
    let p = p.parse::<u32>().ok()?;
    let poly = digits_of(f)?;
    Some(Request::Declare { name, p, poly })
}

// The request to embed a field in another.
fn embedding(from: &str, into: &str) -> Option<Request>
    ensures { IfSome result IsProperRequest }
{
    let from = FieldName::declared(from)?;
    let into = FieldName::declared(into)?;
    Some(Request::Embed {
        from,
        into,
        sending: None,
    })
}

/// The request of a line `field NAME P COEFFICIENTS` or `embed FIELD into FIELD`, or None where it
/// is none.
pub fn request_of(line: &str) -> Option<Request>
    ensures { IfSome result IsProperRequest }
{
    let mut words = line.split(' ');
    match (words.next()?, words.next()?, words.next()?, words.next()?) {
        ("field", name, p, f) => declaring(name, p, f),
        ("embed", from, "into", into) => embedding(from, into),
        _ => None,
    }
}
