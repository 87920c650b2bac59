//! Answers to questions.
ghost use Rattle.std.specs.Prelude.{◌≡◌};
ghost use Rattle.lat_core.specs.Answers.{IsTaggedValue, IsNumber, Fits, AnswersNamed, AnswersMap, LiftsTo, HasCommon, HasMeet, HasMinimalOver, Answers, known_field};

use crate::commons::common;
use crate::lifts::lift;
use crate::lookups::field;
use crate::meets::meet;
use crate::subfields::subfields;
use ff_minpoly::{over_in, over_prime};
use lat_core::{Answer, CoerceFault, FieldName, Lattice, Question, Tagged};

/// The answer to a question that fits the lattice: its numbers are those of fields, and its values
/// are values of theirs. There is no answer for want of memory.
pub fn answer(lattice: &Lattice, question: &Question) -> Answer
    requires fits { Fits lattice.now question.now }
    ensures answer { Answers lattice.now question.now result }
{
    match question {
        Question::FieldNamed(name) => named(lattice, name),
        Question::FieldAt(number) => known(lattice, *number),
        Question::Map { from, into } => image(lattice, *from, *into),
        Question::Lift { value, to } => lifted(lattice, value, *to),
        Question::Common { a, b } => common_field(lattice, *a, *b),
        Question::Meet { i, j, k } => meeting_field(lattice, *i, *j, *k),
        Question::Subfields(field) => Answer::Numbers(subfields(lattice, *field)),
        Question::MinPoly(value) => {
            Answer::Poly(over_prime(field(lattice, value.field), &value.value))
        }
        Question::MinPolyOver { value, over } => minimal_over(lattice, value, *over),
        Question::Count => Answer::Counted {
            fields: lattice.fields(),
            maps: lattice.maps(),
        },
    }
}

// The field of a number, with its name.
fn known(lattice: &Lattice, number: u32) -> Answer
    requires number { IsNumber lattice.now number }
    ensures known { result ≡ known_field lattice.now number }
{
    let row = lattice.field(number);
    Answer::Known {
        number,
        name: row.name.copy(),
        field: row.field.copy(),
    }
}

// The field of this name.
fn named(lattice: &Lattice, name: &FieldName) -> Answer
    ensures named { AnswersNamed lattice.now name.now result }
{
    match lattice.field_named(name) {
        None => Answer::Unknown,
        Some(number) => known(lattice, number),
    }
}

// The image of the generator of a field in another one.
fn image(lattice: &Lattice, from: u32, into: u32) -> Answer
    ensures image { AnswersMap lattice.now from into result }
{
    match lattice.map(from, into) {
        None => Answer::Refused(CoerceFault::NotEmbedded { i: from, j: into }),
        Some(map) => Answer::Image(map.image()),
    }
}

// The value in another field.
fn lifted(lattice: &Lattice, value: &Tagged, to: u32) -> Answer
    requires value { IsTaggedValue lattice.now value.now }
    ensures lifted { LiftsTo lattice.now value.now to result }
{
    match lift(lattice, value, to) {
        Ok(lifted) => Answer::Lifted(lifted),
        Err(fault) => Answer::Refused(fault),
    }
}

// The common overfield.
fn common_field(lattice: &Lattice, a: u32, b: u32) -> Answer
    ensures common { HasCommon lattice.now a b result }
{
    match common(lattice, a, b) {
        Ok(field) => Answer::Is(field),
        Err(fault) => Answer::Refused(fault),
    }
}

// The meet of two fields within a third one.
fn meeting_field(lattice: &Lattice, i: u32, j: u32, k: u32) -> Answer
    ensures meet { HasMeet lattice.now i j k result }
{
    match meet(lattice, i, j, k) {
        Ok(field) => Answer::Is(field),
        Err(fault) => Answer::Refused(fault),
    }
}

// The minimal polynomial of a value over another field.
fn minimal_over(lattice: &Lattice, value: &Tagged, over: u32) -> Answer
    requires value { IsTaggedValue lattice.now value.now }
    ensures minimal { HasMinimalOver lattice.now value.now over result }
{
    let _edition = lattice.edition();
    let into = value.field;
    match lattice.map(over, into) {
        None => Answer::Refused(CoerceFault::NotEmbedded { i: over, j: into }),
        Some(map) => Answer::RelPoly(over_in(
            field(lattice, over),
            field(lattice, into),
            &map.embedding(),
            &value.value,
        )),
    }
}
