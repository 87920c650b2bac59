//! What a session can ask of a lattice, and the answers.

use crate::names::FieldName;
use crate::number_lists::NumberList;
use crate::tagged::Tagged;
use ff_field::{Field, Value};
use ff_poly::Poly;
use ff_polyx::PolyX;

/// A question about a lattice.
#[derive(Drop)]
pub enum Question {
    /// The field with this name.
    FieldNamed(FieldName),
    /// The field of this number.
    FieldAt(u32),
    /// The image of the generator under the stored map.
    Map { from: u32, into: u32 },
    /// The value in another field, along a stored map or back along one.
    Lift { value: Tagged, to: u32 },
    /// A field of least degree into which both are stored.
    Common { a: u32, b: u32 },
    /// The least field in which the images of the first two in the third meet.
    Meet { i: u32, j: u32, k: u32 },
    /// The stored subfields of a field.
    Subfields(u32),
    /// The minimal polynomial over the prime field.
    MinPoly(Tagged),
    /// The minimal polynomial over a stored subfield.
    MinPolyOver { value: Tagged, over: u32 },
    /// The numbers of fields and of maps.
    Count,
}

/// Why a question about values has no answer.
#[derive(Drop)]
pub enum CoerceFault {
    /// No map from the one field to the other is stored.
    NotEmbedded { i: u32, j: u32 },
    /// The value isn't in the image of the field that it is asked for.
    NotInImage,
    /// The two fields have no common overfield.
    NoCommonField { a: u32, b: u32 },
}

/// An answer.
#[derive(Drop)]
pub enum Answer {
    /// The field that was asked for.
    Known {
        number: u32,
        name: FieldName,
        field: Field,
    },
    /// No field has the name.
    Unknown,
    /// The image of a generator.
    Image(Value),
    /// The value in the other field.
    Lifted(Tagged),
    /// The field of this number.
    Is(u32),
    /// The fields of these numbers, rising.
    Numbers(NumberList),
    /// A polynomial over a prime field.
    Poly(Poly),
    /// A polynomial over a field of the lattice.
    RelPoly(PolyX),
    /// The numbers of fields and of maps.
    Counted {
        fields: u32,
        maps: u32,
    },
    /// There is none.
    Refused(CoerceFault),
}
