//! What a command of a session is answered.

use crate::names::FieldName;
use crate::number_lists::NumberList;
use crate::replies::Reply;
use ff_field::Value;
use ff_poly::Poly;
use ff_polyx::PolyX;

/// Why a session refuses a command.
#[derive(Drop)]
pub enum SessionRefusal {
    /// The coefficient at this place, counted from 0, isn't below the characteristic: the first.
    CoefficientTooLarge(u32),
    /// No field has this name.
    UnknownField(FieldName),
    /// No map from the one field to the other is stored.
    NotEmbedded { i: u32, j: u32 },
    /// The value isn't in the image of the field that it is asked for.
    NotInImage,
    /// The two fields have no common overfield.
    NoCommonField { a: u32, b: u32 },
    /// The session has no variable of this name.
    UnknownVariable(FieldName),
    /// Zero has no inverse.
    ZeroInverse,
    /// The result is for a new name, and the session has no room for one.
    TooManyVariables,
    /// So many coefficients are more than the degree.
    TooManyCoefficients(u32),
    /// The history has this many entries, which are all that it has room for.
    HistoryFull(u32),
}

/// The answer to a command.
#[derive(Drop)]
pub enum Outcome {
    /// The reply to a change.
    Changed(Reply),
    /// A value, and the name of its field.
    Val { name: FieldName, value: Value },
    /// The image of a generator.
    Image(Value),
    /// The field with this name.
    Named(FieldName),
    /// The fields of these numbers, rising.
    Numbers(NumberList),
    /// A polynomial over a prime field.
    Poly(Poly),
    /// A polynomial over a field of the lattice.
    RelPoly(PolyX),
    /// The numbers of fields and of maps.
    Counted { fields: u32, maps: u32 },
    /// The command is refused.
    Refused(SessionRefusal),
}

/// The answer to a command, and its mark: the place of a change in the history, or how many entries
/// a session has seen that asks.
#[derive(Drop)]
pub struct Line {
    pub outcome: Outcome,
    pub mark: u32,
}
