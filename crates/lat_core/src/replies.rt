//! What a request is answered, and the entries of a history.

ghost use Rattle.std.specs.Prelude.{◌≡◌};

use crate::names::FieldName;
use crate::requests::Request;
use ff_field::Value;
use ff_poly::Poly;
use thiserror::Error;

/// Why a change is refused.
#[derive(Drop)]
pub enum StepRefusal {
    /// The characteristic isn't one of the edition.
    NotInTable(u32),
    /// The degree isn't that of a declared field.
    DegreeOutOfRange(u32),
    /// The coefficient at this place, counted from 0, isn't below the characteristic: the first.
    CoefficientTooLarge(u32),
    /// The last coefficient isn't 1.
    NotMonic,
    /// The field of this number has the name, with another characteristic or polynomial.
    NameTaken(u32),
    /// The polynomial is reducible; its least factor.
    Reducible { factor: Poly },
    /// The lattice has `have` fields, and `need` more are too many.
    TooManyFields { have: u32, need: u32 },
    /// No field has this name.
    UnknownField(FieldName),
    /// The fields have these two characteristics.
    DifferentCharacteristic(u32, u32),
    /// The first degree doesn't divide the second one.
    DegreeDoesNotDivide(u32, u32),
    /// A prescribed value, tagged with this number, isn't one of the field that it should be of.
    WrongField(u32),
    /// No embedding agrees with all common subfields and sends what is prescribed.
    NoCompatibleRoot,
}

impl StepRefusal {
    /// An equal refusal. Takes no memory.
    pub fn copy(&self) -> Self
        ensures { result ≡ self.now }
    {
        match self {
            StepRefusal::NotInTable(p) => StepRefusal::NotInTable(*p),
            StepRefusal::DegreeOutOfRange(degree) => StepRefusal::DegreeOutOfRange(*degree),
            StepRefusal::CoefficientTooLarge(place) => StepRefusal::CoefficientTooLarge(*place),
            StepRefusal::NotMonic => StepRefusal::NotMonic,
            StepRefusal::NameTaken(number) => StepRefusal::NameTaken(*number),
            StepRefusal::Reducible { factor } => StepRefusal::Reducible {
                factor: factor.copy(),
            },
            StepRefusal::TooManyFields { have, need } => StepRefusal::TooManyFields {
                have: *have,
                need: *need,
            },
            StepRefusal::UnknownField(name) => StepRefusal::UnknownField(name.copy()),
            StepRefusal::DifferentCharacteristic(p, q) => {
                StepRefusal::DifferentCharacteristic(*p, *q)
            }
            StepRefusal::DegreeDoesNotDivide(m, n) => StepRefusal::DegreeDoesNotDivide(*m, *n),
            StepRefusal::WrongField(number) => StepRefusal::WrongField(*number),
            StepRefusal::NoCompatibleRoot => StepRefusal::NoCompatibleRoot,
        }
    }
}

/// The reply to a request.
#[derive(Drop)]
pub enum Reply {
    /// The field is declared, under this number; `already` where it was there before.
    Declared {
        number: u32,
        already: bool,
    },
    /// The image of the generator, the number of fields that were added, and the number of maps
    /// that were added.
    Embedded {
        image: Value,
        made: u32,
        linked: u32,
    },
    /// Nothing was to be changed.
    Synced,
    /// The change is refused.
    Refused(StepRefusal),
}

impl Reply {
    /// An equal reply. Takes no memory.
    pub fn copy(&self) -> Self
        ensures { result ≡ self.now }
    {
        match self {
            Reply::Declared { number, already } => Reply::Declared {
                number: *number,
                already: *already,
            },
            Reply::Embedded {
                image,
                made,
                linked,
            } => Reply::Embedded {
                image: image.copy(),
                made: *made,
                linked: *linked,
            },
            Reply::Synced => Reply::Synced,
            Reply::Refused(refusal) => Reply::Refused(refusal.copy()),
        }
    }
}

/// A change in a history: the number of the session, its request and the reply.
#[derive(Drop)]
pub struct Entry {
    pub session: u32,
    pub request: Request,
    pub reply: Reply,
}

impl Entry {
    /// An equal entry. Takes no memory.
    pub fn copy(&self) -> Self
        ensures { result ≡ self.now }
    {
        Entry {
            session: self.session,
            request: self.request.copy(),
            reply: self.reply.copy(),
        }
    }
}

/// The reply to a change, and the place of its entry in the history, counted from 0.
#[derive(Drop)]
pub struct Placed {
    pub reply: Reply,
    pub place: u32,
}

/// Why a change made no entry.
#[derive(Debug, Drop, Error)]
pub enum ChangeFault {
    /// The history has this many entries, which are all that it has room for.
    #[error("the history is full with {0} entries")]
    HistoryFull(u32),
    /// Memory was refused.
    #[error("out of memory")]
    NoMemory,
}
