//! What a session can ask to be changed.

ghost use Rattle.std.specs.Prelude.{◌≡◌};

use crate::digits::Digits;
use crate::names::FieldName;
use crate::tagged::Sending;

/// A change that a lattice is asked for.
#[derive(Drop)]
pub enum Request {
    /// The field of this characteristic and polynomial under this name, which is a declared name.
    Declare {
        name: FieldName,
        p: u32,
        poly: Digits,
    },
    /// An embedding of one field into another, which sends one value to another if a pair is
    /// prescribed.
    Embed {
        from: FieldName,
        into: FieldName,
        sending: Option<Sending>,
    },
    /// Nothing: the session sees what others have changed.
    Sync,
}

// An equal pair, if there is one.
fn copied(sending: &Option<Sending>) -> Option<Sending>
    ensures { result ≡ sending.now }
{
    match sending {
        None => None,
        Some(pair) => Some(pair.copy()),
    }
}

impl Request {
    /// An equal request. Takes no memory.
    pub fn copy(&self) -> Self
        ensures { result ≡ self.now }
    {
        match self {
            Request::Declare { name, p, poly } => Request::Declare {
                name: name.copy(),
                p: *p,
                poly: poly.copy(),
            },
            Request::Embed {
                from,
                into,
                sending,
            } => Request::Embed {
                from: from.copy(),
                into: into.copy(),
                sending: copied(sending),
            },
            Request::Sync => Request::Sync,
        }
    }
}
