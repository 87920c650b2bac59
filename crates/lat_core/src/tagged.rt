//! Values with the numbers of their fields.

ghost use Rattle.std.specs.Prelude.{◌≡◌};

use ff_field::Value;

/// A value, and the number of its field in a lattice.
#[derive(Drop)]
pub struct Tagged {
    pub field: u32,
    pub value: Value,
}

impl Tagged {
    /// An equal one. Takes no memory.
    pub fn copy(&self) -> Self
        ensures { result ≡ self.now }
    {
        Tagged {
            field: self.field,
            value: self.value.copy(),
        }
    }
}

/// A prescribed pair: a value of one field, and the value of another one that it is to be sent to.
#[derive(Drop)]
pub struct Sending {
    pub value: Tagged,
    pub image: Tagged,
}

impl Sending {
    /// An equal one. Takes no memory.
    pub fn copy(&self) -> Self
        ensures { result ≡ self.now }
    {
        Sending {
            value: self.value.copy(),
            image: self.image.copy(),
        }
    }
}
