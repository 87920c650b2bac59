//! Coefficient lists as a request gives them.

ghost use Rattle.std.specs.Prelude.{◌≡◌, length, SomeIff};
ghost use Rattle.lat_core.specs.Digits.{IsDigitCount, AreDigits};

use arrayvec::ArrayVec;
use ff_lists::fixed;
use std::marker::Model;

/// The most numbers of a coefficient list.
pub const MAX_DIGITS: usize = 64;

/// A coefficient list as a request gives it: 1 to 64 numbers from 0 to 255, the lowest coefficient
/// first.
#[derive(Drop)]
pub struct Digits {
    numbers: ArrayVec<u8, MAX_DIGITS>,
}

impl Model for Digits {
    ghost use Rattle.std.specs.Prelude.{List, ℕ};

    ghost Value = { List ℕ };

    ghost use Rattle.lat_core.specs.Digits.{AreDigits};

    ghost view = { λ digits. digits.numbers.items };

    ghost invariant = { λ digits. AreDigits digits.numbers.items };
}

// The list of these numbers, of which there are as many as may be.
fn digits_of(c: &[u8]) -> Digits
    requires { IsDigitCount (length c.now) }
    ensures { result ≡ c.now }
{
    Digits { numbers: fixed(c) }
}

impl Digits {
    /// The list of these numbers; None exactly where there are none or more than 64. Takes no
    /// memory.
    pub fn of(c: &[u8]) -> Option<Digits>
        ensures { SomeIff result (IsDigitCount (length c.now)) c.now }
    {
        if c.is_empty() || c.len() > MAX_DIGITS {
            None
        } else {
            Some(digits_of(c))
        }
    }

    /// The numbers, the lowest coefficient first.
    pub fn numbers(&self) -> &[u8]
        ensures value { result.now ≡ self.now }
        ensures whole { AreDigits self.now }
    {
        self.numbers.as_slice()
    }

    /// An equal list. Takes no memory.
    pub fn copy(&self) -> Self
        ensures { result ≡ self.now }
    {
        digits_of(self.numbers())
    }
}
