//! Rising lists of numbers.

ghost use Rattle.std.specs.Prelude.{◌≡◌};
ghost use Rattle.lat_core.specs.NumberLists.{IsNumberList};

use crate::MAX_FIELDS;
use arrayvec::ArrayVec;
use std::marker::Model;

/// At most `MAX_FIELDS` numbers, rising: the numbers of some fields of a lattice.
#[derive(Drop)]
pub struct NumberList {
    numbers: ArrayVec<u32, MAX_FIELDS>,
}

impl Model for NumberList {
    ghost use Rattle.std.specs.Prelude.{List, ℕ};

    ghost Value = { List ℕ };

    ghost use Rattle.lat_core.specs.NumberLists.{IsNumberList};

    ghost view = { λ list. list.numbers.items };

    ghost invariant = { λ list. IsNumberList list.numbers.items };
}

impl NumberList {
    /// The list of these numbers, which rise and are at most `MAX_FIELDS`. Takes no memory.
    pub fn of(numbers: &[u32]) -> NumberList
        requires { IsNumberList numbers.now }
        ensures { result ≡ numbers.now }
    {
        let mut list = ArrayVec::new();
        match list.try_extend_from_slice(numbers) {
            Ok(()) => NumberList { numbers: list },
            Err(_) => unreachable!(),
        }
    }

    /// The numbers, rising.
    pub fn numbers(&self) -> &[u32]
        ensures value { result.now ≡ self.now }
        ensures whole { IsNumberList self.now }
    {
        self.numbers.as_slice()
    }

    /// An equal list. Takes no memory.
    pub fn copy(&self) -> Self
        ensures { result ≡ self.now }
    {
        NumberList::of(self.numbers())
    }
}
