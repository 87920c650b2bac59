//! Columns of residues, and lists of columns.
ghost use Rattle.std.specs.Prelude.{◌≡◌, ◌<◌, ◌≤◌, [], ◌∷◌, ◌++◌, length};

use arrayvec::ArrayVec;
use ff_lists::{BoundedList, Copies, fixed};
use ff_poly::MAX_DEGREE;
use std::marker::Model;

/// A column of at most `MAX_DEGREE` numbers.
#[derive(Default, Drop)]
pub struct Column {
    numbers: ArrayVec<u8, MAX_DEGREE>,
}

impl Model for Column {
    ghost use Rattle.std.specs.Prelude.{ℕ, List};

    ghost Value = { List ℕ };

    ghost view = { λ a. a.numbers.items };
}

impl Column {
    /// The column of these numbers, the first one on top; there are at most `MAX_DEGREE`.
    pub fn of_slice(c: &[u8]) -> Column
        requires { length c.now ≤ MAX_DEGREE }
        ensures { result ≡ c.now }
    {
        Column { numbers: fixed(c) }
    }

    /// The numbers, the first one on top.
    pub fn numbers(&self) -> &[u8]
        ensures value { result.now ≡ self.now }
        ensures whole { length self.now ≤ MAX_DEGREE }
    {
        self.numbers.as_slice()
    }

    // Appends a number at the bottom.
    pub(crate) fn push(&mut self, x: u8)
        requires { length self.old < MAX_DEGREE }
        ensures { self.new ≡ self.old ++ x ∷ [] }
    {
        self.numbers.push(x);
    }
}

impl Copies for Column {
    fn copy(&self) -> Self {
        Column::of_slice(self.numbers())
    }
}

/// At most `MAX_DEGREE` columns.
pub type ColumnList = BoundedList<Column, MAX_DEGREE>;
