//! What one session has seen of a history.

ghost use Rattle.std.specs.Prelude.{◌≡◌, ℕ, length, IfOk};
ghost use Rattle.lat_history.specs.Passes.{IsPassOf};

use crate::books::Book;
use lat_core::{Lattice, NoMemory};
use std::marker::Model;

/// The number of a session, how many entries of a book it has seen, and the lattice after those.
#[derive(Drop)]
pub struct SoloPass {
    number: u32,
    front: u32,
    view: Lattice,
}

impl Model for SoloPass {
    ghost use Rattle.lat_history.specs.Passes.{Pass};
    ghost use Rattle.lat_history.specs.PrivatePasses.{pass_code};

    ghost Value = { Pass };

    ghost coded = { pass_code };

    ghost view = { λ a. record { number = a.number; front = a.front; view = a.view } };
}

impl SoloPass {
    /// The pass of a session that has seen all entries of the book.
    pub fn open(book: &Book, session: u32) -> Result<SoloPass, NoMemory>
        ensures number { IfOk result (λ pass. pass.number ≡ session) }
        ensures front { IfOk result (λ pass. pass.front ≡ length book.now.entries) }
        ensures pass { IfOk result (IsPassOf book.now) }
    {
        Ok(SoloPass {
            number: session,
            front: book.length(),
            view: book.lattice().copy()?,
        })
    }

    /// The number of the session.
    pub fn number(&self) -> u32
        ensures value { result ≡ self.now.number }
    {
        self.number
    }

    /// How many entries it has seen.
    pub fn front(&self) -> u32
        ensures value { result ≡ self.now.front }
    {
        self.front
    }

    /// The lattice after the entries that it has seen.
    pub fn view(&self) -> &Lattice
        ensures value { result.now ≡ self.now.view }
    {
        &self.view
    }

    // Moves on to a later lattice.
    pub(crate) fn advance(&mut self, front: u32, view: Lattice)
        ensures value { self.new ≡ record {
          number = self.old.number;
          front = front;
          view = view;
        } }
    {
        self.front = front;
        self.view = view;
    }
}
