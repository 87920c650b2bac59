//! How one session reaches a book that no other one changes meanwhile.

ghost use Rattle.std.specs.Prelude.{◌≡◌, ◌≤◌, length};
ghost use Rattle.lat_history.specs.Passes.{IsPassOf, IsView};
ghost use Rattle.lat_history.specs.PrivatePasses.{view_prop};

use crate::books::Book;
use crate::solo_passes::SoloPass;
use lat_coerce::answer;
use lat_core::{Answer, ChangeFault, Placed, Port, Question, Request};

/// A session's way to a book: it has the book to itself while it lasts. It was told all entries of
/// the book, and has seen as many as its pass.
#[derive(Drop)]
pub struct SoloPort<'a> {
    pub book: &'a mut Book,
    pub pass: &'a mut SoloPass,
    pub ghost within: { pass.now.front ≤ length book.now.entries },
    pub ghost view: { IsView book.now pass.now } by { view_prop book.now pass.now },
}

impl<'a> SoloPort<'a> {
    /// The port of this pass to its book.
    pub fn new(book: &'a mut Book, pass: &'a mut SoloPass) -> SoloPort<'a>
        requires pass { IsPassOf book.old pass.old }
        ensures book { result.book.now ≡ book.old }
        ensures pass { result.pass.now ≡ pass.old }
        ensures same_book { result.book.ghost_name ≡ book.entry.ghost_name }
        ensures same_pass { result.pass.ghost_name ≡ pass.entry.ghost_name }
    {
        SoloPort { book, pass }
    }
}

impl<'a> Port for SoloPort<'a> {
    ghost use Rattle.std.specs.Prelude.{◌∷◌, []};
    ghost use Rattle.lat_history.specs.Passes.{known_of};

    ghost knowledge = { λ port. known_of port.book.now port.pass.now };

    ghost borrows = { λ port. port.book.ghost_name ∷ port.pass.ghost_name ∷ [] };

    fn change(&mut self, request: &Request) -> Result<Placed, ChangeFault> {
        let played = self.book.play(self.pass.number(), request)?;
        self.pass.advance(played.placed.place + 1, played.view);
        Ok(played.placed)
    }

    fn read(&self, question: &Question) -> Answer {
        let view = self.pass.view();
        answer(view, question)
    }

    fn front(&self) -> u32 {
        let _length = self.book.length();
        self.pass.front()
    }
}
