//! A book as the machine that a gate guards.

ghost use Rattle.std.specs.Prelude.{◌≡◌, IfOk, IfErr, OnErr};
ghost use Rattle.lat_core.specs.Step.{IsProperRequest};
ghost use Rattle.lat_history.specs.Books.{IsHistory};
ghost use Rattle.lat_history.specs.Plays.{IsPlayed, IsBookFault};

use lat_core::{ChangeFault, Entry, Request};
use lat_gate::Machine;
use lat_history::{Book, Played};
use std::marker::Model;

// A book that a gate guards. Contracts see it as its history.
#[derive(Drop)]
pub(crate) struct SharedBook {
    book: Book,
}

impl Model for SharedBook {
    ghost use Rattle.lat_history.specs.Books.{History};

    ghost Value = { History };

    ghost view = { λ a. a.book };
}

impl Machine for SharedBook {
    ghost use Rattle.lat_shared.specs.PrivateSettings.{setting_of, IsLegalUnder};

    type Entry = Entry;

    ghost entries = { λ history. history.entries };

    ghost number = { λ entry. entry.session };

    ghost setting = { setting_of };

    ghost legal = { IsLegalUnder };

    fn count(&self) -> u32 {
        self.book.length()
    }
}

impl SharedBook {
    // Puts a book behind a gate.
    pub(crate) fn new(book: Book) -> SharedBook
        ensures same { result ≡ book }
    {
        SharedBook { book }
    }

    // The book.
    pub(crate) fn into_book(self) -> Book
        ensures same { result ≡ self }
    {
        self.book
    }

    // Answers a session's request, as a book does.
    pub(crate) fn play(&mut self, session: u32, request: &Request) -> Result<Played, ChangeFault>
        requires proper { IsProperRequest request.now }
        ensures played { IfOk result (IsPlayed self.old self.new session request.now) }
        ensures fault { IfErr result (IsBookFault self.old) }
        ensures kept { OnErr result (self.new ≡ self.old) }
        ensures whole { IsHistory self.new }
    {
        self.book.play(session, request)
    }
}
