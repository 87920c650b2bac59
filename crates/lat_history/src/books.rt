//! The history of a lattice.

ghost use Rattle.std.specs.Prelude.{◌≡◌, ℕ, ◌+◌, ◌<◌, ◌≤◌, ◌↔◌, length, IsTrue, IfOk, IfErr, OnErr};
ghost use Rattle.lat_core.specs.Editions.{edition_of};
ghost use Rattle.lat_core.specs.Step.{IsProperRequest};
ghost use Rattle.lat_core.specs.Histories.{IsAfter};
ghost use Rattle.lat_history.specs.Books.{IsHistory, empty_history};
ghost use Rattle.lat_history.specs.Plays.{IsPlayed, IsBookFault};

use crate::MAX_ROOM;
use crate::played::Played;
use lat_core::{ChangeFault, Edition, Entry, Lattice, NoMemory, Placed, Request};
use lat_insert::step;
use std::alloc::Global;
use std::marker::Model;

/// The history of a lattice: its entries, of which there are at most as many as there is room for,
/// and beside them the lattice after them. Contracts see it as its edition, room and entries.
#[derive(Drop)]
pub struct Book {
    edition: Edition,
    room: u32,
    entries: Vec<Entry>,
    lattice: Lattice,
}

impl Model for Book {
    ghost use Rattle.lat_core.specs.Editions.{edition_of};
    ghost use Rattle.lat_history.specs.Books.{History};
    ghost use Rattle.lat_history.specs.PrivateBooks.{IsKept};

    ghost Value = { History };

    ghost view = { λ a. record {
      edition = edition_of a.edition;
      room = a.room;
      entries = a.entries.items;
    } };

    ghost invariant = { λ a. IsKept (record {
      edition = edition_of a.edition;
      room = a.room;
      entries = a.entries.items;
    }) a.lattice };
}

impl Book {
    /// A book of an edition with no entries, its lattice the opening one. Memory for all entries
    /// is taken at once.
    pub fn open(alloc: Global, edition: Edition, room: u32) -> Result<Book, NoMemory>
        requires { room ≤ MAX_ROOM }
        ensures { IfOk result (λ book. book ≡ empty_history (edition_of edition) room) }
    {
        let lattice = Lattice::open(alloc, edition)?;
        let entries = Vec::with_capacity(alloc, room as usize)?;
        Ok(Book {
            edition,
            room,
            entries,
            lattice,
        })
    }

    /// The edition.
    pub fn edition(&self) -> Edition
        ensures value { edition_of result ≡ self.now.edition }
        ensures whole { IsHistory self.now }
    {
        self.edition
    }

    /// For how many entries there is room.
    pub fn room(&self) -> u32
        ensures value { result ≡ self.now.room }
    {
        self.room
    }

    /// How many entries there are.
    pub fn length(&self) -> u32
        ensures value { result ≡ length self.now.entries }
        ensures whole { IsHistory self.now }
    {
        self.entries.len() as u32
    }

    /// The entries, in their order.
    pub fn entries(&self) -> &[Entry]
        ensures value { result.now ≡ self.now.entries }
    {
        self.entries.as_slice()
    }

    /// The lattice after the entries.
    pub fn lattice(&self) -> &Lattice
        ensures value { IsAfter self.now.edition self.now.entries result.now }
        ensures whole { IsHistory self.now }
    {
        &self.lattice
    }

    /// Whether there is no room left.
    pub fn is_full(&self) -> bool
        ensures full { IsTrue result ↔ (length self.now.entries ≡ self.now.room) }
        ensures whole { IsHistory self.now }
    {
        self.length() == self.room
    }

    /// Answers a session's request by the step from the lattice after the entries, and enters it
    /// with its reply. `HistoryFull` exactly where there is no room left, whatever memory there is.
    /// All memory is taken before the book changes, so a fault leaves it as it was.
    pub fn play(&mut self, session: u32, request: &Request) -> Result<Played, ChangeFault>
        requires proper { IsProperRequest request.now }
        ensures played { IfOk result (IsPlayed self.old self.new session request.now) }
        ensures fault { IfErr result (IsBookFault self.old) }
        ensures kept { OnErr result (self.new ≡ self.old) }
        ensures whole { IsHistory self.new }
    {
        if self.is_full() {
            return Err(ChangeFault::HistoryFull(self.room()));
        }
        match self.enter(session, request) {
            Ok(played) => Ok(played),
            Err(NoMemory) => Err(ChangeFault::NoMemory),
        }
    }

    // The same where there is room.
    fn enter(&mut self, session: u32, request: &Request) -> Result<Played, NoMemory>
        requires proper { IsProperRequest request.now }
        requires room { length self.old.entries < self.old.room }
        ensures played { IfOk result (IsPlayed self.old self.new session request.now) }
        ensures kept { OnErr result (self.new ≡ self.old) }
        ensures whole { IsHistory self.new }
    {
        let mut next = self.lattice.copy()?;
        let reply = step(&mut next, request)?;
        let view = next.copy()?;
        let place = self.entries.len() as u32;
        self.entries.push(Entry {
            session,
            request: request.copy(),
            reply: reply.copy(),
        })?;
        self.lattice = next;
        Ok(Played {
            placed: Placed { reply, place },
            view,
        })
    }
}
