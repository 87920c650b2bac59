//! A history that sessions share.

ghost use Rattle.std.specs.Prelude.{◌≡◌, ℕ, ◌+◌, ◌<◌, ◌≤◌, [], take, map, length, slice_get, vec_len, All, Contains, Some, IfOk, IfErr};
ghost use Rattle.lat_core.specs.Step.{IsProperRequest};
ghost use Rattle.lat_core.specs.Histories.{IsKnowledge, IsPlaced, IsUnplaced, entries_of};
ghost use Rattle.lat_history.specs.Books.{IsHistory};
ghost use Rattle.lat_history.specs.Plays.{IsBookFault};
ghost use Rattle.lat_gate.specs.Passes.{known};
ghost use Rattle.lat_shared.specs.Sharing.{IsPassOf, IsSession, EndsAs, sharing_of, first_pass, knowledge_of, told_history};
ghost use Rattle.lat_shared.specs.PrivatePasses.{Has, IsJoined, KeepFrom, passes_from, sharing_in};

use crate::books::SharedBook;
use crate::session_passes::SessionPass;
use crate::turns::play_in_turn;
use lat_core::{ChangeFault, Edition, Lattice, NoMemory, Placed, Request};
use lat_gate::{Gate, MAX_PASSES, Pass};
use lat_history::Book;
use std::alloc::Global;
use std::marker::Model;
use std::sync::Wait;

/// A book that several sessions change, each on a thread of its own or by turns on one. Contracts see
/// what it was opened with, and which one it is.
#[derive(Drop)]
pub struct Shared {
    gate: Gate<SharedBook>,
    edition: Edition,
    room: u32,
    sessions: u32,
    opened: u32,
}

impl Model for Shared {
    ghost use Rattle.std.specs.Prelude.{◌≤◌};
    ghost use Rattle.lat_core.specs.Editions.{edition_of};
    ghost use Rattle.lat_gate.specs.Passes.{gate_id};
    ghost use Rattle.lat_shared.specs.Sharing.{Sharing};

    ghost Value = { Sharing };

    ghost view = { λ a. record {
      edition = edition_of a.edition;
      room = a.room;
      sessions = a.sessions;
      opened = a.opened;
      gate = gate_id a.gate;
    } };

    ghost invariant = { λ a. 1 ≤ a.sessions };
}

// Passes of sessions, in the order of the gate's passes, each with a view of its own.
fn with_views(
    alloc: Global,
    dealt: Vec<Pass<SharedBook>>,
    front: u32,
    view: &Lattice,
) -> Result<Vec<SessionPass>, NoMemory>
    requires few { vec_len dealt ≤ MAX_PASSES }
    requires keep { KeepFrom 1 front view.now dealt.items }
    ensures passes { IfOk result (λ passes. passes.items ≡ passes_from 1 front dealt.items) }
{
    let mut passes = Vec::new(alloc);
    for pass in dealt {
        let number = passes.len() as u32 + 1;
        passes.push(SessionPass::new(pass, number, front, view)?)?;
    }
    Ok(passes)
}

impl Shared {
    /// Shares a book among sessions, which are numbered from 1 on.
    ///
    /// Requires that there are from 1 to [`MAX_PASSES`] of them, and that the book has no entry of
    /// theirs yet. Each was told all entries, and sees them.
    pub fn open(
        alloc: Global,
        book: Book,
        sessions: u32,
    ) -> Result<(Shared, Vec<SessionPass>), NoMemory>
        requires sessions { (1 ≤ sessions) × (sessions ≤ MAX_PASSES) }
        requires unused { (n : ℕ) → IsSession sessions n → entries_of n book.entries ≡ [] }
        ensures shared { IfOk result (λ made. made.0 ≡ sharing_of made.0.gate book sessions) }
        ensures count { IfOk result (λ made. vec_len made.1 ≡ sessions) }
        ensures passes { IfOk result (λ made. (i : ℕ) → i < sessions →
            slice_get made.1.items i ≡ Some (first_pass made.0 (i + 1) book.entries)) }
    {
        let edition = book.edition();
        let room = book.room();
        let opened = book.length();
        let view = book.lattice().copy()?;
        let Ok((gate, dealt)) = Gate::open(alloc, SharedBook::new(book), sessions) else {
            return Err(NoMemory);
        };
        let passes = with_views(alloc, dealt, opened, &view)?;
        let shared = Shared {
            gate,
            edition,
            room,
            sessions,
            opened,
        };
        Ok((shared, passes))
    }

    /// Enters a change of a session, once its turn has come, and shows it to the session with all
    /// entries before it. `HistoryFull` exactly where there was no room left at its turn, and then
    /// the session was told the whole history. After a fault it has made no entry, and sees what it
    /// saw before.
    ///
    /// Requires that the pass is of this object.
    pub fn change<R: Wait>(
        &self,
        rt: &R,
        pass: &mut SessionPass,
        request: &Request,
    ) -> Result<Placed, ChangeFault>
        requires of_shared { IsPassOf self.now pass.old }
        requires proper { IsProperRequest request.now }
        ensures of_shared { IsPassOf self.now pass.new }
        ensures number { pass.new.number ≡ pass.old.number }
        ensures placed { IfOk result (λ done. IsPlaced (knowledge_of pass.old)
            (knowledge_of pass.new) request.now done.reply done.place) }
        ensures unplaced { IfErr result (λ _.
            IsUnplaced (knowledge_of pass.old) (knowledge_of pass.new)) }
        ensures fault { IfErr result (IsBookFault (told_history pass.new)) }
        ensures known { IsKnowledge (knowledge_of pass.new) }
    {
        let Some(seat) = pass.pass.take() else {
            unreachable!()
        };
        let (seat, answer) = play_in_turn(rt, &self.gate, seat, pass.number, request);
        pass.pass = Some(seat);
        let played = answer?;
        pass.front = played.placed.place + 1;
        pass.view = played.view;
        Ok(played.placed)
    }

    /// Ends the sharing, and gives the book.
    ///
    /// Requires passes of this object, those of all its sessions. The book has the edition and the
    /// room that it was opened with. Its entries begin with what each session was told, and of each
    /// session there are no others. Of other numbers there are no more than at the opening.
    pub fn close(self, passes: Vec<SessionPass>) -> Book
        requires of_shared { All (IsPassOf self) passes.items }
        requires every { (n : ℕ) → IsSession self.sessions n →
            Contains (map (λ pass. pass.number) passes.items) n }
        ensures edition { result.edition ≡ self.edition }
        ensures room { result.room ≡ self.room }
        ensures whole { IsHistory result }
        ensures sessions { All (λ pass. EndsAs pass result) passes.items }
        ensures others { (n : ℕ) → ¬ IsSession self.sessions n → entries_of n result.entries
            ≡ entries_of n (take self.opened result.entries) }
    {
        let kept = self.join_all(passes);
        let book = self.gate.close(kept);
        book.into_book()
    }

    // Joins the gate's passes of sessions.
    fn join_all(&self, passes: Vec<SessionPass>) -> Pass<SharedBook>
        requires of_shared { All (IsPassOf self.now) passes.items }
        requires some { 0 < vec_len passes }
        ensures sharing { sharing_in (known result) ≡ self.now }
        ensures has { All (Has (known result)) passes.items }
        ensures joined { IsJoined (known result) }
    {
        let mut passes = passes;
        let Some(last) = passes.pop() else {
            unreachable!()
        };
        let mut kept = last.into_pass();
        for pass in passes {
            self.gate.join(&mut kept, pass.into_pass());
        }
        kept
    }
}
