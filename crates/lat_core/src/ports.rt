//! How a session reaches a lattice and its history.

ghost use Rattle.std.specs.Prelude.{◌≡◌, ℕ, List, length, IfOk, IfErr};
ghost use Rattle.alg_model.specs.Lattices.{Lattice};
ghost use Rattle.lat_core.specs.Answers.{Fits, Answers};
ghost use Rattle.lat_core.specs.Step.{IsProperRequest};
ghost use Rattle.lat_core.specs.Histories.{Knowledge, IsKnowledge, IsAfter, IsPlaced, IsUnplaced, IsRefusedBy};

use crate::questions::{Answer, Question};
use crate::replies::{ChangeFault, Placed};
use crate::requests::Request;

/// What a session sees of a lattice, and how it changes it.
pub trait Port {
    // What the session knows, and the ghost names of what the port borrows.
    ghost knowledge: { Self → Knowledge };

    ghost borrows: { Self → List ℕ };

    /// Enters a change, and sees it and all entries before it. On a fault it has made no entry, and
    /// sees what it saw before.
    fn change(&mut self, request: &Request) -> Result<Placed, ChangeFault>
        requires proper { IsProperRequest request.now }
        ensures placed { IfOk result (λ done.
            IsPlaced (knowledge self.old) (knowledge self.new) request.now done.reply done.place) }
        ensures unplaced { IfErr result (λ _.
            IsUnplaced (knowledge self.old) (knowledge self.new)) }
        ensures fault { IfErr result (λ fault. IsRefusedBy (knowledge self.new) fault) }
        ensures known { IsKnowledge (knowledge self.new) }
        ensures borrowed { borrows self.new ≡ borrows self.old };

    /// Answers a question that fits the lattice after the entries that are seen. Takes no memory.
    fn read(&self, question: &Question) -> Answer
        requires fits { (L : Lattice)
            × IsAfter (knowledge self.now).edition (knowledge self.now).seen L
            × Fits L question.now }
        ensures answer { (L : Lattice)
            → IsAfter (knowledge self.now).edition (knowledge self.now).seen L
            → Answers L question.now result };

    /// How many entries are seen.
    fn front(&self) -> u32
        ensures count { result ≡ length (knowledge self.now).seen }
        ensures known { IsKnowledge (knowledge self.now) };
}
