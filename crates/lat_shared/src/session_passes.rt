//! What a session has of a shared history.

ghost use Rattle.std.specs.Prelude.{◌≡◌, [], ◌∷◌, length, IfOk};
ghost use Rattle.alg_model.specs.Lattices.{Lattice};
ghost use Rattle.lat_core.specs.Answers.{Fits, Answers};
ghost use Rattle.lat_core.specs.Histories.{IsAfter, IsKnowledge, entries_of};
ghost use Rattle.lat_gate.specs.Passes.{known};
ghost use Rattle.lat_shared.specs.Sharing.{knowledge_of};
ghost use Rattle.lat_shared.specs.PrivatePasses.{Keeps, IsJoined, sharing_in, shared_pass};

use crate::books::SharedBook;
use lat_coerce::answer;
use lat_core::{Answer, Lattice, NoMemory, Question};
use lat_gate::Pass;
use std::marker::Model;

/// A session's part in a shared history: its number, and the lattice after the entries that it has
/// seen. It reads that lattice without waiting for anybody.
#[derive(Drop)]
pub struct SessionPass {
    // It is away while a change waits for its turn.
    pub(crate) pass: Option<Pass<SharedBook>>,
    pub(crate) number: u32,
    pub(crate) front: u32,
    pub(crate) view: Lattice,
}

impl Model for SessionPass {
    ghost use Rattle.lat_shared.specs.Sharing.{SharedPass};
    ghost use Rattle.lat_shared.specs.PrivatePasses.{known_in, shared_pass, IsKept};

    ghost Value = { SharedPass };

    ghost view = { λ a. shared_pass (known_in a.pass) a.number a.front };

    ghost invariant = { λ a. IsKept a.pass a.number a.front a.view };
}

impl SessionPass {
    // The pass of a session, with a view of its own.
    pub(crate) fn new(
        pass: Pass<SharedBook>,
        number: u32,
        front: u32,
        view: &Lattice,
    ) -> Result<SessionPass, NoMemory>
        requires keeps { Keeps (known pass) number front view.now }
        ensures value { IfOk result (λ made. made ≡ shared_pass (known pass) number front) }
    {
        let view = view.copy()?;
        Ok(SessionPass {
            pass: Some(pass),
            number,
            front,
            view,
        })
    }

    // The gate's pass.
    pub(crate) fn into_pass(self) -> Pass<SharedBook>
        ensures sharing { sharing_in (known result) ≡ self.sharing }
        ensures own { (known result).own ≡
            (self.number, entries_of self.number self.told) ∷ [] }
        ensures told { (known result).seen ≡ self.told }
        ensures joined { IsJoined (known result) }
    {
        let SessionPass {
            pass,
            number: _,
            front: _,
            view: _,
        } = self;
        let Some(pass) = pass else { unreachable!() };
        pass
    }

    /// The number of the session.
    pub fn number(&self) -> u32
        ensures value { result ≡ self.now.number }
    {
        self.number
    }

    /// How many entries are seen.
    pub fn front(&self) -> u32
        ensures count { result ≡ length self.now.seen }
        ensures known { IsKnowledge (knowledge_of self.now) }
    {
        self.front
    }

    /// Answers a question that fits the lattice after the entries that are seen. It waits for nobody,
    /// and takes no memory.
    pub fn read(&self, question: &Question) -> Answer
        requires fits { (L : Lattice) × IsAfter self.now.sharing.edition self.now.seen L
            × Fits L question.now }
        ensures answer { (L : Lattice) → IsAfter self.now.sharing.edition self.now.seen L
            → Answers L question.now result }
    {
        answer(&self.view, question)
    }
}
