//! How a session reaches a history that others change too.

ghost use Rattle.std.specs.Prelude.{◌≡◌};
ghost use Rattle.lat_shared.specs.Sharing.{IsPassOf};

use crate::session_passes::SessionPass;
use crate::shared::Shared;
use lat_core::{Answer, ChangeFault, Placed, Port, Question, Request};
use std::sync::Wait;

/// A session's way to a shared history. Its changes wait for their turn; it reads without waiting.
#[derive(Drop)]
pub struct SharedPort<'s, R: Wait> {
    pub rt: &'s R,
    pub shared: &'s Shared,
    pub pass: &'s mut SessionPass,
    pub ghost of_shared: { IsPassOf shared.now pass.now },
}

impl<'s, R: Wait> SharedPort<'s, R> {
    /// The port of this pass.
    ///
    /// Requires that the pass is of this object.
    pub fn new(rt: &'s R, shared: &'s Shared, pass: &'s mut SessionPass) -> SharedPort<'s, R>
        requires of_shared { IsPassOf shared.now pass.old }
        ensures pass { result.pass.now ≡ pass.old }
        ensures same_pass { result.pass.ghost_name ≡ pass.entry.ghost_name }
    {
        SharedPort { rt, shared, pass }
    }
}

impl<'s, R: Wait> Port for SharedPort<'s, R> {
    ghost use Rattle.std.specs.Prelude.{◌∷◌};
    ghost use Rattle.lat_shared.specs.Sharing.{knowledge_of, marks};

    ghost knowledge = { λ port. knowledge_of port.pass.now };

    ghost borrows = { λ port. port.pass.ghost_name ∷ marks port.pass.now.sharing };

    fn change(&mut self, request: &Request) -> Result<Placed, ChangeFault> {
        self.shared.change(self.rt, self.pass, request)
    }

    fn read(&self, question: &Question) -> Answer {
        let pass: &SessionPass = self.pass;
        pass.read(question)
    }

    fn front(&self) -> u32 {
        let pass: &SessionPass = self.pass;
        pass.front()
    }
}
