//! The job of a session.

ghost use Rattle.std.specs.Prelude.{◌≡◌, All, IfOk};
ghost use Rattle.alg_model.specs.Lattices.{IsEdition};
ghost use Rattle.lat_session.specs.Commands.{IsProperCommand};
ghost use Rattle.lat_session.specs.Outcomes.{operations_of};
ghost use Rattle.lat_shared.specs.Sharing.{IsPassOf, knowledge_of};
ghost use Rattle.lat_sharing.specs.PrivateSharings.{HasPlayed};

use crate::sessions::play_session;
use lat_core::NoMemory;
use lat_language::Command;
use lat_shared::{SessionPass, Shared};
use lat_work::Job;
use natural_ops::{Operation, Ops};
use std::alloc::Global;
use std::sync::Wait;

// A session that plays its commands over a shared history, and the text of its lines once it has.
#[derive(Drop)]
pub(crate) struct SessionJob<'a, F: Operation, G: Operation, H: Operation> {
    pub(crate) alloc: Global,
    pub(crate) shared: &'a Shared,
    pub(crate) ops: &'a Ops<F, G, H>,
    pub(crate) commands: &'a [Command],
    pub(crate) pass: SessionPass,
    pub(crate) text: Result<Vec<u8>, NoMemory>,
}

impl<'a, F: Operation, G: Operation, H: Operation> Job for SessionJob<'a, F, G, H> {
    ghost can_run = { λ job. IsPassOf job.shared.now job.pass × IsEdition job.shared.now.edition
        × All IsProperCommand job.commands.now };

    ghost ran = { λ old new. IsPassOf old.shared.now new.pass × (new.pass.number ≡ old.pass.number)
        × IfOk new.text (λ text. HasPlayed
        (operations_of old.ops.now.first old.ops.now.second old.ops.now.third)
        (knowledge_of old.pass) old.commands.now (knowledge_of new.pass) text.items) };

    fn run<R: Wait + Sync>(&mut self, rt: &R) {
        self.text = play_session(
            rt,
            self.alloc,
            self.shared,
            &mut self.pass,
            self.commands,
            self.ops,
        );
    }
}
