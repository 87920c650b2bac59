//! A session that plays its commands over a port.

ghost use Rattle.std.specs.Prelude.{◌≡◌, All, IfOk};
ghost use Rattle.alg_model.specs.Lattices.{IsEdition};
ghost use Rattle.lat_core.specs.Histories.{IsSameSession};
ghost use Rattle.lat_session.specs.Commands.{IsProperCommand};
ghost use Rattle.lat_session.specs.Outcomes.{operations_of};
ghost use Rattle.lat_shared.specs.Sharing.{IsPassOf, knowledge_of};
ghost use Rattle.lat_sharing.specs.PrivateSharings.{HasPlayed};

use lat_core::{NoMemory, Port};
use lat_language::{Command, add_line};
use lat_session::Session;
use lat_shared::{SessionPass, Shared, SharedPort};
use natural_ops::{Operation, Ops};
use std::alloc::Global;
use std::sync::Wait;

// Plays commands over a port, from no variables, and gives the text of their lines.
fn play_commands<P: Port, F: Operation, G: Operation, H: Operation>(
    alloc: Global,
    port: &mut P,
    commands: &[Command],
    ops: &Ops<F, G, H>,
) -> Result<Vec<u8>, NoMemory>
    requires edition { IsEdition (P.knowledge port.old).edition }
    requires proper { All IsProperCommand commands.now }
    ensures played { IfOk result (λ text. HasPlayed
        (operations_of ops.now.first ops.now.second ops.now.third) (P.knowledge port.old)
        commands.now (P.knowledge port.new) text.items) }
    ensures same { IsSameSession (P.knowledge port.old) (P.knowledge port.new) }
    ensures borrowed { P.borrows port.new ≡ P.borrows port.old }
{
    let _front = port.front();
    let mut session = Session::open(alloc);
    let mut text = Vec::new(alloc);
    for command in commands {
        let line = session.play(port, command, ops)?;
        add_line(&mut text, &line)?;
    }
    Ok(text)
}

// The same over a shared history.
pub(crate) fn play_session<R: Wait, F: Operation, G: Operation, H: Operation>(
    rt: &R,
    alloc: Global,
    shared: &Shared,
    pass: &mut SessionPass,
    commands: &[Command],
    ops: &Ops<F, G, H>,
) -> Result<Vec<u8>, NoMemory>
    requires of_shared { IsPassOf shared.now pass.old }
    requires edition { IsEdition shared.now.edition }
    requires proper { All IsProperCommand commands.now }
    ensures of_shared { IsPassOf shared.now pass.new }
    ensures number { pass.new.number ≡ pass.old.number }
    ensures played { IfOk result (λ text. HasPlayed
        (operations_of ops.now.first ops.now.second ops.now.third) (knowledge_of pass.old)
        commands.now (knowledge_of pass.new) text.items) }
{
    let mut port = SharedPort::new(rt, shared, pass);
    play_commands(alloc, &mut port, commands, ops)
}
