//! A session that is played.

ghost use Rattle.std.specs.Prelude.{◌≡◌, ◌+◌, ◌<◌, ◌≤◌, length, All, IfOk, OnOk};
ghost use Rattle.lat_history.specs.Passes.{IsPassOf};
ghost use Rattle.lat_session.specs.Commands.{IsProperCommand};
ghost use Rattle.lat_session.specs.Outcomes.{operations_of};
ghost use Rattle.lat_playing.specs.PrivatePlays.{IsSeated, PlaysCommand, HasPlayed};

use lat_core::{Line, NoMemory};
use lat_history::{Book, SoloPass, SoloPort};
use lat_language::{Command, add_line};
use lat_session::Session;
use natural_ops::{Operation, Ops};

// A session on its way: its variables, what it has seen of the book, the commands that are left to
// it, and the lines of those that it has played.
#[derive(Drop)]
pub(crate) struct Player<'a> {
    pub(crate) session: Session,
    pub(crate) pass: SoloPass,
    pub(crate) left: &'a [Command],
    pub(crate) text: Vec<u8>,
}

// Plays a command of a session over a book, and gives its line.
fn play_command<F: Operation, G: Operation, H: Operation>(
    session: &mut Session,
    book: &mut Book,
    pass: &mut SoloPass,
    command: &Command,
    ops: &Ops<F, G, H>,
) -> Result<Line, NoMemory>
    requires proper { IsProperCommand command.now }
    requires seated { IsSeated book.old pass.old session.old }
    requires room { length book.old.entries < book.old.room }
    ensures { IfOk result (PlaysCommand book.old.edition
        (operations_of ops.now.first ops.now.second ops.now.third) book.old pass.old session.old
        command.now book.new pass.new session.new) }
{
    let _length = book.length();
    let mut port = SoloPort::new(book, pass);
    session.play(&mut port, command, ops)
}

impl<'a> Player<'a> {
    // Plays the next of the commands that are left, if there is one, and adds its line.
    pub(crate) fn play_next<F: Operation, G: Operation, H: Operation>(
        &mut self,
        book: &mut Book,
        ops: &Ops<F, G, H>,
    ) -> Result<(), NoMemory>
        requires seated { IsSeated book.old self.old.pass self.old.session }
        requires proper { All IsProperCommand self.old.left.now }
        requires room { length book.old.entries + length self.old.left.now ≤ book.old.room }
        ensures { OnOk result (HasPlayed (operations_of ops.now.first ops.now.second ops.now.third)
            book.old self.old book.new self.new) }
    {
        let left = self.left;
        let Some((command, rest)) = left.split_first() else {
            return Ok(());
        };
        let line = play_command(&mut self.session, book, &mut self.pass, command, ops)?;
        self.left = rest;
        add_line(&mut self.text, &line)
    }
}
