//! Players before their first command.

ghost use Rattle.std.specs.Prelude.{◌≡◌, ◌+◌, ◌++◌, ◌≤◌, length, map, sum_by, All, IfOk, OnOk};
ghost use Rattle.lat_session.specs.Commands.{IsProperCommand};
ghost use Rattle.lat_language.specs.Grammar.{session_commands};
ghost use Rattle.lat_playing.specs.Worlds.{new_session};
ghost use Rattle.lat_playing.specs.PrivatePlays.{shown, shown_player, opened, IsReady, AreReady, left_count};

use crate::players::Player;
use lat_core::NoMemory;
use lat_history::{Book, SoloPass};
use lat_language::{Command, MAX_SESSIONS, SessionScript};
use lat_session::Session;
use std::alloc::Global;

// The player of a session that opens: it has seen all entries of the book.
pub(crate) fn open_player<'a>(
    alloc: Global,
    book: &Book,
    number: u32,
    commands: &'a [Command],
) -> Result<Player<'a>, NoMemory>
    requires proper { All IsProperCommand commands.now }
    ensures player { IfOk result (λ player. shown_player player
        ≡ shown (new_session (length book.now.entries) commands.now)) }
    ensures ready { IfOk result (IsReady book.now number) }
{
    Ok(Player {
        session: Session::open(alloc),
        pass: SoloPass::open(book, number)?,
        left: commands,
        text: Vec::new(alloc),
    })
}

// The players of the sessions of a script, behind those that are there.
pub(crate) fn open_players<'a>(
    alloc: Global,
    book: &Book,
    players: &mut Vec<Player<'a>>,
    sessions: &'a [SessionScript],
) -> Result<(), NoMemory>
    requires ready { AreReady book.now players.old.items }
    requires proper { All (λ session. All IsProperCommand session.commands) sessions.now }
    requires few { length players.old.items + length sessions.now ≤ MAX_SESSIONS + 1 }
    requires room { length book.now.entries + left_count players.old.items
        + session_commands sessions.now ≤ book.now.room }
    ensures players { OnOk result (map shown_player players.new.items
        ≡ map shown_player players.old.items
        ++ map (opened (length book.now.entries)) sessions.now) }
    ensures ready { OnOk result (AreReady book.now players.new.items) }
{
    for session in sessions {
        let player = open_player(alloc, book, players.len() as u32, session.commands.items())?;
        players.push(player)?;
    }
    Ok(())
}
