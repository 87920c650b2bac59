//! Playing a script by its schedule.

ghost use Rattle.std.specs.Prelude.{◌≡◌, [], ◌+◌, ◌≤◌, length, All, IfOk, OnOk};
ghost use Rattle.lat_core.specs.Editions.{edition_of};
ghost use Rattle.lat_history.specs.Books.{empty_history};
ghost use Rattle.lat_session.specs.Commands.{IsProperCommand};
ghost use Rattle.lat_session.specs.Outcomes.{operations_of};
ghost use Rattle.lat_language.specs.Grammar.{session_commands};
ghost use Rattle.lat_playing.specs.Plays.{IsPlayable, Performs, PerformsPrologue};
ghost use Rattle.lat_playing.specs.PrivatePlays.{AreReady, HasPrologue, HasSolo};

use crate::openings::{open_player, open_players};
use crate::players::Player;
use crate::stages::{play_rest, play_schedule};
use crate::transcripts::blocks;
use lat_core::{Edition, NoMemory};
use lat_history::{Book, MAX_ROOM};
use lat_language::{Command, Script, SessionScript};
use natural_ops::{Operation, Ops};
use std::alloc::Global;

/// A script that was played: the book of all its changes, and the lines of its sessions as they
/// stand in the transcript.
#[derive(Drop)]
pub struct Performance {
    pub book: Book,
    pub lines: Vec<u8>,
}

// How many commands sessions have.
fn count_of(sessions: &[SessionScript]) -> usize
    requires { session_commands sessions.now ≤ MAX_ROOM }
    ensures { result ≡ session_commands sessions.now }
{
    let mut count = 0;
    for session in sessions {
        count += session.commands.items().len();
    }
    count
}

// The player of a prologue, which it has played.
fn play_prologue<'a, F: Operation, G: Operation, H: Operation>(
    alloc: Global,
    book: &mut Book,
    commands: &'a [Command],
    ops: &Ops<F, G, H>,
) -> Result<Vec<Player<'a>>, NoMemory>
    requires empty { book.old.entries ≡ [] }
    requires proper { All IsProperCommand commands.now }
    requires room { length commands.now ≤ book.old.room }
    ensures played { IfOk result (λ players. HasPrologue
        (operations_of ops.now.first ops.now.second ops.now.third) book.old commands.now book.new
        players.items) }
    ensures ready { IfOk result (λ players. AreReady book.new players.items) }
{
    let mut players = Vec::new(alloc);
    players.push(open_player(alloc, book, 0, commands)?)?;
    play_rest(book, &mut players, ops)?;
    Ok(players)
}

// All players of a script, which they have played.
fn play_all<'a, F: Operation, G: Operation, H: Operation>(
    alloc: Global,
    book: &mut Book,
    script: &'a Script,
    ops: &Ops<F, G, H>,
) -> Result<Vec<Player<'a>>, NoMemory>
    requires empty { book.old.entries ≡ [] }
    requires playable { IsPlayable script.now }
    requires room { length script.now.prologue + session_commands script.now.sessions
        ≤ book.old.room }
    ensures { IfOk result (λ players. HasSolo
        (operations_of ops.now.first ops.now.second ops.now.third) book.old script.now book.new
        players.items) }
{
    let mut players = play_prologue(alloc, book, script.prologue.items(), ops)?;
    open_players(alloc, book, &mut players, script.sessions.items())?;
    play_schedule(book, &mut players, script.schedule.items(), ops)?;
    play_rest(book, &mut players, ops)?;
    Ok(players)
}

// A book with no entries and room for all commands of a script.
fn open_book(alloc: Global, edition: Edition, script: &Script) -> Result<Book, NoMemory>
    requires { length script.now.prologue + session_commands script.now.sessions ≤ MAX_ROOM }
    ensures { IfOk result (λ book. book ≡ empty_history (edition_of edition)
        (length script.now.prologue + session_commands script.now.sessions)) }
{
    let commands = script.prologue.items().len() + count_of(script.sessions.items());
    Book::open(alloc, edition, commands as u32)
}

/// Plays the prologue of a script alone, over a book with room for all commands of the script.
///
/// A script is playable where each declared name is one, its commands are at most `MAX_ROOM`, and
/// its sessions at most `MAX_SESSIONS`. Memory for the whole history is taken at the beginning.
pub fn perform_prologue<F: Operation, G: Operation, H: Operation>(
    alloc: Global,
    edition: Edition,
    script: &Script,
    ops: &Ops<F, G, H>,
) -> Result<Performance, NoMemory>
    requires { IsPlayable script.now }
    ensures { IfOk result (PerformsPrologue (edition_of edition)
        (operations_of ops.now.first ops.now.second ops.now.third) script.now) }
{
    let mut book = open_book(alloc, edition, script)?;
    let players = play_prologue(alloc, &mut book, script.prologue.items(), ops)?;
    let lines = blocks(alloc, &[], &players)?;
    Ok(Performance { book, lines })
}

/// Plays a script by its schedule: the prologue, then a command of the session at each place of the
/// schedule, or nothing where it has none left, then all that is left, session after session.
///
/// A script is playable where each declared name is one, its commands are at most `MAX_ROOM`, and
/// its sessions at most `MAX_SESSIONS`. Memory for the whole history is taken at the beginning.
pub fn play_solo<F: Operation, G: Operation, H: Operation>(
    alloc: Global,
    edition: Edition,
    script: &Script,
    ops: &Ops<F, G, H>,
) -> Result<Performance, NoMemory>
    requires { IsPlayable script.now }
    ensures { IfOk result (Performs (edition_of edition)
        (operations_of ops.now.first ops.now.second ops.now.third) script.now) }
{
    let mut book = open_book(alloc, edition, script)?;
    let players = play_all(alloc, &mut book, script, ops)?;
    let lines = blocks(alloc, script.sessions.items(), &players)?;
    Ok(Performance { book, lines })
}
