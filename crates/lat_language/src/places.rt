//! Sessions by their names, and where a command belongs.

ghost use Rattle.std.specs.Prelude.{◌≡◌, ◌≤◌, ◌<◌, length, Contains, MatchOption, OnOk, OnErr};
ghost use Rattle.lat_language.specs.Grammar.{words_of, session_names, place_of, add_to_prologue, add_to_last};
ghost use Rattle.lat_language.specs.PrivateParsing.{AddsPlaces};

use crate::commands::Command;
use crate::cutting::first_word;
use crate::line_faults::LineFault;
use crate::script_faults::NO_SESSION;
use crate::scripts::{MAX_SESSIONS, SessionScript};
use crate::sequences::Sequence;
use lat_core::NoMemory;

// The place of the first session with this name; None exactly where none has it.
pub(crate) fn session_place(sessions: &[SessionScript], name: &[u8]) -> Option<usize>
    ensures { MatchOption result (¬ (Contains (session_names sessions.now) name.now))
        (λ place. Contains (session_names sessions.now) name.now
        × (place ≡ place_of (session_names sessions.now) name.now)
        × (place < length sessions.now)) }
{
    sessions
        .iter()
        .position(|session| session.name.bytes() == name)
}

// Adds the places of the sessions whose names are the words of the text, up to one that no session
// has.
pub(crate) fn push_places(
    schedule: &mut Sequence<u8>,
    sessions: &[SessionScript],
    names: &[u8],
) -> Result<(), LineFault>
    requires { length sessions.now ≤ MAX_SESSIONS }
    ensures { AddsPlaces sessions.now (words_of names.now) schedule.old schedule.new result }
{
    let mut rest = names;
    while let Some((name, after)) = first_word(rest) {
        let Some(place) = session_place(sessions, name) else {
            return Err(LineFault::Bad(NO_SESSION));
        };
        schedule.push(place as u8)?;
        rest = after;
    }
    Ok(())
}

// Adds a command to the prologue where no session is begun, else to the last session. Where memory
// is refused all is as before.
pub(crate) fn push_command(
    prologue: &mut Sequence<Command>,
    sessions: &mut Sequence<SessionScript>,
    command: Command,
) -> Result<(), NoMemory>
    ensures prologue { OnOk result
        (prologue.new ≡ add_to_prologue sessions.old prologue.old command) }
    ensures sessions { OnOk result (sessions.new ≡ add_to_last sessions.old command) }
    ensures prologue_err { OnErr result (prologue.new ≡ prologue.old) }
    ensures sessions_err { OnErr result (sessions.new ≡ sessions.old) }
{
    if sessions.items().is_empty() {
        prologue.push(command)
    } else {
        sessions.push_command(command)
    }
}
