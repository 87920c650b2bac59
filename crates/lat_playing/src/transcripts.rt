//! The lines of sessions, as they stand in a transcript.

ghost use Rattle.std.specs.Prelude.{◌≡◌, ◌+◌, ◌++◌, length, drop, slice_index_or, IfOk, OnOk};
ghost use Rattle.lat_playing.specs.declared.players.Player.{Player};
ghost use Rattle.lat_playing.specs.PrivateTranscripts.{player_blocks};

use crate::players::Player;
use lat_core::NoMemory;
use lat_language::{SessionScript, add_session};
use std::alloc::Global;

// Adds each session's name and lines; the players of the sessions stand behind the first one.
fn add_blocks(
    out: &mut Vec<u8>,
    sessions: &[SessionScript],
    players: &[Player],
) -> Result<(), NoMemory>
    requires { length players.now ≡ length sessions.now + 1 }
    ensures { OnOk result (out.new.items
        ≡ out.old.items ++ player_blocks sessions.now (drop 1 players.now)) }
{
    for (i, session) in sessions.iter().enumerate() {
        add_session(out, &session.name)?;
        out.extend_from_slice(&players[i + 1].text)?;
    }
    Ok(())
}

// The lines of the prologue, and then those of each session behind its name.
pub(crate) fn blocks(
    alloc: Global,
    sessions: &[SessionScript],
    players: &[Player],
) -> Result<Vec<u8>, NoMemory>
    requires { length players.now ≡ length sessions.now + 1 }
    ensures { IfOk result (λ out. (first : Player) → out.items
        ≡ (slice_index_or players.now 0 first).text.items
        ++ player_blocks sessions.now (drop 1 players.now)) }
{
    let mut out = Vec::new(alloc);
    out.extend_from_slice(&players[0].text)?;
    add_blocks(&mut out, sessions, players)?;
    Ok(out)
}
