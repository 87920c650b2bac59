//! Scripts: the commands of a prologue and of sessions, and a schedule.

use crate::commands::Command;
use crate::sequences::Sequence;
use lat_core::FieldName;

/// The most bytes of a script.
pub const MAX_SCRIPT: usize = 1_048_576;

/// The most bytes of a line, without its line feed.
pub const MAX_LINE: usize = 4_096;

/// The most commands of a script.
pub const MAX_COMMANDS: usize = 20_000;

/// The most sessions of a script besides its prologue.
pub const MAX_SESSIONS: usize = 16;

/// The most names of a `schedule` line that is printed.
pub const SCHEDULE_NAMES: usize = 100;

/// A session of a script: its name, which is a declared name, and its commands.
#[derive(Drop)]
pub struct SessionScript {
    pub name: FieldName,
    pub commands: Sequence<Command>,
}

/// A script: the commands of its prologue, its sessions, and its schedule, which holds positions in
/// the list of sessions.
#[derive(Drop)]
pub struct Script {
    pub prologue: Sequence<Command>,
    pub sessions: Sequence<SessionScript>,
    pub schedule: Sequence<u8>,
}
