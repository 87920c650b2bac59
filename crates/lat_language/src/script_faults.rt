//! What can come instead of a script.

use thiserror::Error;

/// The kind of fault of a first line, among those that aren't passed over, that isn't the header
/// `lattice 1`.
pub const NO_HEADER: u32 = 1;

/// The kind of fault of a line with more than `MAX_LINE` bytes.
pub const TOO_LONG: u32 = 2;

/// The kind of fault of a line with none of the forms.
pub const NO_FORM: u32 = 3;

/// The kind of fault of a `session` line with `MAX_SESSIONS` others before it.
pub const TOO_MANY_SESSIONS: u32 = 4;

/// The kind of fault of a `session` line whose name an earlier one has.
pub const SESSION_TWICE: u32 = 5;

/// The kind of fault of a command with `MAX_COMMANDS` others before it.
pub const TOO_MANY_COMMANDS: u32 = 6;

/// The kind of fault of a `schedule` line with a name that no session has.
pub const NO_SESSION: u32 = 7;

/// The kind of fault of a command or a `session` line behind a `schedule` line.
pub const AFTER_SCHEDULE: u32 = 8;

/// Why bytes gave no script.
#[derive(Debug, Drop, Error)]
pub enum ScriptFault {
    /// The bytes spell no script: `number` is the first bad line, counted from 1, and `kind` is the
    /// kind of its fault, one of the constants of this module.
    #[error("line {number}: fault of kind {kind}")]
    Line { number: u32, kind: u32 },
    /// Memory was refused.
    #[error("out of memory")]
    NoMemory,
}
