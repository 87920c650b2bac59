//! The exit statuses of the program.
ghost use Rattle.std.specs.Prelude.{◌≡◌};

/// The task was done, and its output written.
pub const DONE: u8 = 0;

/// The words name no task; the usage line was written.
pub const NO_COMMAND: u8 = 2;

/// The input is too long, or it is to be played and spells no script; its fault line was written.
pub const BAD_SCRIPT: u8 = 3;

/// A read failed; nothing was written.
pub const READ_FAILED: u8 = 4;

/// A write failed; the beginning of what was to be written was.
pub const WRITE_FAILED: u8 = 5;

/// There was no memory; nothing was written.
pub const NO_MEMORY: u8 = 6;

/// The input is to be judged and is no dump of a lattice; the line of its first fault was written.
pub const BAD_DUMP: u8 = 7;

/// The system didn't hand out the words; nothing was written. No run answers this.
pub const NO_WORDS: u8 = 8;
