//! The script language: its commands, the parser, the canonical text of a script, and the lines
//! that answer a script.
#![tactic(auto)]

mod appending;
mod commands;
mod cutting;
mod digits;
mod fixed_lines;
mod laws;
mod line_faults;
mod line_forms;
mod numbers;
mod operands;
mod parsing;
mod places;
mod printing;
mod script_faults;
mod scripts;
mod sequences;
mod texts;
mod verbs;

pub use commands::{Command, Op};
pub use digits::read_digits;
pub use fixed_lines::{BadLine, bad_line, too_long_line, usage_line};
pub use laws::{
    canonical_reading, limits, one_command, one_reading, printable_lines, spelled_texts,
};
pub use numbers::read_number;
pub use parsing::parse;
pub use printing::print_script;
pub use script_faults::{
    AFTER_SCHEDULE, NO_FORM, NO_HEADER, NO_SESSION, SESSION_TWICE, ScriptFault, TOO_LONG,
    TOO_MANY_COMMANDS, TOO_MANY_SESSIONS,
};
pub use scripts::{
    MAX_COMMANDS, MAX_LINE, MAX_SCRIPT, MAX_SESSIONS, SCHEDULE_NAMES, Script, SessionScript,
};
pub use sequences::Sequence;
pub use texts::{add_line, add_session, add_summary};

#[cfg(test)]
mod tests;
