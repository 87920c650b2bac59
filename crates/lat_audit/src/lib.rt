//! Dumps: the text of a lattice, and the verdict on a text that is meant to be one.
#![tactic(auto)]

mod compositions;
mod contents;
mod cuts;
mod dumps;
mod faults;
mod fields;
mod laws;
mod line_forms;
mod lines;
mod maps;
mod readings;
mod rules;
mod tables;
mod verdict_lines;
mod verdicts;

pub use dumps::write_dump;
pub use laws::{dump_is_good, one_spelling, one_verdict, some_verdict};
pub use line_forms::MAX_MAPS;
pub use verdict_lines::{MAX_DUMP, VerdictLine, dump_too_long_line, verdict_line};
pub use verdicts::{AuditVerdict, audit};

#[cfg(test)]
mod audit_tests;
#[cfg(test)]
mod tests;
