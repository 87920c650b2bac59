//! The outside: where bytes come from and where they go.
//!
//! A [`Source`] gives bytes and a [`Sink`] takes them. Each counts its faults, so that a caller can
//! say that a read or a write failed exactly where that count rose. [`read_all`] reads a source to
//! its end and [`write_all_of`] writes a whole piece, both over any source or sink.
//!
//! [`MemorySource`] and [`MemorySink`] work over memory, in pieces and with faults where they are
//! asked for. [`StdSource`] and [`StdSink`] adapt std's `Read` and `Write`, and tell the bytes that
//! std knows of these.
#![tactic(auto)]

mod calls;
mod faults;
mod memory_sink;
mod memory_source;
mod sink;
mod source;
mod standard;
#[cfg(test)]
mod tests;

pub use faults::{Failed, NoMemory, ReadFault};
pub use memory_sink::MemorySink;
pub use memory_source::MemorySource;
pub use sink::{Sink, write_all_of};
pub use source::{MAX_LIMIT, Source, read_all};
pub use standard::{StdSink, StdSource};
