//! The choice of an embedding of one field of a lattice into another one: the least value to which
//! the generator may be sent so that the map agrees with all common subfields.
//!
//! The call has no answer for want of memory.
#![tactic(auto)]

mod choices;
mod narrowing;
mod needed;

pub use choices::choice;
