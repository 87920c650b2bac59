//! One session: commands over a lattice that is reached through a port, and the variables that they
//! compute with.
#![tactic(auto)]

mod asking;
mod changes;
mod combining;
mod computing;
mod keeping;
mod laws;
mod pairs;
mod playing;
mod reading;
mod sessions;

pub use laws::{commands_have_one_outcome, outcomes_keep_variables};
pub use sessions::Session;

/// The most variables that a session holds.
pub const MAX_VARIABLES: usize = 1024;
