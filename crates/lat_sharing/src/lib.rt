//! Playing a script with each of its sessions on a thread of its own.
#![tactic(auto)]

mod jobs;
mod plays;
mod sessions;

pub use plays::play_shared;
