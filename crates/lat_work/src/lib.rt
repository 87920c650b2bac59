//! Jobs that run beside each other, each on a thread of its own.
#![tactic(auto)]

mod jobs;
#[cfg(test)]
mod tests;

pub use jobs::{Job, run_jobs};
