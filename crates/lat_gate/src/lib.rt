//! A lock with a count, under which a history only grows.
#![tactic(auto)]

ghost use Rattle.std.specs.Prelude.{◌≡◌};

pub mod amounts;
mod faults;
mod gate;
mod machine;
mod pass;
mod rule;
#[cfg(test)]
mod tests;
mod turn;
mod view;

pub use faults::NoMemory;
pub use gate::{Gate, MAX_PASSES};
pub use machine::Machine;
pub use pass::Pass;
pub use turn::Turn;

/// The limit, as a number.
pub fn limits()
    ensures { MAX_PASSES ≡ 16 }
{}
