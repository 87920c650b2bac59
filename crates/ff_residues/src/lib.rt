//! Residues modulo a small prime, and rows of them to which multiples of rows are added, in fixed
//! room and without allocation.
#![tactic(auto)]

ghost use Rattle.std.specs.Prelude.{◌≡◌};

mod places;
mod primes;
mod sums;
#[cfg(test)]
mod tests;

pub use primes::{CHARACTERISTICS, Prime, characteristics_in_order};
pub use sums::Sums;

/// The number of characteristics.
pub const PRIMES: usize = 18;

/// The greatest number of residues in a row of sums.
pub const MAX_WIDTH: usize = 128;

/// The limits, as numbers.
pub fn limits()
    ensures { (PRIMES ≡ 18) × (MAX_WIDTH ≡ 128) }
{}
