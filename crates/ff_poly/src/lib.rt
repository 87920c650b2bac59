//! Residues modulo a small prime, and polynomials over them, in a fixed room and without
//! allocation.
//!
//! Coefficients stand lowest first. The last one isn't zero, so that the zero polynomial has none.
#![tactic(auto)]

ghost use Rattle.std.specs.Prelude.{◌≡◌};

mod cofactors;
mod derivatives;
mod division;
mod divisors;
mod evaluation;
mod places;
mod polynomials;
mod powers;
mod products;
mod rows;
mod sums;
#[cfg(test)]
mod tests;

pub use divisors::Bezout;
pub use ff_residues::{CHARACTERISTICS, PRIMES, Prime, characteristics_in_order};
pub use polynomials::{Poly, compare_places};

/// The greatest degree of a field.
pub const MAX_DEGREE: usize = 48;

/// The greatest number of coefficients of a polynomial over a prime field.
pub const MAX_POLY: usize = 128;

/// The greatest number of coefficients of a polynomial over a field.
pub const MAX_POLYX: usize = 97;

/// The limits, as numbers.
pub fn limits()
    ensures { (MAX_DEGREE ≡ 48) × (MAX_POLY ≡ 128) × (MAX_POLYX ≡ 97) × (PRIMES ≡ 18) }
{}
