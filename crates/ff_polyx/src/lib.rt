//! Polynomials over a finite field, in a fixed room and without allocation.
//!
//! Coefficients stand lowest first. The last one of a polynomial over a field (`IsPolynomial`) is
//! not zero there, so that the zero polynomial has none.
#![tactic(auto)]

mod division;
mod divisors;
mod evaluation;
mod images;
mod places;
mod polynomials;
mod powers;
mod products;
mod sums;

pub use polynomials::PolyX;
