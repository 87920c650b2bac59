//! Irreducibility and factors of the monic polynomials of degree 1 to `MAX_DEGREE` over the
//! residues modulo a small prime, without allocation.
//!
//! A polynomial is judged irreducible with a certificate that a separate check accepts, or
//! reducible with its least factor.
#![tactic(auto)]

mod certificates;
mod columns;
mod factorization;
mod least;
mod linear;
mod polynomials;
mod splitting;
#[cfg(test)]
mod tests;
mod verdicts;

pub use certificates::{Cert, certificates_are_sound, check};
pub use factorization::{FactorList, factors};
pub use least::least_irreducible;
pub use verdicts::{Verdict, judge};
