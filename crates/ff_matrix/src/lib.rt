//! Matrices over the residues modulo a small prime, in a fixed room and without allocation:
//! products, reduced row echelon form, kernel, solutions and left inverses.
#![tactic(auto)]

mod columns;
mod echelon;
mod elimination;
mod matrices;
mod places;
mod solutions;
#[cfg(test)]
mod tests;

pub use columns::{Column, ColumnList};
pub use echelon::Echelon;
use ff_poly::MAX_DEGREE;
pub use matrices::Matrix;

/// The most places that a row of a matrix beside the identity has.
pub const MAX_WIDTH: usize = 2 * MAX_DEGREE;
