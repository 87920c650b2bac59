//! Three operations on the values of finite fields that a program hands in: `a * a`, `a^p - a` for
//! the characteristic `p`, and `a + 1`, as tables of polynomials.
#![tactic(auto)]

mod laws;
mod tables;
#[cfg(test)]
mod tests;

pub use laws::tables_have_their_values;
pub use tables::{artin_schreier_table, square_table, successor_table};
