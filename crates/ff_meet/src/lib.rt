//! Sets of degrees, and their closure under greatest common divisors, in fixed room and without
//! allocation.
//!
//! The subfields of a finite field that a lattice stores have such degrees; two of them meet in a
//! field of degree gcd, as `alg_galois` proves. The clauses here speak of numbers alone.
#![tactic(auto)]

mod gcds;
mod sets;
#[cfg(test)]
mod tests;

pub use sets::DegreeSet;
