//! Exact arithmetic in finite fields of a small characteristic and of degree at most `MAX_DEGREE`,
//! in a fixed room and without allocation.
//!
//! A value is the list of its digits: the residues that are its coefficients on 1, x, x^2, .., as
//! many as the degree, lowest first.
#![tactic(auto)]

mod arithmetic;
mod conjugates;
mod fields;
mod frobenius;
mod inverses;
mod laws;
mod modulus;
mod powers;
mod tables;
mod traces;
mod values;

pub use fields::Field;
pub use laws::fields_are_finite;
pub use values::{Value, ValueFault};
