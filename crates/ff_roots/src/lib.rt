//! Roots of polynomials in a finite field, by traces.
//!
//! The lists of roots that are given stand least first, in the order of values: from the highest
//! place down, at the first difference.
#![tactic(auto)]

mod conjugates;
mod constants;
mod frobenius;
mod general;
mod lists;
mod parts;
mod places;

pub use conjugates::{common_roots, conjugate_roots};
pub use general::{one_root, roots};
pub use lists::RootList;
