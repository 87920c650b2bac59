//! Minimal polynomials of the values of a finite field, over its prime field and over a subfield,
//! by one elimination that stops at the first power that depends on the lower ones.
#![tactic(auto)]

mod elimination;
mod minimal;
mod relations;
mod restrictions;

pub use minimal::{over, over_in, over_prime};
pub use restrictions::{restricted, restricted_in};

// The most places that a row has: those of a column, and as many coefficients.
pub(crate) const MAX_ROW: usize = 96;
