//! Operations on the values of finite fields, kept as closures: each is a polynomial for each
//! characteristic, and a closure that gives its values.
#![tactic(auto)]

mod laws;
mod operations;
mod tables;
#[cfg(test)]
mod tests;

pub use laws::operations_commute;
pub use operations::{NaturalOp, Operation, Ops};
pub use tables::OpTable;
