//! One step of a lattice of finite fields: a field is declared, or one field is embedded in another
//! one, and the lattice stays compatible.
#![tactic(auto)]

mod declaring;
mod embedding;
mod laws;
mod room;
mod steps;

pub use laws::{
    insertions_are_as_worded, insertions_are_forced, irreducible_polynomials_are_declared,
    plain_embeddings_are_embedded,
};
pub use steps::step;
