//! Fills a lattice of finite fields once an embedding between two of its fields is chosen: adds the
//! fields of the missing degrees, and all maps that are forced.
#![tactic(auto)]

mod degrees;
mod exits;
mod filling;
mod links;
mod made;
mod members;
mod outlets;

pub use degrees::{DegreeList, missing};
pub use filling::{Filled, fill};
