//! The fields of a lattice that go into one field: the degrees that they lack under greatest common
//! divisors, and the one map between each two of them that agrees with their maps into that field.
//!
//! Only the maps that are made take memory.
#![tactic(auto)]

mod laws;
mod members;
mod worlds;

pub use laws::forced_maps_are_determined;
pub use members::{MAX_MEMBERS, Member};
pub use worlds::World;
