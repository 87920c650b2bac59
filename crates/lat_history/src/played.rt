//! What a book answers to a change.

use lat_core::{Lattice, Placed};

/// The reply to a change and its place, and a view equal to the lattice after it.
#[derive(Drop)]
pub struct Played {
    pub placed: Placed,
    pub view: Lattice,
}
