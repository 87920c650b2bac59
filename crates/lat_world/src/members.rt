//! Members: fields of a lattice that go into one field.
use ff_embed::StoredEmbedding;

/// The greatest number of members: a lattice has room for as many fields.
pub const MAX_MEMBERS: usize = 200;

/// A field of a lattice and its map into the field that all members go into.
#[derive(Drop)]
pub struct Member {
    /// The field's number in the lattice.
    pub number: u32,
    /// Its map.
    pub map: StoredEmbedding,
}
