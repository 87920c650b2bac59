//! Embeddings of finite fields as matrices, in a fixed room and without allocation.
//!
//! An embedding is the list of the images of 1, x, x^2, .., as many as the degree of the field that
//! it starts from; it sends one to one and keeps sums and products.
#![tactic(auto)]

mod columns;
mod compositions;
mod embeddings;
mod laws;
mod maps;
mod roots;
mod stored;
mod stored_columns;

pub use embeddings::Embedding;
pub use laws::embeddings_are_determined;
pub use stored::StoredEmbedding;
