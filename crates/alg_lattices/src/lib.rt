//! The theory of lattices of compatibly embedded fields, over any kind of fields and embeddings
//! that keep the laws of `specs/Embeddings.antt`: lemmas for the crates above.
#![tactic(auto)]
