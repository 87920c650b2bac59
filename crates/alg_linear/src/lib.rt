//! The theory of matrices over a field: lemmas for the crates above.
#![tactic(auto)]
