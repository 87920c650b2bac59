//! Tests that cross crates, and the plain program that they compare with: the least factor by trial
//! division.
#![tactic(auto)]

#[cfg(test)]
mod comparisons;
#[cfg(test)]
mod embeddings;
#[cfg(test)]
mod field_polynomials;
#[cfg(test)]
mod field_roots;
#[cfg(test)]
mod field_values;
#[cfg(test)]
mod hand_examples;
#[cfg(test)]
mod lattices;
#[cfg(test)]
mod minimal_polynomials;
pub mod trial_division;
#[cfg(test)]
mod worlds;
