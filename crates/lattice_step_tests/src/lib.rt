//! Tests of what changes a lattice and of what is asked of it, across crates.
#![tactic(auto)]

#[cfg(test)]
mod choices;
#[cfg(test)]
mod coercions;
#[cfg(test)]
mod histories;
#[cfg(test)]
mod insertions;
#[cfg(test)]
mod values;
