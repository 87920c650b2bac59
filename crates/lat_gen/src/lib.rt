//! Generated scripts: the script that a seed, a number of fields and a number of embeddings give.
#![tactic(auto)]

mod commands;
mod draws;
mod laws;
mod scripts;

pub use laws::generated_scripts;
pub use scripts::{MAX_GENERATED_EMBEDS, MAX_GENERATED_FIELDS, script_of};

#[cfg(test)]
mod tests;
