//! The top call: words and bytes in, bytes and a status out.
#![tactic(auto)]

mod entry;
mod laws;
mod outputs;
mod run;
pub mod status;
mod tasks;
#[cfg(test)]
mod tests;

pub use entry::{run_tool_with, run_with};
pub use laws::{limits, one_answer, one_task};
pub use run::{MAX_INPUT, run_plain, run_tool};
pub use tasks::{Output, Task, task_of};
