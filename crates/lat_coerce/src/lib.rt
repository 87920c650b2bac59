//! Answers to questions about a lattice of finite fields: values in other fields, common
//! overfields, meets, subfields and minimal polynomials.
//!
//! No call has an answer for want of memory.
#![tactic(auto)]

mod answers;
mod commons;
mod laws;
mod lifts;
mod lookups;
mod meets;
mod subfields;

pub use answers::answer;
pub use commons::common;
pub use laws::{answered_lifts_stay, lifts_lead_back, questions_have_one_answer};
pub use lifts::lift;
pub use meets::meet;
