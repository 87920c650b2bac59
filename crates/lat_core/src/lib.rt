//! The lattice of fields and the messages that change it and ask it: requests and replies,
//! questions and answers, and the lines that a session gives.
#![tactic(auto)]

mod digits;
mod editions;
mod lattices;
mod laws;
mod memory;
mod names;
mod number_lists;
mod opening;
mod outcomes;
mod ports;
mod questions;
mod replies;
mod requests;
mod rows;
mod shared_maps;
mod shared_rows;
mod tagged;

pub use digits::{Digits, MAX_DIGITS};
pub use editions::Edition;
pub use lattices::Lattice;
pub use laws::{
    histories_lead_to_one_lattice, plain_embeddings_are_found, requests_have_one_reply,
    requests_keep_compatible,
};
pub use memory::NoMemory;
pub use names::{FieldName, MAX_NAME};
pub use number_lists::NumberList;
pub use outcomes::{Line, Outcome, SessionRefusal};
pub use ports::Port;
pub use questions::{Answer, CoerceFault, Question};
pub use replies::{ChangeFault, Entry, Placed, Reply, StepRefusal};
pub use requests::Request;
pub use rows::{FieldRow, MapRow};
pub use shared_maps::SharedMap;
pub use shared_rows::SharedRow;
pub use tagged::{Sending, Tagged};

/// The greatest number of fields of a lattice.
pub const MAX_FIELDS: usize = 200;
