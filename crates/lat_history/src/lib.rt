//! The history of a lattice, and how the sessions of one thread reach it.
#![tactic(auto)]

mod books;
mod laws;
mod played;
mod solo_passes;
mod solo_ports;

pub use books::Book;
pub use laws::seen_lifts_stay;
pub use played::Played;
pub use solo_passes::SoloPass;
pub use solo_ports::SoloPort;

/// The greatest room of a book: as many entries as a script has commands, and two more.
pub const MAX_ROOM: u32 = 20_002;
