//! The lattice and its history, shared by sessions on threads of their own.
#![tactic(auto)]

mod books;
mod session_passes;
mod shared;
mod shared_ports;
mod turns;

pub use session_passes::SessionPass;
pub use shared::Shared;
pub use shared_ports::SharedPort;
