//! Why a text is no dump of a compatible lattice.

ghost use Rattle.std.specs.Prelude.{◌≡◌};
ghost use Rattle.lat_audit.specs.declared.faults.Fault.TheVariants.{NoMemory as no_memory};

use lat_core::NoMemory;
use std::alloc::{AllocError, AllocFailed};

// The first fault of a text, or want of memory.
#[derive(Clone, Copy)]
pub(crate) enum Fault {
    Text(u32),
    Field(u32),
    Map(u32, u32),
    Rule(u32, u32, u32, u32),
    NoMemory,
}

impl From<NoMemory> for Fault {
    ghost from_gives = { λ _ made. made ≡ no_memory };

    fn from(_error: NoMemory) -> Fault {
        Fault::NoMemory
    }
}

impl From<AllocError> for Fault {
    ghost from_gives = { λ _ made. made ≡ no_memory };

    fn from(_error: AllocError) -> Fault {
        Fault::NoMemory
    }
}

impl<T: Drop> From<AllocFailed<T>> for Fault {
    ghost from_gives = { λ _ made. made ≡ no_memory };

    fn from(_error: AllocFailed<T>) -> Fault {
        Fault::NoMemory
    }
}
