//! What goes wrong outside.
ghost use Rattle.std.specs.Prelude.{◌≡◌};
ghost use Rattle.lat_io.specs.declared.faults.ReadFault.TheVariants.{Failed as read_failed, NoMemory as no_memory};

use std::alloc::AllocError;
use thiserror::Error;

/// A read or a write failed. The source or sink counted it.
#[derive(Clone, Copy, Debug, PartialEq, Eq, Error)]
#[error("a read or a write failed")]
pub struct Failed;

/// There was no memory.
#[derive(Clone, Copy, Debug, PartialEq, Eq, Error)]
#[error("out of memory")]
pub struct NoMemory;

/// Why [`read_all`](crate::read_all) gave no bytes.
#[derive(Clone, Copy, Debug, PartialEq, Eq, Error)]
pub enum ReadFault {
    /// A read failed.
    #[error("a read failed")]
    Failed,
    /// The source gave this many bytes, one more than the limit.
    #[error("the input has {0} bytes or more, which is over the limit")]
    TooLong(usize),
    /// There was no memory for the bytes.
    #[error("out of memory")]
    NoMemory,
}

impl From<AllocError> for NoMemory {
    fn from(_error: AllocError) -> NoMemory {
        NoMemory
    }
}

impl From<Failed> for ReadFault {
    ghost from_gives = { λ _ fault. fault ≡ read_failed };

    fn from(_fault: Failed) -> ReadFault {
        ReadFault::Failed
    }
}

impl From<AllocError> for ReadFault {
    ghost from_gives = { λ _ fault. fault ≡ no_memory };

    fn from(_error: AllocError) -> ReadFault {
        ReadFault::NoMemory
    }
}
