//! Why records can't be read.

ghost use Rattle.std.specs.Prelude.{◌≡◌};
ghost use Rattle.rex_durable.specs.declared.fault.RecoverFault.TheVariants.{OutOfMemory};

use std::alloc::AllocError;
use thiserror::Error;

/// Why a keeper's records say nothing of a node.
#[derive(Debug, Drop, Error)]
pub enum RecoverFault {
    /// The first bad record has this number, counted from 1. The first of its fields, from the left, that is absent, cut
    /// short or not allowed begins at this offset; for bytes after a whole record it is the record's length.
    #[error("the field at byte {at} of record {number} is bad")]
    BadRecord { number: usize, at: usize },
    #[error("out of memory")]
    OutOfMemory,
}

impl From<AllocError> for RecoverFault {
    ghost from_gives = { λ _ e. e ≡ OutOfMemory };

    fn from(_e: AllocError) -> RecoverFault {
        RecoverFault::OutOfMemory
    }
}
