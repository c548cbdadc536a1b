//! Why bytes can't be read.

ghost use Rattle.std.specs.Prelude.{◌≡◌};
ghost use Rattle.rex_wire.specs.declared.fault.DecodeError.TheVariants.{Bad, OutOfMemory};

use std::alloc::AllocError;
use thiserror::Error;

/// Fewer bytes are left than a field has. The field begins at this offset.
#[derive(Clone, Copy, Debug, PartialEq, Eq, Error)]
#[error("the field at byte {at} is cut short")]
pub struct Short {
    pub at: usize,
}

/// Bytes are left where none is due, from this offset on.
#[derive(Clone, Copy, Debug, PartialEq, Eq, Error)]
#[error("bytes are left from byte {at} on")]
pub struct Over {
    pub at: usize,
}

/// Why bytes are not what they should spell.
#[derive(Debug, Drop, Error)]
pub enum DecodeError {
    /// The first field from the left that is absent, cut short or not allowed begins at this offset; for bytes after a whole
    /// spelling it is the spelling's length.
    #[error("the field at byte {at} is bad")]
    Bad { at: usize },
    #[error("out of memory")]
    OutOfMemory,
}

impl From<Short> for DecodeError {
    ghost from_gives = { λ short e. e ≡ Bad short.at };

    fn from(short: Short) -> DecodeError {
        DecodeError::Bad { at: short.at }
    }
}

impl From<Over> for DecodeError {
    ghost from_gives = { λ over e. e ≡ Bad over.at };

    fn from(over: Over) -> DecodeError {
        DecodeError::Bad { at: over.at }
    }
}

impl From<AllocError> for DecodeError {
    ghost from_gives = { λ _ e. e ≡ OutOfMemory };

    fn from(_e: AllocError) -> DecodeError {
        DecodeError::OutOfMemory
    }
}
