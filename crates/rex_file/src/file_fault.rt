//! Why a file isn't opened as a disk.

ghost use Rattle.std.specs.Prelude.{◌≡◌};
ghost use Rattle.rex_file.specs.Faults.{IsFaultOf, IsLockFault};
ghost use Rattle.rex_file.specs.declared.file_fault.FileFault.TheVariants as file_fault;

use std::alloc::AllocError;
use std::fs::TryLockError;
use std::io;

/// Why a file was not opened as a disk.
#[derive(Clone, Copy, Debug)]
pub enum FileFault {
    /// Another open of the file, in this process or in another one, holds its lock.
    Locked,
    /// What the system said of the file, its folder or what they lie on: that one of them failed, isn't there or may not be
    /// written, or that this isn't a regular file. A file that is shorter than it was said to be counts as failed, too.
    Failed(io::Error),
    /// No memory was left.
    OutOfMemory,
}

impl From<TryLockError> for FileFault {
    ghost from_gives = { λ error fault. IsLockFault error fault };

    fn from(error: TryLockError) -> Self {
        match error {
            TryLockError::WouldBlock => FileFault::Locked,
            TryLockError::Error(error) => FileFault::from(error),
        }
    }
}

impl From<io::Error> for FileFault {
    ghost from_gives = { λ error fault. IsFaultOf error fault };

    fn from(error: io::Error) -> Self {
        match error.kind() {
            io::ErrorKind::OutOfMemory => FileFault::OutOfMemory,
            _ => FileFault::Failed(error),
        }
    }
}

impl From<AllocError> for FileFault {
    ghost from_gives = { λ _ fault. fault ≡ file_fault.OutOfMemory };

    fn from(_: AllocError) -> Self {
        FileFault::OutOfMemory
    }
}
