//! The statuses with which the program ends.

ghost use Rattle.std.specs.Prelude.{◌≡◌};
ghost use Rattle.rexnode_cli.specs.Statuses as spec;

use rex_identity::ClaimFault;
use rex_process::StartFault;
use rex_serve::Ended;
use rex_wal::OpenFault;

/// A read failed.
pub const READ_FAILED: u8 = 4;

/// A write failed.
pub const WRITE_FAILED: u8 = 5;

/// Memory was short.
pub const OUT_OF_MEMORY: u8 = 6;

/// The journal is bad, has a record that this node doesn't write, or is another's.
pub const BAD_JOURNAL: u8 = 7;

/// The journal's disk failed.
pub const DISK_FAILED: u8 = 8;

/// Another open of the journal holds its lock.
pub const JOURNAL_LOCKED: u8 = 9;

/// A frame is longer than any may be.
pub const FRAME_TOO_LONG: u8 = 10;

pub(crate) fn open_status(fault: OpenFault) -> u8
    ensures { result ≡ spec.open_status fault }
{
    match fault {
        OpenFault::Failed => DISK_FAILED,
        OpenFault::BadJournal { .. } => BAD_JOURNAL,
        OpenFault::OutOfMemory => OUT_OF_MEMORY,
    }
}

pub(crate) fn claim_status(fault: ClaimFault) -> u8
    ensures { result ≡ spec.claim_status fault }
{
    match fault {
        ClaimFault::Foreign => BAD_JOURNAL,
        ClaimFault::Failed => DISK_FAILED,
        ClaimFault::OutOfMemory => OUT_OF_MEMORY,
    }
}

pub(crate) fn start_status(fault: StartFault) -> u8
    ensures { result ≡ spec.start_status fault }
{
    match fault {
        StartFault::BadRecord { .. } | StartFault::Unfit { .. } => BAD_JOURNAL,
        StartFault::OutOfMemory => OUT_OF_MEMORY,
    }
}

pub(crate) fn ended_status(ended: Ended) -> u8
    ensures { result ≡ spec.ended_status ended }
{
    match ended {
        Ended::Over => 0,
        Ended::TooOften | Ended::Unread => READ_FAILED,
        Ended::TooLong => FRAME_TOO_LONG,
        Ended::Down => DISK_FAILED,
        Ended::Unwritten => WRITE_FAILED,
        Ended::OutOfMemory => OUT_OF_MEMORY,
    }
}
