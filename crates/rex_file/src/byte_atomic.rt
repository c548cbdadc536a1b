//! What is said of a disk whose writes tear between bytes only.

ghost use Rattle.std.specs.Prelude.{ℕ, Bool, List, IsTrue};
ghost use Rattle.rex_disk.specs.Calls.Call.{Writes};
ghost use Rattle.rex_file.specs.Mixing.{Mixes};
ghost use Rattle.rex_file.specs.MixingLaws.{write_mixes};

use crate::FileDisk;
use rex_disk::Disk;

/// A disk whose writes tear between bytes only: in the range of a write that wasn't synced, a stop leaves of each byte the old one, 0
/// past the old end, or the one that was written.
pub trait ByteAtomic: Disk {
    /// What a stop may leave of a write.
    ghost mixes: { (old new : Self) (at : ℕ) (bytes : List ℕ) (failed : Bool) → Self.gives old (Writes at bytes) failed new → IsTrue (Self.meets old)
        → Mixes at bytes (Self.may_leave old) (Self.may_leave new) };
}

impl ByteAtomic for FileDisk {
    ghost mixes = { λ old new at bytes failed gives meets. write_mixes old.first new.first old.done new.done at bytes failed gives.same_first gives.recorded };
}
