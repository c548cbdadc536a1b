//! What is said of any keeper that puts records off.

ghost use Rattle.std.specs.Prelude.{◌≡◌, ◌<◌, ◌-◌, ◌^◌, List, ℕ, Result};
ghost use Rattle.rex_traits.specs.Causes.{HasCause};
ghost use Rattle.rex_traits.specs.Keeping.{IsKeeperFault, StandsUnlessFailed};
ghost use Rattle.rex_traits.specs.declared.keeper.KeepFault.{KeepFault};
ghost use Rattle.rex_flush.specs.Flushing.{Flushes};

use rex_traits::{KeepFault, Keeper};

/// A keeper whose appended records wait, until a flush keeps them for good. A stop leaves those that are kept for good, and no others.
pub trait Flush: Keeper {
    /// The records that are kept for good: the first ones, in their order.
    ghost kept: { Self → List (List ℕ) };

    /// What else a flush with this answer may do to a keeper.
    ghost flush_gives: { Self → Result (Unit {0}) KeepFault → Self → Type 0 };

    /// Keeps all records for good, those that wait together: where it fails, either all of them or none are.
    fn flush(&mut self) -> Result<(), KeepFault>
        requires count { Self.faults self.old < 2 ^ 64 - 1 }
        ensures records { Self.records self.new ≡ Self.records self.old }
        ensures kept { Flushes (kept self.old) (kept self.new) (Self.records self.old) result }
        ensures cause { HasCause IsKeeperFault (Self.faults self.old) (Self.faults self.new) result }
        ensures stands { StandsUnlessFailed (Self.faults self.old) (Self.faults self.new) result }
        ensures gives { flush_gives self.old result self.new };

    /// An append keeps nothing for good.
    ghost appends_wait: { (old new : Self) (bytes : List ℕ) (result : Result (Unit {0}) KeepFault) → Self.append_gives old bytes result new
        → kept new ≡ kept old };
}
