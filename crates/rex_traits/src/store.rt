//! What is said of any store: a keeper that can be armed, and reopened after a stop. `MemKeeper` is one.

ghost use Rattle.std.specs.Prelude.{◌≡◌, ◌≤◌, ◌<◌, ◌+◌, ◌-◌, ◌^◌, List, ℕ, Bool, true, false, IsTrue, IfErr, OnErr, OnOk, Option, Result};
ghost use Rattle.rex_traits.specs.Stores.{Obeys, armed_to, broken_as, reopened, value_by};
ghost use Rattle.rex_traits.specs.StoreLaws.{memory_counts, memory_obeys};
ghost use Rattle.rex_traits.specs.declared.keeper.KeepFault.{KeepFault};
ghost use Rattle.rex_traits.specs.declared.mem_keeper.Fate.{Fate as Arming};
ghost use Rattle.rex_traits.specs.declared.store.ReopenFault.TheVariants as reopen_fault;

use crate::{Fate, Keeper, MemKeeper};

/// Why a store was not reopened.
#[derive(Clone, Copy, Debug, PartialEq, Eq)]
pub enum ReopenFault {
    /// The store failed, or its records can't be read. One that fails only as it is armed never answers this.
    Unreadable,
    /// No memory was left.
    OutOfMemory,
}

/// A keeper whose next append can be made to fail, and that is reopened where the machine was stopped.
pub trait Store: Keeper + Drop {
    /// Whether the next append is to fail, and what becomes of its record then.
    ghost armed: { Self → Option Arming };

    /// Whether an append or a reopening has failed since the store was made or last reopened, so that appends may fail until it
    /// is reopened.
    /// A store that goes on by itself is never broken.
    ghost broken: { Self → Bool };

    /// Whether the store fails only as it is armed, as long as it isn't broken. No call ends that.
    ghost as_armed: { Self → Bool };

    /// Whether the store has to be reopened before it keeps another record.
    fn is_broken(&self) -> bool
        ensures { result ≡ broken self.now };

    /// Lets the next append fail, with its record kept or lost. A second call replaces the first. Nothing else changes.
    fn arm(&mut self, fate: Fate)
        ensures { IsTrue (as_armed self.old) → value_by Self.records Self.faults armed broken as_armed self.new ≡ armed_to fate
            (value_by Self.records Self.faults armed broken as_armed self.old) };

    /// Reopens the store as a stop of the machine may have left it. The records, the arming and the count of faults stay.
    ///
    /// After an error it may have to be reopened before it keeps another record. Nothing else has changed.
    fn reopen(&mut self) -> Result<(), ReopenFault>
        requires count { Self.faults self.old < 2 ^ 64 - 1 }
        ensures reopened { IsTrue (as_armed self.old) → OnOk result (value_by Self.records Self.faults armed broken as_armed self.new ≡ reopened
            (value_by Self.records Self.faults armed broken as_armed self.old)) }
        ensures spared { IsTrue (as_armed self.old) → OnErr result (value_by Self.records Self.faults armed broken as_armed self.new ≡ broken_as
            (broken self.new) (value_by Self.records Self.faults armed broken as_armed self.old)) }
        ensures memory { IsTrue (as_armed self.old) → IfErr result (λ e. e ≡ reopen_fault.OutOfMemory) };

    /// An append fails once at most.
    ghost counts: { (old new : Self) (bytes : List ℕ) (result : Result (Unit {0}) KeepFault) → Self.append_gives old bytes result new
        → Self.faults new ≤ Self.faults old + 1 };

    /// As long as it isn't broken, a store that fails only as it is armed obeys its arming.
    ghost obeys: { (old new : Self) (bytes : List ℕ) (result : Result (Unit {0}) KeepFault) → Self.append_gives old bytes result new
        → IsTrue (as_armed old) → broken old ≡ false → Obeys (value_by Self.records Self.faults armed broken as_armed old)
        (value_by Self.records Self.faults armed broken as_armed new) bytes result };
}

impl Store for MemKeeper {
    ghost armed = { λ k. k.armed };

    ghost broken = { λ _. false };

    ghost as_armed = { λ _. true };

    ghost counts = { λ old new bytes result gives. memory_counts old new bytes result gives };

    ghost obeys = { λ old new bytes result gives always whole. memory_obeys old new bytes result gives };

    fn is_broken(&self) -> bool {
        false
    }

    fn arm(&mut self, fate: Fate) {
        MemKeeper::arm(self, fate);
    }

    fn reopen(&mut self) -> Result<(), ReopenFault> {
        Ok(())
    }
}
