//! Keepers in memory: one that fails only for want of memory, and one that can be armed, so that its next append fails.

ghost use Rattle.std.specs.Prelude.{◌≡◌, ◌<◌, ◌-◌, ◌^◌, ◌++◌, ◌∷◌, [], refl, OnErr, OnOk};
ghost use Rattle.rex_traits.specs.Keeping.{FailsNever, FollowsArming, after_fault, armed_to, unused_keeper};
ghost use Rattle.rex_traits.specs.Stores.{fresh_store, value_by};

use crate::{KeepFault, Keeper, Store};
use rex_list::List;
use std::alloc::{AllocError, Global};
use std::marker::Model;

/// A list of records in memory, to which no append fails but for want of memory.
#[derive(Drop)]
pub struct SureKeeper {
    records: List<List<u8>>,
    alloc: Global,
}

impl Model for SureKeeper {
    ghost use Rattle.std.specs.Prelude.{List, ℕ};

    ghost Value = { List (List ℕ) };

    ghost view = { λ k. k.records };
}

impl SureKeeper {
    /// A keeper without records.
    pub fn new(alloc: Global) -> SureKeeper
        ensures { result ≡ [] }
    {
        SureKeeper {
            records: List::new(alloc),
            alloc,
        }
    }

    fn push(&mut self, bytes: &[u8]) -> Result<(), AllocError>
        ensures ok { OnOk result (self.new ≡ self.old ++ bytes.now ∷ []) }
        ensures err { OnErr result (self.new ≡ self.old) }
    {
        let bytes = List::from_vec(bytes.to_vec(self.alloc)?);
        self.records.push(bytes)
    }
}

impl Keeper for SureKeeper {
    ghost records = { λ k. k };

    ghost faults = { λ _. 0 };

    ghost append_gives = { λ old bytes result new. FailsNever old new bytes result };

    ghost may_run_out = { λ k bytes. refl };

    fn append(&mut self, bytes: &[u8]) -> Result<(), KeepFault>
        ensures { FailsNever self.old self.new bytes.now result }
    {
        match self.push(bytes) {
            Ok(()) => Ok(()),
            Err(_) => Err(KeepFault::OutOfMemory),
        }
    }

    fn len(&self) -> usize {
        self.records.len()
    }

    fn get(&self, index: usize) -> &[u8] {
        let bytes = &self.records.as_slice()[index];
        bytes.as_slice()
    }
}

/// What becomes of the record of an append that fails.
#[derive(Clone, Copy, Debug, PartialEq, Eq)]
pub enum Fate {
    /// It is kept all the same.
    Kept,
    /// It is lost.
    Lost,
}

/// A list of records in memory, which can be armed: then the next append fails.
#[derive(Drop)]
pub struct MemKeeper {
    keeper: SureKeeper,
    armed: Option<Fate>,
    faults: u64,
}

impl Model for MemKeeper {
    ghost use Rattle.std.specs.Prelude.{false};
    ghost use Rattle.rex_traits.specs.Keeping.{KeeperValue};

    ghost Value = { KeeperValue };

    ghost view = { λ k. record { records = k.keeper; armed = k.armed; faults = k.faults; broken = false } };
}

impl MemKeeper {
    /// A keeper without records, not armed.
    pub fn new(alloc: Global) -> MemKeeper
        ensures value { result ≡ unused_keeper }
        ensures fresh { value_by
            ⟦<MemKeeper as Keeper>⟧.records ⟦<MemKeeper as Keeper>⟧.faults
            ⟦<MemKeeper as Store>⟧.armed ⟦<MemKeeper as Store>⟧.broken ⟦<MemKeeper as Store>⟧.as_armed result ≡ fresh_store }
    {
        MemKeeper {
            keeper: SureKeeper::new(alloc),
            armed: None,
            faults: 0,
        }
    }

    /// Lets the next append fail, with its record kept or lost. A second call replaces the first.
    pub fn arm(&mut self, fate: Fate)
        ensures { self.new ≡ armed_to fate self.old }
    {
        self.armed = Some(fate);
    }

    fn fail(&mut self)
        requires { self.old.faults < 2 ^ 64 - 1 }
        ensures { self.new ≡ after_fault self.old }
    {
        self.armed = None;
        self.faults += 1;
    }
}

impl Keeper for MemKeeper {
    ghost records = { λ k. k.records };

    ghost faults = { λ k. k.faults };

    ghost append_gives = { λ old bytes result new. FollowsArming old new bytes result };

    ghost may_run_out = { λ k bytes. refl };

    fn append(&mut self, bytes: &[u8]) -> Result<(), KeepFault>
        requires { self.old.faults < 2 ^ 64 - 1 }
        ensures { FollowsArming self.old self.new bytes.now result }
    {
        if let Some(Fate::Lost) = self.armed {
            self.fail();
            return Err(KeepFault::Failed);
        }
        self.keeper.append(bytes)?;
        if self.armed.is_some() {
            self.fail();
            return Err(KeepFault::Failed);
        }
        Ok(())
    }

    fn len(&self) -> usize {
        self.keeper.len()
    }

    fn get(&self, index: usize) -> &[u8] {
        self.keeper.get(index)
    }
}
