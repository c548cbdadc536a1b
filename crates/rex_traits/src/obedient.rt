//! A store that fails only as it is armed, used as a keeper in memory is.

ghost use Rattle.std.specs.Prelude.{◌≡◌, ◌≤◌, ◌<◌, ◌+◌, ◌-◌, ◌^◌, false, length, refl, IsTrue, OnErr, OnOk};
ghost use Rattle.rex_traits.specs.Keeping.{armed_to};
ghost use Rattle.rex_traits.specs.Stores.{value_by};
ghost use Rattle.rex_traits.specs.Obeying.{ObeysArming, kept_value};

use crate::{Fate, KeepFault, Keeper, ReopenFault, Store};
use std::alloc::AllocError;
use std::marker::Model;

/// A store that fails only as it is armed, in the way of a keeper in memory: so code over such a keeper serves over any store.
///
/// Nothing is appended to a store that has to be reopened: such an append answers want of memory, and the store is as it was.
#[derive(Drop)]
pub struct Obedient<K: Store> {
    store: K,
}

impl<K: Store> Model for Obedient<K> {
    ghost use Rattle.std.specs.Prelude.{IsTrue};
    ghost use Rattle.rex_traits.specs.Keeping.{KeeperValue};
    ghost use Rattle.rex_traits.specs.Stores.{value_by};
    ghost use Rattle.rex_traits.specs.Obeying.{kept_value};

    ghost Value = { KeeperValue };

    ghost view = { λ o. kept_value (value_by K.records K.faults K.armed K.broken K.as_armed o.store) };

    ghost invariant = { λ o. IsTrue (K.as_armed o.store) };
}

impl<K: Store> Obedient<K> {
    /// The store as a keeper.
    pub fn new(store: K) -> Obedient<K>
        requires { IsTrue (K.as_armed store) }
        ensures { result ≡ kept_value (value_by K.records K.faults K.armed K.broken K.as_armed store) }
    {
        Obedient { store }
    }

    /// Lets the next append fail, with its record kept or lost. A second call replaces the first.
    pub fn arm(&mut self, fate: Fate)
        ensures { self.new ≡ armed_to fate self.old }
    {
        self.store.arm(fate);
    }

    /// Reopens the store as a stop of the machine may have left it. Then it needn't be reopened any more.
    ///
    /// After an error, which comes of want of memory, it may have to be. Nothing else has changed.
    pub fn reopen(&mut self) -> Result<(), AllocError>
        requires { self.old.faults < 2 ^ 64 - 1 }
        ensures reopened { OnOk result (self.new ≡ record self.old { broken = false }) }
        ensures spared { OnErr result (self.new ≡ record self.old { broken = self.new.broken }) }
    {
        match self.store.reopen() {
            Ok(()) => Ok(()),
            Err(ReopenFault::OutOfMemory) | Err(ReopenFault::Unreadable) => Err(AllocError),
        }
    }
}

impl<K: Store> Keeper for Obedient<K> {
    ghost records = { λ k. k.records };

    ghost faults = { λ k. k.faults };

    ghost append_gives = { λ old bytes result new. ObeysArming old new bytes result };

    ghost may_run_out = { λ k bytes. refl };

    fn append(&mut self, bytes: &[u8]) -> Result<(), KeepFault>
        requires count { self.old.faults < 2 ^ 64 - 1 }
        requires short { length bytes.now < 2 ^ 32 }
        ensures { ObeysArming self.old self.new bytes.now result }
    {
        if self.store.is_broken() {
            return Err(KeepFault::OutOfMemory);
        }
        self.store.append(bytes)
    }

    fn len(&self) -> usize {
        self.store.len()
    }

    fn get(&self, index: usize) -> &[u8] {
        self.store.get(index)
    }
}
