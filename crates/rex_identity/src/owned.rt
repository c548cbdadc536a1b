//! A keeper whose first record says whose it is, as a keeper of the records behind it.

ghost use Rattle.std.specs.Prelude.{◌≡◌, ◌≢◌, ◌<◌, ◌-◌, ◌^◌, ◌∷◌, [], refl, Ok, OnOk, IfOk, IfErr, MatchResult, length, drop};
ghost use Rattle.rex_identity.specs.Identity.{identity_bytes};
ghost use Rattle.rex_identity.specs.Claims.{AppendsBelow, CountsAs, GivesFault, IsCause, IsFirst, Leaves};

use crate::{ClaimFault, Identity, NotOwned};
use rex_traits::{KeepFault, Keeper};
use std::alloc::Global;
use std::marker::Model;

/// A keeper that begins with the record of an identity, seen without that record.
#[derive(Drop)]
pub struct Owned<K: Keeper> {
    keeper: K,
    identity: Identity,
}

impl<K: Keeper> Model for Owned<K> {
    ghost use Rattle.rex_identity.specs.Identity.{identity_bytes};
    ghost use Rattle.rex_identity.specs.Claims.{IsFirst, OwnedValue};

    ghost Value = { OwnedValue K };

    ghost view = { λ o. record { keeper = o.keeper; identity = o.identity } };

    ghost invariant = { λ o. IsFirst (identity_bytes o.identity) (K.records o.keeper) };
}

// Appends the first record to a keeper without records.
fn append_first<K: Keeper>(keeper: &mut K, bytes: &[u8]) -> Result<(), ClaimFault>
    requires count { K.faults keeper.old < 2 ^ 64 - 1 }
    requires short { length bytes.now < 2 ^ 32 }
    requires none { K.records keeper.old ≡ [] }
    ensures appended { MatchResult result (λ done. K.append_gives keeper.old bytes.now (Ok done) keeper.new)
        (λ fault. GivesFault K.append_gives keeper.old bytes.now fault keeper.new) }
    ensures records { OnOk result (K.records keeper.new ≡ bytes.now ∷ []) }
    ensures cause { IfErr result (IsCause bytes.now (K.records keeper.old)) }
    ensures left { IfErr result (Leaves bytes.now (K.records keeper.old) (K.records keeper.new)) }
    ensures faults { MatchResult result (λ _. K.faults keeper.new ≡ K.faults keeper.old) (CountsAs (K.faults keeper.old) (K.faults keeper.new)) }
{
    match keeper.append(bytes) {
        Ok(()) => Ok(()),
        Err(KeepFault::Failed) => Err(ClaimFault::Failed),
        Err(KeepFault::OutOfMemory) => Err(ClaimFault::OutOfMemory),
    }
}

// Appends the identity's record to a keeper without records, and else compares the first record with it.
fn settle_owner<K: Keeper>(
    alloc: Global,
    keeper: &mut K,
    identity: &Identity,
) -> Result<(), ClaimFault>
    requires count { K.faults keeper.old < 2 ^ 64 - 1 }
    ensures records { OnOk result (K.records keeper.new ≡ identity_bytes identity.now ∷ drop 1 (K.records keeper.old)) }
    ensures untouched { K.records keeper.old ≢ [] → keeper.new ≡ keeper.old }
    ensures appended { K.records keeper.old ≡ [] → MatchResult result
        (λ done. K.append_gives keeper.old (identity_bytes identity.now) (Ok done) keeper.new)
        (λ fault. GivesFault K.append_gives keeper.old (identity_bytes identity.now) fault keeper.new) }
    ensures cause { IfErr result (IsCause (identity_bytes identity.now) (K.records keeper.old)) }
    ensures left { IfErr result (Leaves (identity_bytes identity.now) (K.records keeper.old) (K.records keeper.new)) }
    ensures faults { MatchResult result (λ _. K.faults keeper.new ≡ K.faults keeper.old) (CountsAs (K.faults keeper.old) (K.faults keeper.new)) }
{
    let Ok(bytes) = identity.spell(alloc) else {
        return Err(ClaimFault::OutOfMemory);
    };
    if keeper.len() == 0 {
        return append_first(keeper, &bytes);
    }
    if keeper.get(0) == bytes.as_slice() {
        Ok(())
    } else {
        Err(ClaimFault::Foreign)
    }
}

impl<K: Keeper> Owned<K> {
    /// Claims a keeper for an identity. One without records gets the identity's as its first; in any other that has to be the first
    /// already.
    ///
    /// # Errors
    /// The keeper is handed back: its first record is another one, it failed in this call, or memory was short.
    pub fn claim(alloc: Global, mut keeper: K, identity: Identity) -> Result<Owned<K>, NotOwned<K>>
        requires count { K.faults keeper < 2 ^ 64 - 1 }
        ensures records { IfOk result (λ o. K.records o.keeper ≡ identity_bytes identity ∷ drop 1 (K.records keeper)) }
        ensures identity { IfOk result (λ o. o.identity ≡ identity) }
        ensures untouched { K.records keeper ≢ [] → MatchResult result (λ o. o.keeper ≡ keeper) (λ r. r.keeper ≡ keeper) }
        ensures appended { K.records keeper ≡ [] → MatchResult result
            (λ o. K.append_gives keeper (identity_bytes identity) (Ok tt) o.keeper)
            (λ r. GivesFault K.append_gives keeper (identity_bytes identity) r.fault r.keeper) }
        ensures cause { IfErr result (λ r. IsCause (identity_bytes identity) (K.records keeper) r.fault) }
        ensures left { IfErr result (λ r. Leaves (identity_bytes identity) (K.records keeper) (K.records r.keeper) r.fault) }
        ensures faults { MatchResult result (λ o. K.faults o.keeper ≡ K.faults keeper) (λ r. CountsAs (K.faults keeper) (K.faults r.keeper) r.fault) }
    {
        match settle_owner(alloc, &mut keeper, &identity) {
            Ok(()) => Ok(Owned { keeper, identity }),
            Err(fault) => Err(NotOwned { keeper, fault }),
        }
    }

    /// The keeper with all its records, of which the first is the identity's.
    pub fn into_keeper(self) -> K
        ensures keeper { result ≡ self.keeper }
        ensures first { IsFirst (identity_bytes self.identity) (K.records self.keeper) }
    {
        self.keeper
    }
}

impl<K: Keeper> Keeper for Owned<K> {
    ghost records = { λ o. drop 1 (K.records o.keeper) };

    ghost faults = { λ o. K.faults o.keeper };

    ghost append_gives = { λ old bytes result new. AppendsBelow K.append_gives old bytes result new };

    ghost may_run_out = { λ o bytes. record { below = K.may_run_out o.keeper bytes; identity = refl } };

    fn append(&mut self, bytes: &[u8]) -> Result<(), KeepFault> {
        self.keeper.append(bytes)
    }

    fn len(&self) -> usize {
        self.keeper.len() - 1
    }

    fn get(&self, index: usize) -> &[u8] {
        // The count is a `usize`, so the index of the record is one, too.
        let count = self.keeper.len();
        prove!(index < count - 1);
        self.keeper.get(index + 1)
    }
}
