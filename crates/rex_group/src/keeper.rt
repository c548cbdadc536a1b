//! A keeper of groups.

ghost use Rattle.std.specs.Prelude.{◌≡◌, ◌<◌, ◌≤◌, ◌+◌, ◌-◌, ◌^◌, ◌++◌, ◌∷◌, [], refl, length, slice_index_or, IfErr, IfOk, OnErr, OnOk};
ghost use Rattle.rex_wire.specs.Spelling.{value_bytes};
ghost use Rattle.rex_group.specs.Groups.{HoldAll};
ghost use Rattle.rex_group.specs.Keeping.{FlushesGroup, Waits, all_of, kept_stays};

use crate::GROUP;
use crate::reading::{Place, places_of};
use rex_flush::Flush;
use rex_traits::{KeepFault, Keeper};
use std::alloc::{AllocError, Global};
use std::marker::Model;

/// A keeper whose records wait in memory until a flush. A group is shorter than 2^32 bytes: an append that would make it longer answers
/// want of memory.
#[derive(Drop)]
pub struct GroupKeeper<K: Keeper> {
    keeper: K,
    /// Where each record stands; those that wait, in the group behind the last record of the keeper.
    places: Vec<Place>,
    /// How many of them the keeper has.
    kept: usize,
    /// The group of the others.
    group: Vec<u8>,
}

impl<K: Keeper> Model for GroupKeeper<K> {
    ghost use Rattle.rex_group.specs.Keeping.{GroupValue, IsGrouped, all_of, value_of};
    ghost use Rattle.rex_group.specs.Places.{records_at};

    ghost Value = { GroupValue K };

    ghost view = { λ g. value_of g.keeper (records_at (all_of (K.records g.keeper) g.group.items) g.places.items) g.kept };

    ghost invariant = { λ g. IsGrouped (K.records g.keeper) g.group.items g.places.items g.kept };
}

/// A keeper whose records were not read, for want of memory.
#[derive(Drop)]
pub struct NotRead<K> {
    pub keeper: K,
}

// A group without records.
fn new_group(alloc: Global) -> Result<Vec<u8>, AllocError>
    ensures { IfOk result (λ g. g.items ≡ GROUP ∷ []) }
{
    Ok(vec![in alloc; GROUP]?)
}

// Adds a record to a group, and its place to the others; or leaves both as they were.
fn push_record(
    group: &mut Vec<u8>,
    bytes: &[u8],
    places: &mut Vec<Place>,
    place: Place,
) -> Result<(), AllocError>
    requires short { length bytes.now < 2 ^ 32 }
    ensures ok { OnOk result (group.new.items ≡ group.old.items ++ value_bytes bytes.now) }
    ensures placed { OnOk result (places.new.items ≡ places.old.items ++ place ∷ []) }
    ensures err { OnErr result (group.new.items ≡ group.old.items) }
    ensures unplaced { OnErr result (places.new.items ≡ places.old.items) }
{
    // With this room nothing fails behind the push.
    group.reserve(bytes.len() + 4)?;
    places.push(place)?;
    group.extend_from_slice(&(bytes.len() as u32).to_be_bytes())?;
    group.extend_from_slice(bytes)?;
    Ok(())
}

// The bytes of a record of a keeper, and behind the last one those of the group that comes next.
fn bytes_of<'a, K: Keeper>(keeper: &'a K, next: &'a [u8], index: usize) -> &'a [u8]
    requires { index ≤ length (K.records keeper.now) }
    ensures { result.now ≡ slice_index_or (all_of (K.records keeper.now) next.now) index [] }
{
    if index < keeper.len() {
        keeper.get(index)
    } else {
        next
    }
}

impl<K: Keeper> GroupKeeper<K> {
    /// Reads which records a keeper has: each one that isn't a group, and those of each group.
    ///
    /// # Errors
    /// For want of memory the keeper is handed back.
    pub fn read(alloc: Global, keeper: K) -> Result<GroupKeeper<K>, NotRead<K>>
        ensures holds { IfOk result (λ g. HoldAll (K.records keeper) g.kept) }
        ensures none { IfOk result (λ g. g.waits ≡ []) }
        ensures below { IfOk result (λ g. g.keeper ≡ keeper) }
        ensures back { IfErr result (λ n. n.keeper ≡ keeper) }
    {
        let Ok(places) = places_of(alloc, &keeper) else {
            return Err(NotRead { keeper });
        };
        let Ok(group) = new_group(alloc) else {
            return Err(NotRead { keeper });
        };
        let kept = places.len();
        Ok(GroupKeeper {
            keeper,
            places,
            kept,
            group,
        })
    }

    /// The keeper below, with its records as they are; those that wait are lost.
    pub fn into_keeper(self) -> K
        ensures keeper { result ≡ self.keeper }
        ensures holds { HoldAll (K.records self.keeper) self.kept }
    {
        self.keeper
    }
}

impl<K: Keeper> Keeper for GroupKeeper<K> {
    ghost records = { λ g. g.kept ++ g.waits };

    ghost faults = { λ g. K.faults g.keeper };

    ghost append_gives = { λ old bytes result new. Waits old bytes result new };

    ghost may_run_out = { λ g bytes. refl };

    fn append(&mut self, bytes: &[u8]) -> Result<(), KeepFault>
        requires short { length bytes.now < 2 ^ 32 }
        ensures waits { Waits self.old bytes.now result self.new }
    {
        let index = self.keeper.len();
        let start = self.group.len() + 4;
        let end = start + bytes.len();
        if end > u32::MAX as usize {
            return Err(KeepFault::OutOfMemory);
        }
        let place = Place { index, start, end };
        let Ok(()) = push_record(&mut self.group, bytes, &mut self.places, place) else {
            return Err(KeepFault::OutOfMemory);
        };
        Ok(())
    }

    fn len(&self) -> usize {
        self.places.len()
    }

    fn get(&self, index: usize) -> &[u8] {
        let place = self.places[index];
        let bytes = bytes_of(&self.keeper, &self.group, place.index);
        &bytes[place.start..place.end]
    }
}

impl<K: Keeper> Flush for GroupKeeper<K> {
    ghost kept = { λ g. g.kept };

    ghost flush_gives = { λ old result new. FlushesGroup K.append_gives old result new };

    ghost appends_wait = { λ old new bytes result waits. kept_stays old new bytes result waits };

    fn flush(&mut self) -> Result<(), KeepFault> {
        if self.kept == self.places.len() {
            return Ok(());
        }
        let count = self.keeper.len();
        let answer = self.keeper.append(&self.group);
        // A keeper that failed may have kept the group all the same.
        if self.keeper.len() == count {
            return answer;
        }
        self.kept = self.places.len();
        self.group.truncate(1);
        answer
    }
}
