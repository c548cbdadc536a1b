//! A journal as a keeper. An append in which the disk fails breaks it for good.

ghost use Rattle.std.specs.Prelude.{◌≡◌, ◌<◌, ◌≤◌, ◌+◌, ◌-◌, ◌^◌, ◌++◌, ◌∷◌, [], ℕ, List as Items, Option, Some, None};
ghost use Rattle.std.specs.Prelude.{false, true, refl, IsTrue, IfErr, IfOk, OnErr, OnOk, MatchResult, length};
ghost use Rattle.std.proofs.Common.{inl};
ghost use Rattle.rex_disk.specs.Calls.{HasRoom};
ghost use Rattle.rex_disk.specs.Calls.Call.{Reserves};
ghost use Rattle.rex_disk.specs.Stops.{LeavesOnly, Rests};
ghost use Rattle.rex_journal.specs.Keeping.{Breaks, CountsAppend, KeepsRecords};
ghost use Rattle.rex_wal.specs.Appending.{Appends, IsWritten, MayReserve};
ghost use Rattle.rex_wal.specs.Keeping.{AllStandFor};
ghost use Rattle.rex_wal.specs.Journal.{Holds, IsBad, StandsFor, entry};
ghost use Rattle.rex_journal.specs.Giving.{Goes};
ghost use Rattle.rex_journal.specs.Opening.{CountsAs, IsCauseIn, Leaves};
ghost use Rattle.rex_wal.specs.Opening.{EndsAs};

use crate::Refused;
use crate::file::{recover, write_through};
use crate::spell::spell;
use rex_file::ByteAtomic;
use rex_list::List;
use rex_traits::{KeepFault, Keeper};
use std::alloc::{AllocError, Global};
use std::marker::Model;

/// How many bytes 0 are written behind a record that reaches past the end of the disk, so that the next ones don't make it longer.
const ROOM: usize = 65_536;

/// A keeper of records on a disk. It is broken after an append in which the disk failed.
#[derive(Drop)]
pub struct WalKeeper<D: ByteAtomic> {
    disk: D,
    records: Vec<List<u8>>,
    end: u64,
    broken: bool,
    refused: u64,
    alloc: Global,
}

impl<D: ByteAtomic> Model for WalKeeper<D> {
    ghost use Rattle.rex_wal.specs.Keeping.{IsKept, WalValue};

    ghost Value = { WalValue D };

    ghost view = { λ k. record { disk = k.disk; records = k.records.items; broken = k.broken; refused = k.refused } };

    ghost invariant = { λ k. IsKept D.meets D.seen D.may_leave k.disk k.records.items k.end k.broken };
}

impl<D: ByteAtomic> WalKeeper<D> {
    /// Opens the journal on a disk, as a stop may have left it: begins it where no more than a part of its head is there, and writes 0 over
    /// what stands behind its last whole record.
    ///
    /// A refusal hands the disk back. What is no journal is left as it was.
    pub fn open(alloc: Global, mut disk: D) -> Result<WalKeeper<D>, Refused<D>>
        requires count { D.faults disk < 2 ^ 64 - 1 }
        ensures holds { IsTrue (D.meets disk) → IfOk result (λ k. Holds (D.seen disk) k.records) }
        ensures whole { IfOk result (λ k. (k.broken ≡ false) × (k.refused ≡ 0)) }
        ensures safe { IfOk result (λ k. IsTrue (D.meets k.disk) → AllStandFor (D.may_leave k.disk) k.records None) }
        ensures bad { IsTrue (D.meets disk) → IfErr result (λ r. IsCauseIn IsBad (D.seen disk) r.fault) }
        ensures unread { IsTrue (D.meets disk) → IfErr result (λ r. Leaves IsBad (D.seen disk) (D.seen r.disk) r.fault) }
        ensures any_moment { (records : Items (Items ℕ)) (pending : Option (Items ℕ)) → IsTrue (D.meets disk)
            → AllStandFor (D.may_leave disk) records pending → MatchResult result
            (λ k. LeavesOnly D.moment D.left_since disk k.disk (StandsFor records pending))
            (λ r. LeavesOnly D.moment D.left_since disk r.disk (StandsFor records pending)) }
        ensures calls { MatchResult result (λ k. Goes D.gives disk k.disk) (λ r. EndsAs D.gives disk r.disk r.fault) }
        ensures cause { MatchResult result (λ k. D.faults k.disk ≡ D.faults disk) (λ r. CountsAs r.fault (D.faults disk) (D.faults r.disk)) }
        ensures model { MatchResult result (λ k. D.meets k.disk ≡ D.meets disk) (λ r. D.meets r.disk ≡ D.meets disk) }
    {
        match recover(alloc, &mut disk) {
            Ok(found) => Ok(WalKeeper {
                disk,
                records: found.records,
                end: found.end as u64,
                broken: false,
                refused: 0,
                alloc,
            }),
            Err(fault) => Err(Refused { disk, fault }),
        }
    }

    /// The disk. Unless the keeper is broken, what a stop leaves of it holds the keeper's records and no others.
    pub fn into_disk(self) -> D
        ensures disk { result ≡ self.disk }
        ensures safe { IsTrue (D.meets self.disk) → self.broken ≡ false → AllStandFor (D.may_leave self.disk) self.records None }
    {
        self.disk
    }
}

impl<D: ByteAtomic> Keeper for WalKeeper<D> {
    ghost records = { λ k. k.records };

    ghost faults = { λ k. D.faults k.disk + k.refused };

    ghost append_gives = { λ old bytes result new. Appends D.gives D.meets D.may_leave D.faults old bytes result new };

    ghost may_run_out = { λ k bytes. inl refl };

    fn append(&mut self, bytes: &[u8]) -> Result<(), KeepFault>
        requires count { D.faults self.old.disk + self.old.refused < 2 ^ 64 - 1 }
        requires short { length bytes.now < 2 ^ 32 }
        ensures kept { KeepsRecords self.old.records self.new.records bytes.now result }
        ensures gives { Appends D.gives D.meets D.may_leave D.faults self.old bytes.now result self.new }
        ensures broken { Breaks self.old.broken self.new.broken result }
        ensures cause { CountsAppend self.old.broken (D.faults self.old.disk) (D.faults self.new.disk) self.old.refused self.new.refused result }
        ensures safe { IsTrue (D.meets self.new.disk) → self.new.broken ≡ false → AllStandFor (D.may_leave self.new.disk) self.new.records None }
        ensures untouched { self.old.broken ≡ true → self.new.disk ≡ self.old.disk }
        ensures any_moment { IsTrue (D.meets self.old.disk) → self.old.broken ≡ false
            → LeavesOnly D.moment D.left_since self.old.disk self.new.disk (StandsFor self.old.records (Some bytes.now)) }
        ensures model { D.meets self.new.disk ≡ D.meets self.old.disk }
    {
        if self.broken {
            self.refused += 1;
            return Err(KeepFault::Failed);
        }
        let count = self.records.len();
        let Ok(spelled) = prepare(
            &mut self.disk,
            &mut self.records,
            self.end,
            bytes,
            self.alloc,
        ) else {
            return Err(KeepFault::OutOfMemory);
        };
        match write_through(&mut self.disk, self.end, &spelled.bytes) {
            Ok(()) => {
                self.end += spelled.len;
                Ok(())
            }
            Err(_) => {
                self.broken = true;
                self.records.truncate(count);
                Err(KeepFault::Failed)
            }
        }
    }

    fn len(&self) -> usize {
        self.records.len()
    }

    fn get(&self, index: usize) -> &[u8] {
        let bytes = &self.records[index];
        bytes.as_slice()
    }
}

// What is to be written for a record, and how many bytes of it are its entry.
#[derive(Drop)]
struct Spelled {
    bytes: Vec<u8>,
    len: u64,
}

// Spells a record for a place with so many bytes before the end of the disk.
fn spell_at(alloc: Global, bytes: &[u8], left: u64) -> Result<Spelled, AllocError>
    ensures written { IfOk result (λ s. IsWritten bytes.now s.bytes.items) }
    ensures len { IfOk result (λ s. s.len ≡ length (entry bytes.now)) }
{
    let mut spelled = spell(alloc, bytes)?;
    let len = spelled.len() as u64;
    if len > left {
        spelled.resize(spelled.len() + ROOM, 0)?;
    }
    Ok(Spelled {
        bytes: spelled,
        len,
    })
}

// Takes all the memory that the append of a record needs, adds it to the records, and spells it.
fn prepare<D: ByteAtomic>(
    disk: &mut D,
    records: &mut Vec<List<u8>>,
    end: u64,
    bytes: &[u8],
    alloc: Global,
) -> Result<Spelled, AllocError>
    requires within { end ≤ length (D.seen disk.old) }
    ensures written { IfOk result (λ s. IsWritten bytes.now s.bytes.items) }
    ensures len { IfOk result (λ s. s.len ≡ length (entry bytes.now)) }
    ensures pushed { OnOk result (records.new.items ≡ records.old.items ++ bytes.now ∷ []) }
    ensures kept { OnErr result (records.new.items ≡ records.old.items) }
    ensures room { IfOk result (λ s. HasRoom 2 (length s.bytes.items) (D.calls_left disk.new) (D.bytes_left disk.new) (length (D.seen disk.new))) }
    ensures length { length (D.seen disk.new) ≡ length (D.seen disk.old) }
    ensures seen { IsTrue (D.meets disk.old) → D.seen disk.new ≡ D.seen disk.old }
    ensures time { IsTrue (D.meets disk.old) → Rests (D.moment disk.old) (D.moment disk.new) (D.left_since disk.old) (D.left_since disk.new)
        (D.may_leave disk.old) (D.may_leave disk.new) }
    ensures faults { D.faults disk.new ≡ D.faults disk.old }
    ensures calls { IfOk result (λ s. D.gives disk.old (Reserves 2 (length s.bytes.items)) false disk.new) }
    ensures gave_up { OnErr result (MayReserve D.gives disk.old disk.new) }
    ensures model { D.meets disk.new ≡ D.meets disk.old }
{
    let spelled = spell_at(alloc, bytes, disk.len() - end)?;
    let record = List::from_vec(bytes.to_vec(alloc)?);
    disk.reserve(2, spelled.bytes.len() as u64)?;
    records.push(record)?;
    Ok(spelled)
}
