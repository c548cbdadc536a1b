//! A journal as a keeper. An append in which the disk fails breaks it, or a reopening that fails, until it is reopened.

ghost use Rattle.std.specs.Prelude.{◌≡◌, ◌<◌, ◌≤◌, ◌+◌, ◌-◌, ◌^◌, ◌++◌, ◌∷◌, [], ℕ, List as Items, Option, Some, None};
ghost use Rattle.std.specs.Prelude.{false, true, refl, Bool, IsTrue, IfErr, IfOk, OnErr, OnOk, MatchResult, length};
ghost use Rattle.std.proofs.Common.{inl};
ghost use Rattle.rex_disk.specs.Calls.{HasRoom};
ghost use Rattle.rex_disk.specs.Stops.{LeavesOnly, Rests};
ghost use Rattle.rex_journal.specs.Journal.{AllShort, Holds, IsBad, StandsFor, entry};
ghost use Rattle.rex_journal.specs.Giving.{Appends, EndsAs, Goes, Opens, gate_left, records_cut, unsure_left};
ghost use Rattle.rex_journal.specs.Keeping.{AllStandFor, Breaks, CountsAppend, KeepsRecords};
ghost use Rattle.rex_journal.specs.Opening.{CountsAs, CountsFailed, IsCauseIn, Leaves, unsure_refused};
ghost use Rattle.rex_disk.specs.Calls.Call.{Reserves};

use crate::file::{GateLeft, commit, recover};
use crate::{OpenFault, Refused};
use rex_disk::Disk;
use rex_list::List;
use rex_traits::{KeepFault, Keeper};
use std::alloc::{AllocError, Global};
use std::marker::Model;

/// A keeper of records on a disk. It is broken after an append in which the disk failed, or a reopening that failed, until it is
/// reopened.
#[derive(Drop)]
pub struct JournalKeeper<D: Disk> {
    pub(crate) disk: D,
    records: Vec<List<u8>>,
    gate: u64,
    broken: bool,
    unsure: bool,
    pub(crate) refused: u64,
    pub(crate) alloc: Global,
}

impl<D: Disk> Model for JournalKeeper<D> {
    ghost use Rattle.rex_journal.specs.Keeping.{IsKept, JournalValue};

    ghost Value = { JournalValue D };

    ghost view = { λ k. record { disk = k.disk; records = k.records.items; broken = k.broken; unsure = k.unsure; refused = k.refused } };

    ghost invariant = { λ k. IsKept D.meets D.seen D.may_leave k.disk k.records.items k.gate k.broken k.unsure };
}

impl<D: Disk> JournalKeeper<D> {
    /// Opens the journal on a disk, as a stop may have left it, and closes the gate behind its records where that isn't 0.
    /// A disk of fewer than two bytes has no records.
    ///
    /// A refusal hands the disk back. A journal that is called bad is left as it was.
    pub fn open(alloc: Global, disk: D) -> Result<JournalKeeper<D>, Refused<D>>
        requires count { D.faults disk < 2 ^ 64 - 1 }
        ensures holds { IsTrue (D.meets disk) → IfOk result (λ k. Holds (D.seen disk) k.records) }
        ensures whole { IfOk result (λ k. (k.broken ≡ false) × (k.unsure ≡ false) × (k.refused ≡ 0)) }
        ensures safe { IfOk result (λ k. IsTrue (D.meets k.disk) → AllStandFor (D.may_leave k.disk) k.records None) }
        ensures bad { IsTrue (D.meets disk) → IfErr result (λ r. IsCauseIn IsBad (D.seen disk) r.fault) }
        ensures unread { IsTrue (D.meets disk) → IfErr result (λ r. Leaves IsBad (D.seen disk) (D.seen r.disk) r.fault) }
        ensures any_moment { (records : Items (Items ℕ)) (pending : Option (Items ℕ)) → IsTrue (D.meets disk) → AllShort records
            → AllStandFor (D.may_leave disk) records pending → MatchResult result
            (λ k. LeavesOnly D.moment D.left_since disk k.disk (StandsFor records pending))
            (λ r. LeavesOnly D.moment D.left_since disk r.disk (StandsFor records pending)) }
        ensures calls { MatchResult result (λ k. Goes D.gives disk k.disk) (λ r. EndsAs D.gives disk r.disk r.fault) }
        ensures cause { MatchResult result (λ k. D.faults k.disk ≡ D.faults disk) (λ r. CountsAs r.fault (D.faults disk) (D.faults r.disk)) }
        ensures model { MatchResult result (λ k. D.meets k.disk ≡ D.meets disk) (λ r. D.meets r.disk ≡ D.meets disk) }
    {
        let mut keeper = JournalKeeper::unopened(alloc, disk);
        match keeper.reopen() {
            Ok(()) => Ok(keeper),
            Err(fault) => Err(Refused {
                disk: keeper.into_disk(),
                fault,
            }),
        }
    }

    // A keeper of no records on a disk whose journal has still to be opened.
    fn unopened(alloc: Global, disk: D) -> JournalKeeper<D>
        ensures { result ≡ record { disk = disk; records = []; broken = true; unsure = true; refused = 0 } }
    {
        JournalKeeper {
            disk,
            records: Vec::new(alloc),
            gate: 0,
            broken: true,
            unsure: true,
            refused: 0,
            alloc,
        }
    }

    // The disk, handed back.
    fn into_disk(self) -> D
        ensures { result ≡ self.disk }
    {
        self.disk
    }

    /// Opens the journal on the keeper's disk again, as a stop may have left it. Then the keeper is no longer broken, and its
    /// count of faults stays.
    ///
    /// After an error the keeper is broken, with the records that it had. A journal that is called bad is left as it was.
    pub fn reopen(&mut self) -> Result<(), OpenFault>
        requires count { D.faults self.old.disk < 2 ^ 64 - 1 }
        ensures holds { IsTrue (D.meets self.old.disk) → OnOk result (Holds (D.seen self.old.disk) self.new.records) }
        ensures whole { OnOk result ((self.new.broken ≡ false) × (self.new.unsure ≡ false) × (self.new.refused ≡ self.old.refused)) }
        ensures safe { OnOk result (IsTrue (D.meets self.new.disk) → AllStandFor (D.may_leave self.new.disk) self.new.records None) }
        ensures bad { IsTrue (D.meets self.old.disk) → IfErr result (IsCauseIn IsBad (D.seen self.old.disk)) }
        ensures unread { IsTrue (D.meets self.old.disk) → IfErr result (Leaves IsBad (D.seen self.old.disk) (D.seen self.new.disk)) }
        ensures any_moment { (records : Items (Items ℕ)) (pending : Option (Items ℕ)) → IsTrue (D.meets self.old.disk) → AllShort records
            → AllStandFor (D.may_leave self.old.disk) records pending
            → LeavesOnly D.moment D.left_since self.old.disk self.new.disk (StandsFor records pending) }
        ensures calls { Opens D.gives self.old.disk self.new.disk result }
        ensures cause { CountsFailed (D.faults self.old.disk) (D.faults self.new.disk) result }
        ensures model { D.meets self.new.disk ≡ D.meets self.old.disk }
        ensures left { OnErr result ((self.new.broken ≡ true) × (self.new.records ≡ self.old.records) × (self.new.refused ≡ self.old.refused)) }
        ensures sure { IfErr result (λ e. self.new.unsure ≡ unsure_refused e self.old.unsure) }
    {
        match recover(self.alloc, &mut self.disk) {
            Ok(found) => {
                self.records = found.records;
                self.gate = found.gate as u64;
                self.broken = false;
                self.unsure = false;
                Ok(())
            }
            Err(fault) => {
                self.broken = true;
                self.unsure = is_unsure_after(fault, self.unsure);
                Err(fault)
            }
        }
    }

    /// Whether an append or a reopening has broken the keeper. Then appends fail until it is reopened.
    pub fn is_broken(&self) -> bool
        ensures { result ≡ self.now.broken }
    {
        self.broken
    }

    /// The disk.
    pub fn disk(&self) -> &D
        ensures { result.now ≡ self.now.disk }
    {
        &self.disk
    }
}

impl<D: Disk> Keeper for JournalKeeper<D> {
    ghost records = { λ k. k.records };

    ghost faults = { λ k. D.faults k.disk + k.refused };

    ghost append_gives = { λ old bytes result new. Appends D.gives D.meets D.faults old bytes result new };

    ghost may_run_out = { λ k bytes. inl refl };

    fn append(&mut self, bytes: &[u8]) -> Result<(), KeepFault>
        requires count { D.faults self.old.disk + self.old.refused < 2 ^ 64 - 1 }
        requires short { length bytes.now < 2 ^ 32 }
        ensures kept { KeepsRecords self.old.records self.new.records bytes.now result }
        ensures gives { Appends D.gives D.meets D.faults self.old bytes.now result self.new }
        ensures broken { Breaks self.old.broken self.new.broken result }
        ensures cause { CountsAppend self.old.broken (D.faults self.old.disk) (D.faults self.new.disk) self.old.refused self.new.refused result }
        ensures safe { IsTrue (D.meets self.new.disk) → self.new.broken ≡ false → AllStandFor (D.may_leave self.new.disk) self.new.records None }
        ensures untouched { self.old.broken ≡ true → self.new.disk ≡ self.old.disk }
        ensures any_moment { IsTrue (D.meets self.old.disk) → self.old.broken ≡ false
            → LeavesOnly D.moment D.left_since self.old.disk self.new.disk (StandsFor self.old.records (Some bytes.now)) }
        ensures model { D.meets self.new.disk ≡ D.meets self.old.disk }
    {
        if self.broken {
            self.refused += 1;
            return Err(KeepFault::Failed);
        }
        let count = self.records.len();
        let Ok(spelled) = prepare(&mut self.disk, &mut self.records, bytes, self.alloc) else {
            return Err(KeepFault::OutOfMemory);
        };
        match commit(&mut self.disk, self.gate, &spelled) {
            Ok(()) => {
                self.gate += spelled.len() as u64;
                Ok(())
            }
            Err(left) => {
                self.broken = true;
                let next = self.gate + spelled.len() as u64;
                fall(
                    &mut self.records,
                    &mut self.gate,
                    &mut self.unsure,
                    left,
                    count,
                    next,
                );
                Err(KeepFault::Failed)
            }
        }
    }

    fn len(&self) -> usize {
        self.records.len()
    }

    fn get(&self, index: usize) -> &[u8] {
        let bytes = &self.records[index];
        bytes.as_slice()
    }
}

// Whether the disk may read another list than the keeper's once its journal was not opened.
fn is_unsure_after(fault: OpenFault, unsure: bool) -> bool
    ensures { result ≡ unsure_refused fault unsure }
{
    match fault {
        OpenFault::Failed => true,
        OpenFault::BadJournal { .. } | OpenFault::OutOfMemory => unsure,
    }
}

// What is left of a keeper's list and its last gate where the append of the record behind so many others failed.
fn fall(
    records: &mut Vec<List<u8>>,
    gate: &mut u64,
    unsure: &mut bool,
    left: GateLeft,
    count: usize,
    next: u64,
)
    ensures records { records.new.items ≡ records_cut left count records.old.items }
    ensures gate { gate.new ≡ gate_left left gate.old next }
    ensures unsure { unsure.new ≡ unsure_left left }
{
    *unsure = false;
    match left {
        GateLeft::Closed => records.truncate(count),
        GateLeft::Unknown => {
            records.truncate(count);
            *unsure = true;
        }
        GateLeft::Open => *gate = next,
    }
}

// Takes all the memory that the append of a record needs, adds it to the records, and spells its entry.
fn prepare<D: Disk>(
    disk: &mut D,
    records: &mut Vec<List<u8>>,
    bytes: &[u8],
    alloc: Global,
) -> Result<Vec<u8>, AllocError>
    requires short { length bytes.now < 2 ^ 32 }
    ensures entry { IfOk result (λ e. e.items ≡ entry bytes.now) }
    ensures pushed { OnOk result (records.new.items ≡ records.old.items ++ bytes.now ∷ []) }
    ensures kept { OnErr result (records.new.items ≡ records.old.items) }
    ensures room { IfOk result (λ e. HasRoom 4 (length e.items + 1) (D.calls_left disk.new) (D.bytes_left disk.new) (length (D.seen disk.new))) }
    ensures length { length (D.seen disk.new) ≡ length (D.seen disk.old) }
    ensures seen { IsTrue (D.meets disk.old) → D.seen disk.new ≡ D.seen disk.old }
    ensures time { IsTrue (D.meets disk.old) → Rests (D.moment disk.old) (D.moment disk.new) (D.left_since disk.old) (D.left_since disk.new)
        (D.may_leave disk.old) (D.may_leave disk.new) }
    ensures faults { D.faults disk.new ≡ D.faults disk.old }
    ensures calls { (failed : Bool) × D.gives disk.old (Reserves 4 (length bytes.now + 6)) failed disk.new }
    ensures taken { OnOk result (D.gives disk.old (Reserves 4 (length bytes.now + 6)) false disk.new) }
    ensures model { D.meets disk.new ≡ D.meets disk.old }
{
    disk.reserve(4, bytes.len() as u64 + 6)?;
    let record = List::from_vec(bytes.to_vec(alloc)?);
    let len = bytes.len() as u32;
    let mut spelled = len.to_be_bytes().to_vec(alloc)?;
    spelled.extend_from_slice(bytes)?;
    spelled.push(0)?;
    records.push(record)?;
    Ok(spelled)
}
