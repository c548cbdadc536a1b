//! A journal on a disk in memory, as a store whose failures are armed.

ghost use Rattle.std.specs.Prelude.{◌≡◌, ◌≤◌, ◌<◌, ◌+◌, ◌-◌, ◌^◌, [], false, Some, IsTrue, IfErr, IfOk, OnErr, OnOk};
ghost use Rattle.rex_disk.specs.Memory.{new_disk};
ghost use Rattle.rex_traits.specs.Stores.{armed_to, broken_as, fresh_store, reopened, value_by};
ghost use Rattle.rex_journal.specs.Storing.{IsSpared, armed_by, fails_as_armed, plan_of};
ghost use Rattle.rex_journal.specs.StoringLaws.{journal_counts, journal_obeys};
ghost use Rattle.rex_traits.specs.declared.store.ReopenFault.TheVariants as reopen_fault;
ghost use Rattle.rex_journal.specs.declared.fault.OpenFault.TheVariants as open_fault;

use crate::{JournalKeeper, OpenFault};
use rex_disk::{MemDisk, Plan};
use rex_traits::{Fate, Keeper, ReopenFault, Store};
use std::alloc::{AllocError, Global};

// The failure that arming plans: the first write of an append fails with nothing written, or its second sync fails where all
// is written.
fn plan_of_fate(fate: Fate) -> Plan
    ensures { result ≡ plan_of fate }
{
    match fate {
        Fate::Lost => Plan::Write,
        Fate::Kept => Plan::Sync { writes: 2 },
    }
}

// Why a journal was not opened, to those who know it as a store.
fn cause_of(fault: OpenFault) -> ReopenFault
    ensures { fault ≡ open_fault.OutOfMemory → result ≡ reopen_fault.OutOfMemory }
{
    match fault {
        OpenFault::OutOfMemory => ReopenFault::OutOfMemory,
        OpenFault::Failed | OpenFault::BadJournal { .. } => ReopenFault::Unreadable,
    }
}

// Opens the journal on a disk without bytes, of which no call is to fail.
fn open_empty(alloc: Global, disk: MemDisk) -> Result<JournalKeeper<MemDisk>, OpenFault>
    requires empty { disk ≡ new_disk [] [] }
    ensures fresh { IfOk result (λ k. value_by
        ⟦<JournalKeeper<MemDisk> as Keeper>⟧.records ⟦<JournalKeeper<MemDisk> as Keeper>⟧.faults
        ⟦<JournalKeeper<MemDisk> as Store>⟧.armed ⟦<JournalKeeper<MemDisk> as Store>⟧.broken
        ⟦<JournalKeeper<MemDisk> as Store>⟧.as_armed k ≡ fresh_store) }
    ensures memory { IfErr result (λ e. e ≡ open_fault.OutOfMemory) }
{
    match JournalKeeper::open(alloc, disk) {
        Ok(keeper) => Ok(keeper),
        Err(refused) => Err(refused.fault),
    }
}

impl JournalKeeper<MemDisk> {
    /// An empty journal on a disk in memory of its own, which fails only as it is armed.
    pub fn in_memory(alloc: Global) -> Result<JournalKeeper<MemDisk>, AllocError>
        ensures fresh { IfOk result (λ k. value_by
            ⟦<JournalKeeper<MemDisk> as Keeper>⟧.records ⟦<JournalKeeper<MemDisk> as Keeper>⟧.faults
            ⟦<JournalKeeper<MemDisk> as Store>⟧.armed ⟦<JournalKeeper<MemDisk> as Store>⟧.broken
            ⟦<JournalKeeper<MemDisk> as Store>⟧.as_armed k ≡ fresh_store) }
    {
        match open_empty(alloc, MemDisk::new(alloc, &[], &[])?) {
            Ok(keeper) => Ok(keeper),
            Err(OpenFault::OutOfMemory) => Err(AllocError),
            Err(OpenFault::Failed | OpenFault::BadJournal { .. }) => unreachable!(),
        }
    }

    fn set_plan(&mut self, plan: Option<Plan>)
        ensures { self.new ≡ record self.old { disk = record self.old.disk { plan = plan } } }
    {
        self.disk.set_plan(plan);
    }

    // Reopens the journal with nothing planned, so that no call of the disk fails unless it is named.
    fn reopen_unplanned(&mut self) -> Result<(), OpenFault>
        requires count { self.old.disk.faults < 2 ^ 64 - 1 }
        ensures spared { IsTrue (fails_as_armed self.old) → IsSpared self.old self.new }
        ensures whole { OnOk result (self.new.broken ≡ false) }
        ensures memory { IsTrue (fails_as_armed self.old) → IfErr result (λ e. e ≡ open_fault.OutOfMemory) }
    {
        self.disk.set_plan(None);
        JournalKeeper::reopen(self)
    }
}

impl Store for JournalKeeper<MemDisk> {
    ghost armed = { λ k. armed_by k.disk.plan };

    ghost broken = { λ k. k.broken };

    ghost as_armed = { λ k. fails_as_armed k };

    ghost counts = { λ old new bytes result gives. journal_counts old new bytes result gives };

    ghost obeys = { λ old new bytes result gives always whole. journal_obeys old new bytes result gives always whole };

    fn is_broken(&self) -> bool {
        JournalKeeper::is_broken(self)
    }

    fn arm(&mut self, fate: Fate) {
        self.set_plan(Some(plan_of_fate(fate)));
    }

    fn reopen(&mut self) -> Result<(), ReopenFault> {
        let plan = self.disk().plan();
        let reopened = self.reopen_unplanned();
        self.set_plan(plan);
        match reopened {
            Ok(()) => Ok(()),
            Err(fault) => Err(cause_of(fault)),
        }
    }
}
