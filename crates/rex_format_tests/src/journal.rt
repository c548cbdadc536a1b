//! A journal on a disk in memory: its bytes, what a stop at each call of an append leaves, and failures.

ghost use Rattle.std.specs.Prelude.{◌≡◌, ◌+◌, false, IfOk};

use rex_disk::{Fill, MemDisk};
use rex_journal::{JournalKeeper, OpenFault};
use rex_traits::{Fate, KeepFault, Keeper, Obedient};
use std::alloc::Global;
use std::test::*;

/// The record that ballot 17 was promised.
const PROMISED: [u8; 9] = [1, 0, 0, 0, 0, 0, 0, 0, 17];

/// The journal of that record alone.
const JOURNAL: [u8; 15] = [1, 0, 0, 0, 9, 1, 0, 0, 0, 0, 0, 0, 0, 17, 0];

/// The same behind a closed gate.
const SHUT: [u8; 15] = [0, 0, 0, 0, 9, 1, 0, 0, 0, 0, 0, 0, 0, 17, 0];

/// A closed gate, and 255 wherever its append first writes.
const FILLED: [u8; 15] = [
    0, 255, 255, 255, 255, 255, 255, 255, 255, 255, 255, 255, 255, 255, 255,
];

/// The append of the record to a journal without records, whose four calls have the numbers 3 to 6. The call that fails and
/// how a stop then fills what was written; the bytes once the journal is opened on that image, and how many records it has.
/// Where the call is the seventh, none fails and the append is acknowledged.
const STOPS: [(u64, Fill, &[u8], usize); 17] = [
    (3, Fill::Old, &[0], 0),
    (3, Fill::New, &SHUT, 0),
    (3, Fill::Byte(255), &FILLED, 0),
    (4, Fill::Old, &[0], 0),
    (4, Fill::New, &SHUT, 0),
    (4, Fill::Byte(255), &FILLED, 0),
    (5, Fill::Old, &SHUT, 0),
    (5, Fill::New, &JOURNAL, 1),
    (5, Fill::Byte(255), &SHUT, 0),
    (6, Fill::Old, &SHUT, 0),
    (6, Fill::New, &JOURNAL, 1),
    (6, Fill::Byte(255), &SHUT, 0),
    (6, Fill::Byte(7), &SHUT, 0),
    (6, Fill::Byte(1), &JOURNAL, 1),
    (7, Fill::Old, &JOURNAL, 1),
    (7, Fill::New, &JOURNAL, 1),
    (7, Fill::Byte(255), &JOURNAL, 1),
];

/// The bytes of a disk, the calls that fail, and why its journal isn't opened. The first call is the sync, the second reads.
const REFUSED: [(&[u8], &[u64], OpenFault); 7] = [
    (&[1, 0, 0, 0, 9, 1], &[], OpenFault::BadJournal { at: 0 }),
    (&[1, 0, 0, 0, 1, 5], &[], OpenFault::BadJournal { at: 0 }),
    (
        &[1, 0, 0, 0, 1, 5, 1, 0],
        &[],
        OpenFault::BadJournal { at: 6 },
    ),
    (&JOURNAL, &[1], OpenFault::Failed),
    (&JOURNAL, &[2], OpenFault::Failed),
    (&[7, 0], &[3], OpenFault::Failed),
    (&[7, 0], &[4], OpenFault::Failed),
];

/// The journal on a disk of these bytes, of which the calls with these numbers fail.
fn open(alloc: Global, bytes: &[u8], failing: &[u64]) -> Result<JournalKeeper<MemDisk>, Fail>
    ensures { IfOk result (λ k. (k.broken ≡ false) × (k.disk.faults + k.refused ≡ 0)) }
{
    match JournalKeeper::open(alloc, MemDisk::new(alloc, bytes, failing)?) {
        Ok(keeper) => Ok(keeper),
        Err(_) => Err("not opened")?,
    }
}

/// Why the journal on a disk of these bytes isn't opened.
fn refusal(alloc: Global, bytes: &[u8], failing: &[u64]) -> Result<OpenFault, Fail> {
    match JournalKeeper::open(alloc, MemDisk::new(alloc, bytes, failing)?) {
        Ok(_) => Err("opened")?,
        Err(refused) => Ok(refused.fault),
    }
}

/// Whether the append was acknowledged, and the journal on the image of a stop after the call that failed.
fn reopened_after(
    alloc: Global,
    failing: u64,
    fill: Fill,
) -> Result<(bool, JournalKeeper<MemDisk>), Fail> {
    let mut keeper = open(alloc, &[0], &[failing])?;
    let acknowledged = keeper.append(&PROMISED).is_ok();
    let image = keeper.disk().image(alloc, fill)?;
    Ok((acknowledged, open(alloc, &image, &[])?))
}

#[test]
fn a_record_is_spelled_behind_an_open_gate(rt: HostRuntime) -> Result<(), Fail> {
    let mut keeper = open(rt.alloc(), &[], &[])?;
    assert_eq!(rt; keeper.append(&PROMISED), Ok(()));
    assert_eq!(rt; keeper.disk().bytes(), JOURNAL.as_slice());
    assert_eq!(rt; keeper.len(), 1);
    assert_eq!(rt; keeper.get(0), PROMISED.as_slice());
    Ok(())
}

#[test]
fn a_stop_at_each_call_leaves_the_record_or_none(rt: HostRuntime) -> Result<(), Fail> {
    for (failing, fill, bytes, count) in STOPS {
        let (acknowledged, keeper) = reopened_after(rt.alloc(), failing, fill)?;
        assert_eq!(rt; acknowledged, failing == 7);
        assert_eq!(rt; keeper.disk().bytes(), bytes);
        assert_eq!(rt; keeper.len(), count);
    }
    Ok(())
}

#[test]
fn journals_are_refused_where_they_are_bad_or_the_disk_fails(rt: HostRuntime) -> Result<(), Fail> {
    for (bytes, failing, fault) in REFUSED {
        assert_eq!(rt; refusal(rt.alloc(), bytes, failing)?, fault);
    }
    Ok(())
}

#[test]
fn short_disks_have_no_records(rt: HostRuntime) -> Result<(), Fail> {
    for bytes in [[].as_slice(), [0].as_slice(), [1].as_slice()] {
        let keeper = open(rt.alloc(), bytes, &[])?;
        assert_eq!(rt; keeper.len(), 0);
        assert_eq!(rt; keeper.disk().bytes(), [0].as_slice());
    }
    Ok(())
}

#[test]
fn a_broken_keeper_fails_until_it_is_reopened(rt: HostRuntime) -> Result<(), Fail> {
    let mut keeper = open(rt.alloc(), &[], &[5])?;
    assert_eq!(rt; keeper.append(&PROMISED), Err(KeepFault::Failed));
    assert_eq!(rt; keeper.append(&PROMISED), Err(KeepFault::Failed));
    assert!(rt; keeper.is_broken());
    assert_eq!(rt; keeper.reopen(), Ok(()));
    assert!(rt; !keeper.is_broken());
    assert_eq!(rt; keeper.len(), 0);
    Ok(())
}

#[test]
fn an_armed_failure_keeps_the_record(rt: HostRuntime) -> Result<(), Fail> {
    let mut keeper = Obedient::new(JournalKeeper::in_memory(rt.alloc())?);
    keeper.arm(Fate::Kept);
    assert_eq!(rt; keeper.append(&PROMISED), Err(KeepFault::Failed));
    keeper.reopen()?;
    assert_eq!(rt; keeper.append(&[7]), Ok(()));
    assert_eq!(rt; keeper.len(), 2);
    Ok(())
}

#[test]
fn an_armed_failure_loses_the_record(rt: HostRuntime) -> Result<(), Fail> {
    let mut keeper = Obedient::new(JournalKeeper::in_memory(rt.alloc())?);
    keeper.arm(Fate::Lost);
    assert_eq!(rt; keeper.append(&PROMISED), Err(KeepFault::Failed));
    keeper.reopen()?;
    assert_eq!(rt; keeper.append(&[7]), Ok(()));
    assert_eq!(rt; keeper.len(), 1);
    Ok(())
}
