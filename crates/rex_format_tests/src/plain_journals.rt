//! Journals of hostile bytes, opened and read by a plain reader.

use crate::plain::{agree, hostile, put_value};
use byteorder::{BigEndian, ByteOrder};
use rex_disk::MemDisk;
use rex_journal::{JournalKeeper, OpenFault};
use rex_traits::Keeper;
use std::alloc::Global;
use std::process::Abort;
use std::test::*;

/// A journal of two records, of three bytes and of none, with three bytes behind its last gate.
const RECORDS: [u8; 17] = [1, 0, 0, 0, 3, 1, 1, 9, 1, 0, 0, 0, 0, 0, 1, 255, 7];

/// For each record its length and bytes, and then those of the disk once it is opened; or where the gate stands that is bad.
fn plain(rt: &impl Abort, alloc: Global, bytes: &[u8]) -> Result<Vec<u64>, usize> {
    let mut numbers = Vec::new(alloc);
    if bytes.len() < 2 {
        put_value(rt, &mut numbers, &[0]);
        return Ok(numbers);
    }
    let rest = plain_records(rt, &mut numbers, bytes)?;
    let gate = bytes.len().saturating_sub(rest.len());
    put_value(rt, &mut numbers, shut(rt, alloc, bytes, gate).as_slice());
    Ok(numbers)
}

/// Reads the records, and says what is left from the first closed gate on; or where the gate stands that is bad.
fn plain_records<'a>(
    rt: &impl Abort,
    numbers: &mut Vec<u64>,
    bytes: &'a [u8],
) -> Result<&'a [u8], usize> {
    let mut rest = bytes;
    for _ in 0..bytes.len() {
        if rest.first() != Some(&1) {
            break;
        }
        match behind_gate(rest) {
            Some((record, next)) => {
                put_value(rt, numbers, record);
                rest = next;
            }
            None => return Err(bytes.len().saturating_sub(rest.len())),
        }
    }
    Ok(rest)
}

/// The record behind a gate, and what is left from the next gate on.
fn behind_gate(bytes: &[u8]) -> Option<(&[u8], &[u8])> {
    let (_gate, rest) = bytes.split_at_checked(1)?;
    let (length, rest) = rest.split_at_checked(4)?;
    let (record, rest) = rest.split_at_checked(BigEndian::read_u32(length) as usize)?;
    if rest.is_empty() {
        None
    } else {
        Some((record, rest))
    }
}

/// The bytes with 0 in the gate.
fn shut(rt: &impl Abort, alloc: Global, bytes: &[u8], gate: usize) -> Vec<u8> {
    let mut shut = bytes.to_vec(alloc).expect(rt, "memory");
    if let Some(place) = shut.get_mut(gate) {
        *place = 0;
    }
    shut
}

/// What opening the journal answers, in the same form.
fn opened(rt: &impl Abort, alloc: Global, bytes: &[u8]) -> Result<Vec<u64>, usize> {
    let disk = MemDisk::new(alloc, bytes, &[]).expect(rt, "memory");
    match JournalKeeper::open(alloc, disk) {
        Ok(keeper) => Ok(numbers_of(rt, alloc, &keeper)),
        Err(refused) => match refused.fault {
            OpenFault::BadJournal { at } => Err(at as usize),
            _ => Err(usize::MAX),
        },
    }
}

fn numbers_of(rt: &impl Abort, alloc: Global, keeper: &JournalKeeper<MemDisk>) -> Vec<u64> {
    let mut numbers = Vec::new(alloc);
    for n in 0..keeper.len() {
        put_value(rt, &mut numbers, keeper.get(n));
    }
    put_value(rt, &mut numbers, keeper.disk().bytes());
    numbers
}

#[test]
fn hostile_journals_are_read_as_by_a_plain_reader(rt: HostRuntime) {
    let mut compared = 0_u32;
    for list in hostile(rt.alloc(), &RECORDS).expect(&rt, "memory") {
        let found = opened(&rt, rt.alloc(), &list);
        let expected = plain(&rt, rt.alloc(), &list);
        assert!(rt;
            agree(&found, &expected),
            "{list:?}: {found:?}, {expected:?}"
        );
        compared = compared.saturating_add(1);
    }
    assert_eq!(rt; compared, 53);
}
