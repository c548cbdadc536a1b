//! Records of hostile bytes, recovered and read by a plain reader.

use crate::durable::{CHECKPOINT, DROPPED, KNOWN, PROMISED, TRANSFERRED};
use crate::plain::{Plain, agree, bad_at, hostile, is_ballot, patched, put, put_value};
use rex_durable::{RecoverFault, Recovered, recover};
use rex_traits::{Keeper, SureKeeper};
use std::alloc::Global;
use std::process::Abort;
use std::test::*;

/// Ballot 18's value for instance 2, of three bytes, is accepted.
const ACCEPTED: [u8; 20] = [2, 0, 0, 0, 0, 0, 0, 0, 18, 0, 0, 0, 2, 0, 0, 0, 3, 7, 8, 9];

/// The second known value is two bytes.
const SECOND: [u8; 11] = [3, 0, 0, 0, 2, 0, 0, 0, 2, 5, 6];

/// The state after both values is a byte.
const BOTH: [u8; 10] = [4, 0, 0, 0, 2, 0, 0, 0, 1, 3];

/// The node took over the state after 258 values, which is a byte.
const AHEAD: [u8; 10] = [6, 0, 0, 1, 2, 0, 0, 0, 1, 4];

/// What earlier records say of where a further one may stand.
#[derive(Drop)]
struct Told {
    promised: u64,
    offset: u64,
    known: u64,
    base: u64,
}

/// The numbers of the last record, field by field, and then what all records say; or where its first bad field begins.
fn plain(rt: &impl Abort, alloc: Global, before: &[&[u8]], last: &[u8]) -> Result<Vec<u64>, usize> {
    let mut told = Told {
        promised: 0,
        offset: 0,
        known: 0,
        base: 0,
    };
    for record in before {
        let mut reader = Plain::new(alloc, record);
        plain_record(rt, &mut reader, &mut told);
        assert!(rt; reader.finish().is_ok());
    }
    let mut reader = Plain::new(alloc, last);
    plain_record(rt, &mut reader, &mut told);
    reader.note(rt, told.promised);
    reader.note(rt, told.offset);
    reader.note(rt, told.known);
    reader.note(rt, told.base);
    reader.finish()
}

fn plain_record(rt: &impl Abort, reader: &mut Plain, told: &mut Told) {
    match reader.within(rt, 1, 1, 6) {
        1 => ballot(rt, reader, told),
        2 => {
            ballot(rt, reader, told);
            reader.within(rt, 4, 1, 65_535);
            reader.value(rt);
        }
        3 => known(rt, reader, told),
        4 => {
            told.base = reader.within(rt, 4, told.offset.max(1), told.known);
            reader.value(rt);
        }
        5 => dropped(rt, reader, told),
        _ => transferred(rt, reader, told),
    }
}

fn ballot(rt: &impl Abort, reader: &mut Plain, told: &mut Told) {
    let ballot = reader.number(rt, 8);
    reader.allow(is_ballot(ballot));
    told.promised = told.promised.max(ballot);
}

fn known(rt: &impl Abort, reader: &mut Plain, told: &mut Told) {
    let instance = reader.within(rt, 4, 1, 65_535);
    reader.allow(told.known.saturating_add(1) == instance);
    reader.value(rt);
    told.known = instance;
}

fn dropped(rt: &impl Abort, reader: &mut Plain, told: &mut Told) {
    let instance = reader.number(rt, 4);
    reader.allow(told.offset < instance && instance == told.base);
    told.offset = instance;
}

fn transferred(rt: &impl Abort, reader: &mut Plain, told: &mut Told) {
    let count = reader.within(rt, 4, 1, 65_535);
    reader.allow(told.known < count);
    reader.value(rt);
    told.known = count;
    told.offset = count;
    told.base = count;
}

/// What `recover` answers, in the same form.
fn recovered(
    rt: &impl Abort,
    alloc: Global,
    before: &[&[u8]],
    last: &[u8],
) -> Result<Vec<u64>, usize> {
    let mut keeper = SureKeeper::new(alloc);
    for record in before {
        keep(rt, &mut keeper, record);
    }
    keep(rt, &mut keeper, last);
    match recover(alloc, &keeper) {
        Ok(recovered) => Ok(numbers_of(rt, alloc, &recovered, last)),
        Err(RecoverFault::BadRecord { number, at }) if number == keeper.len() => Err(at),
        Err(_) => Err(usize::MAX),
    }
}

fn keep(rt: &impl Abort, keeper: &mut SureKeeper, record: &[u8]) {
    assert!(rt; record.len() < 99);
    assert!(rt; keeper.append(record).is_ok());
}

/// Of the last record its kind, and of what was recovered what that kind of record says; then what all say.
fn numbers_of(rt: &impl Abort, alloc: Global, recovered: &Recovered, last: &[u8]) -> Vec<u64> {
    let mut numbers = Vec::new(alloc);
    let kind = last.first().copied().unwrap_or(0);
    put(rt, &mut numbers, &[kind as u64]);
    match kind {
        1 => put(rt, &mut numbers, &[recovered.promised]),
        2 => put_accepted(rt, &mut numbers, recovered),
        3 => put_known(rt, &mut numbers, recovered),
        5 => put(rt, &mut numbers, &[recovered.offset as u64]),
        _ => put_state(rt, &mut numbers, recovered),
    }
    let offset = recovered.offset as u64;
    let known = offset.saturating_add(recovered.known.len() as u64);
    put(
        rt,
        &mut numbers,
        &[recovered.promised, offset, known, recovered.base as u64],
    );
    numbers
}

fn put_accepted(rt: &impl Abort, numbers: &mut Vec<u64>, recovered: &Recovered) {
    if let Some(proposal) = recovered.accepted.as_slice().last() {
        put(rt, numbers, &[proposal.ballot, proposal.instance as u64]);
        put_value(rt, numbers, proposal.value.as_slice());
    }
}

fn put_known(rt: &impl Abort, numbers: &mut Vec<u64>, recovered: &Recovered) {
    if let Some(value) = recovered.known.as_slice().last() {
        let known = (recovered.offset as u64).saturating_add(recovered.known.len() as u64);
        put(rt, numbers, &[known]);
        put_value(rt, numbers, value.as_slice());
    }
}

fn put_state(rt: &impl Abort, numbers: &mut Vec<u64>, recovered: &Recovered) {
    if let Some(snapshot) = &recovered.snapshot {
        put(rt, numbers, &[recovered.base as u64]);
        put_value(rt, numbers, snapshot.as_slice());
    }
}

/// Where both find the first bad field of a record, if there is one; else they read the same.
fn both(rt: &impl Abort, alloc: Global, before: &[&[u8]], bytes: &[u8]) -> Option<usize> {
    let found = recovered(rt, alloc, before, bytes);
    let expected = plain(rt, alloc, before, bytes);
    assert!(rt;
        agree(&found, &expected),
        "{bytes:?}: {found:?}, {expected:?}"
    );
    bad_at(&found)
}

/// Compares both at all hostile bytes of a record that stands behind others, and says at how many.
fn compare(rt: &impl Abort, alloc: Global, before: &[&[u8]], bytes: &[u8]) -> u32 {
    let mut compared = 0_u32;
    for list in hostile(alloc, bytes).expect(rt, "memory") {
        both(rt, alloc, before, &list);
        compared = compared.saturating_add(1);
    }
    compared
}

/// Records, of which the last has 9, 20, 11, 10, 5, 10 or 9 bytes, and at how many lists of bytes in its place both are compared.
const COMPARED: [(&[&[u8]], &[u8], u32); 7] = [
    (&[], &PROMISED, 29),
    (&[&PROMISED], &ACCEPTED, 62),
    (&[&KNOWN], &SECOND, 35),
    (&[&KNOWN, &SECOND], &BOTH, 32),
    (&[&KNOWN, &CHECKPOINT], &DROPPED, 17),
    (&[&KNOWN], &AHEAD, 32),
    (&[], &TRANSFERRED, 29),
];

#[test]
fn hostile_records_are_read_as_by_a_plain_reader(rt: HostRuntime) {
    for (before, last, compared) in COMPARED {
        assert_eq!(rt;
            compare(&rt, rt.alloc(), before, last),
            compared,
            "{last:?}"
        );
    }
}

/// Bytes put in the place of others of the last record, so that a field has the greatest number that is allowed, or one more; their offset,
/// and that of the first bad field.
const EDGES: [(&[&[u8]], &[u8], usize, &[u8], Option<usize>); 14] = [
    (&[], &PROMISED, 1, &[0, 0, 0, 16, 0, 0, 0, 9], None),
    (&[], &PROMISED, 1, &[0, 0, 0, 16, 0, 0, 0, 10], Some(1)),
    (&[], &PROMISED, 1, &[0, 0, 0, 16, 0, 0, 0, 17], Some(1)),
    (&[], &ACCEPTED, 9, &[0, 0, 255, 255], None),
    (&[], &ACCEPTED, 9, &[0, 1, 0, 0], Some(9)),
    (&[], &ACCEPTED, 13, &[0, 64, 0, 0], Some(17)),
    (&[], &ACCEPTED, 13, &[0, 64, 0, 1], Some(13)),
    (&[&LAST_BUT_ONE], &SECOND, 1, &[0, 0, 255, 255], None),
    (&[&LAST], &SECOND, 1, &[0, 1, 0, 0], Some(1)),
    (&[&KNOWN, &SECOND], &BOTH, 4, &[1], None),
    (&[&KNOWN, &SECOND], &BOTH, 4, &[3], Some(1)),
    (&[], &AHEAD, 1, &[0, 0, 255, 255], None),
    (&[], &AHEAD, 1, &[0, 1, 0, 0], Some(1)),
    (&[&LAST], &AHEAD, 1, &[0, 0, 255, 255], Some(1)),
];

/// The node took over the state after 65,534 values, or after 65,535.
const LAST_BUT_ONE: [u8; 9] = [6, 0, 0, 255, 254, 0, 0, 0, 0];

const LAST: [u8; 9] = [6, 0, 0, 255, 255, 0, 0, 0, 0];

#[test]
fn records_are_read_up_to_their_limits(rt: HostRuntime) {
    for (before, last, at, new, bad) in EDGES {
        let edge = patched(&rt, rt.alloc(), last, at, new);
        let found = both(&rt, rt.alloc(), before, &edge);
        assert_eq!(rt; found, bad, "{edge:?}");
    }
}
