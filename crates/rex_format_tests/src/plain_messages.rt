//! Messages of hostile bytes, read by the codec and by a plain reader.

use crate::msg::{ACCEPT, MESSAGES, PREPARE, SNAPSHOT};
use crate::plain::{Plain, agree, bad_at, hostile, is_ballot, patched, put, put_value};
use rex_msg::{Content, DecodeError, Message, decode};
use std::alloc::Global;
use std::process::Abort;
use std::test::*;

/// The numbers of a message, field by field, or where the first bad field begins.
fn plain(rt: &impl Abort, alloc: Global, bytes: &[u8]) -> Result<Vec<u64>, usize> {
    let mut reader = Plain::new(alloc, bytes);
    reader.within(rt, 1, 1, 1);
    let kind = reader.within(rt, 1, 1, 8);
    let from = reader.within(rt, 1, 1, 9);
    let to = reader.within(rt, 1, 1, 9);
    reader.allow(to != from);
    content(rt, &mut reader, kind);
    reader.finish()
}

fn content(rt: &impl Abort, reader: &mut Plain, kind: u64) {
    match kind {
        1 => {
            ballot(rt, reader);
            first(rt, reader);
        }
        2 => promise(rt, reader),
        3 => {
            ballot(rt, reader);
            instance(rt, reader);
            reader.value(rt);
        }
        4 => {
            ballot(rt, reader);
            instance(rt, reader);
        }
        5 | 8 => {
            instance(rt, reader);
            reader.value(rt);
        }
        6 => nack(rt, reader),
        _ => first(rt, reader),
    }
}

fn ballot(rt: &impl Abort, reader: &mut Plain) -> u64 {
    let ballot = reader.number(rt, 8);
    reader.allow(is_ballot(ballot));
    ballot
}

fn instance(rt: &impl Abort, reader: &mut Plain) -> u64 {
    reader.within(rt, 4, 1, 65_535)
}

fn first(rt: &impl Abort, reader: &mut Plain) {
    reader.within(rt, 4, 1, 65_536);
}

fn nack(rt: &impl Abort, reader: &mut Plain) {
    let ballot = ballot(rt, reader);
    let promised = reader.number(rt, 8);
    reader.allow(ballot < promised);
}

fn promise(rt: &impl Abort, reader: &mut Plain) {
    ballot(rt, reader);
    let count = reader.number(rt, 2);
    let mut before = 0;
    for _ in 0..count {
        let instance = instance(rt, reader);
        reader.allow(before < instance);
        ballot(rt, reader);
        reader.value(rt);
        before = instance;
    }
}

/// What `decode` answers, in the same form.
fn decoded(rt: &impl Abort, alloc: Global, bytes: &[u8]) -> Result<Vec<u64>, usize> {
    match decode(alloc, bytes) {
        Ok(message) => Ok(numbers_of(rt, alloc, &message)),
        Err(DecodeError::Bad { at }) => Err(at),
        Err(DecodeError::OutOfMemory) => Err(usize::MAX),
    }
}

fn numbers_of(rt: &impl Abort, alloc: Global, message: &Message) -> Vec<u64> {
    let mut numbers = Vec::new(alloc);
    put(
        rt,
        &mut numbers,
        &[
            1,
            kind_of(&message.content),
            message.from as u64,
            message.to as u64,
        ],
    );
    put_content(rt, &mut numbers, &message.content);
    numbers
}

fn kind_of(content: &Content) -> u64 {
    match content {
        Content::Prepare { .. } => 1,
        Content::Promise { .. } => 2,
        Content::Accept { .. } => 3,
        Content::Accepted { .. } => 4,
        Content::Chosen { .. } => 5,
        Content::Nack { .. } => 6,
        Content::Ask { .. } => 7,
        Content::Snapshot { .. } => 8,
    }
}

fn put_content(rt: &impl Abort, numbers: &mut Vec<u64>, content: &Content) {
    match content {
        Content::Prepare { ballot, first } => put(rt, numbers, &[*ballot, *first as u64]),
        Content::Promise { ballot, accepted } => {
            put(rt, numbers, &[*ballot, accepted.len() as u64]);
            for proposal in accepted.as_slice() {
                put(rt, numbers, &[proposal.instance as u64, proposal.ballot]);
                put_value(rt, numbers, proposal.value.as_slice());
            }
        }
        Content::Accept {
            ballot,
            instance,
            value,
        } => {
            put(rt, numbers, &[*ballot, *instance as u64]);
            put_value(rt, numbers, value.as_slice());
        }
        Content::Accepted { ballot, instance } => put(rt, numbers, &[*ballot, *instance as u64]),
        Content::Chosen { instance, value } => {
            put(rt, numbers, &[*instance as u64]);
            put_value(rt, numbers, value.as_slice());
        }
        Content::Nack { ballot, promised } => put(rt, numbers, &[*ballot, *promised]),
        Content::Ask { first } => put(rt, numbers, &[*first as u64]),
        Content::Snapshot { deltas, snapshot } => {
            put(rt, numbers, &[*deltas as u64]);
            put_value(rt, numbers, snapshot.as_slice());
        }
    }
}

/// Where both find the first bad field of a message, if there is one; else they read the same.
fn both(rt: &impl Abort, alloc: Global, bytes: &[u8]) -> Option<usize> {
    let found = decoded(rt, alloc, bytes);
    let expected = plain(rt, alloc, bytes);
    assert!(rt;
        agree(&found, &expected),
        "{bytes:?}: {found:?}, {expected:?}"
    );
    bad_at(&found)
}

/// Compares both at all hostile bytes of a message, and says at how many.
fn compare(rt: &impl Abort, alloc: Global, bytes: &[u8]) -> u32 {
    let mut compared = 0_u32;
    for list in hostile(alloc, bytes).expect(rt, "memory") {
        both(rt, alloc, &list);
        compared = compared.saturating_add(1);
    }
    compared
}

/// Of the messages, which have 16, 48, 23, 16, 13, 20, 8 and 13 bytes.
const COMPARED: [u32; 8] = [50, 146, 71, 50, 41, 62, 26, 41];

#[test]
fn hostile_messages_are_read_as_by_a_plain_reader(rt: HostRuntime) {
    for (bytes, compared) in MESSAGES.iter().zip(COMPARED) {
        assert_eq!(rt; compare(&rt, rt.alloc(), bytes), compared, "{bytes:?}");
    }
}

/// Bytes put in the place of others of a message, so that a field has the greatest number that is allowed, or one more; their offset, and that
/// of the first bad field.
const EDGES: [(&[u8], usize, &[u8], Option<usize>); 16] = [
    (&PREPARE, 2, &[9], None),
    (&PREPARE, 2, &[10], Some(2)),
    (&PREPARE, 3, &[9], None),
    (&PREPARE, 3, &[10], Some(3)),
    (&PREPARE, 11, &[25], None),
    (&PREPARE, 11, &[26], Some(4)),
    (&PREPARE, 4, &[0, 0, 0, 16, 0, 0, 0, 9], None),
    (&PREPARE, 4, &[0, 0, 0, 16, 0, 0, 0, 17], Some(4)),
    (&PREPARE, 12, &[0, 1, 0, 0], None),
    (&PREPARE, 12, &[0, 1, 0, 1], Some(12)),
    (&ACCEPT, 12, &[0, 0, 255, 255], None),
    (&ACCEPT, 12, &[0, 1, 0, 0], Some(12)),
    (&SNAPSHOT, 4, &[0, 0, 255, 255], None),
    (&SNAPSHOT, 4, &[0, 1, 0, 0], Some(4)),
    (&ACCEPT, 16, &[0, 64, 0, 0], Some(20)),
    (&ACCEPT, 16, &[0, 64, 0, 1], Some(16)),
];

/// A proposal whose value has so many bytes.
fn proposal_of(rt: &impl Abort, alloc: Global, length: u32) -> Vec<u8> {
    let mut bytes = ACCEPT[..16].to_vec(alloc).expect(rt, "memory");
    bytes
        .extend_from_slice(&length.to_be_bytes())
        .expect(rt, "memory");
    bytes.resize(20 + length as usize, 7).expect(rt, "memory");
    bytes
}

#[test]
fn messages_are_read_up_to_their_limits(rt: HostRuntime) {
    for (bytes, at, new, bad) in EDGES {
        let edge = patched(&rt, rt.alloc(), bytes, at, new);
        let found = both(&rt, rt.alloc(), &edge);
        assert_eq!(rt; found, bad, "{edge:?}");
    }
    for (length, bad) in [(4_194_304, None), (4_194_305, Some(16))] {
        let bytes = proposal_of(&rt, rt.alloc(), length);
        assert_eq!(rt; both(&rt, rt.alloc(), &bytes), bad);
    }
}
