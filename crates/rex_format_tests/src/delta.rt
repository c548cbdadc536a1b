//! Deltas that are read and written, and bytes whose first bad field is named.

ghost use Rattle.std.specs.Prelude.{◌+◌, ◌≤◌, length, IfOk};
ghost use Rattle.rex_delta.specs.Spelling.{IsDelta};

use rex_delta::{DecodeError, check, decode, decode_events, encode};
use rex_event::Delta;
use std::alloc::{AllocError, Global};
use std::test::*;

/// The delta of one request of a counter.
pub static REQUEST: [u8; 52] = [
    0x01, 0x02, 0x00, 0x00, 0x00, 0x00, 0x00, 0x00, 0x00, 0x00, 0x00, 0x04, 0x01, 0x01, 0x00, 0x01,
    0x00, 0x00, 0x00, 0x01, 0x01, 0x01, 0x00, 0x00, 0x00, 0x00, 0x00, 0x00, 0x00, 0x05, 0x00, 0x01,
    0x02, 0x01, 0x00, 0x01, 0x04, 0x01, 0x00, 0x01, 0x0e, 0x00, 0x01, 0x00, 0x00, 0x00, 0x00, 0x00,
    0x00, 0x00, 0x05, 0x00,
];

/// For each offset of the request's bytes the offset at which its field begins.
static FIELDS: [usize; 52] = [
    0, 1, 2, 2, 2, 2, 6, 6, 6, 6, 10, 10, 12, 13, 14, 14, 16, 16, 16, 16, 20, 21, 22, 22, 22, 22,
    22, 22, 22, 22, 30, 31, 32, 33, 34, 35, 36, 37, 38, 39, 40, 41, 41, 43, 43, 43, 43, 43, 43, 43,
    43, 51,
];

/// Lane 1 begins a request and takes lock 1; lane 2 begins another; lane 1 gives the lock up, and lane 2 takes it.
pub static HANDED_ON: [u8; 67] = [
    0x01, 0x02, 0x00, 0x00, 0x00, 0x00, 0x00, 0x00, 0x00, 0x00, 0x00, 0x05, 0x01, 0x01, 0x00, 0x01,
    0x00, 0x00, 0x00, 0x01, 0x01, 0x01, 0x00, 0x00, 0x00, 0x00, 0x00, 0x00, 0x00, 0x05, 0x00, 0x01,
    0x02, 0x01, 0x00, 0x02, 0x01, 0x00, 0x02, 0x00, 0x00, 0x00, 0x01, 0x01, 0x01, 0x00, 0x00, 0x00,
    0x00, 0x00, 0x00, 0x00, 0x07, 0x00, 0x01, 0x04, 0x01, 0x00, 0x02, 0x02, 0x01, 0x01, 0x01, 0x00,
    0x00, 0x00, 0x02,
];

/// Lane 1 begins a request; lane 2 begins another and puts a semaphore up; lane 1 takes it down and replies.
pub static COUNTED: [u8; 60] = [
    0x02, 0x02, 0x00, 0x00, 0x00, 0x00, 0x00, 0x00, 0x00, 0x00, 0x00, 0x05, 0x01, 0x01, 0x00, 0x01,
    0x00, 0x00, 0x00, 0x01, 0x01, 0x00, 0x00, 0x02, 0x01, 0x00, 0x02, 0x00, 0x00, 0x00, 0x01, 0x02,
    0x00, 0x00, 0x02, 0x10, 0x01, 0x00, 0x01, 0x0f, 0x01, 0x01, 0x02, 0x00, 0x00, 0x00, 0x01, 0x01,
    0x0e, 0x00, 0x01, 0x00, 0x00, 0x00, 0x00, 0x00, 0x00, 0x00, 0x01, 0x00,
];

/// Bytes put in the place of others of the second delta: their offset, and that of the first bad field.
static CHANGES: [(u8, &[u8], usize); 29] = [
    (0, &[0], 0),
    (0, &[2], 59),
    (0, &[3], 0),
    (1, &[0], 1),
    (1, &[65], 1),
    (2, &[255, 255, 240, 0], 2),
    (10, &[0, 0], 10),
    (10, &[16, 1], 10),
    (10, &[0, 4], 58),
    (10, &[0, 6], 67),
    (12, &[0], 12),
    (12, &[3], 12),
    (13, &[0], 13),
    (13, &[15], 13),
    (14, &[0, 0], 14),
    (14, &[1, 1], 14),
    (16, &[0, 0, 0, 0], 16),
    (16, &[0, 15, 66, 65], 16),
    (20, &[0], 20),
    (20, &[65], 20),
    (21, &[5], 21),
    (30, &[1], 30),
    (33, &[0], 33),
    (33, &[65], 33),
    (61, &[2], 61),
    (62, &[0], 62),
    (62, &[2], 62),
    (62, &[3], 62),
    (66, &[3], 63),
];

/// The delta that bytes spell.
pub(crate) fn delta_of(alloc: Global, bytes: &[u8]) -> Result<Delta, &'static str>
    ensures { IfOk result (λ d. IsDelta d) }
{
    match decode(alloc, bytes) {
        Ok(delta) => Ok(delta),
        Err(_) => Err("the bytes are no delta"),
    }
}

/// The offset of the first bad field, where each way of reading finds the same.
fn bad_at(alloc: Global, bytes: &[u8]) -> Option<usize> {
    match (
        decode(alloc, bytes),
        check(bytes),
        decode_events(alloc, bytes),
    ) {
        (Err(DecodeError::Bad { at }), Err(counted), Err(DecodeError::Bad { at: alone }))
            if at == counted && at == alone => Some(at),
        _ => None,
    }
}

/// How many events a delta has, where each way of reading finds as many.
fn events_in(alloc: Global, bytes: &[u8]) -> Option<u32> {
    match (check(bytes), decode_events(alloc, bytes)) {
        (Ok(count), Ok(events)) if events.len() == count as usize => Some(count),
        _ => None,
    }
}

fn changed(alloc: Global, bytes: &[u8], at: usize, new: &[u8]) -> Result<Vec<u8>, AllocError>
    requires { at + length new.now ≤ length bytes.now }
{
    let mut changed = Vec::from_slice(alloc, bytes)?;
    changed[at..at + new.len()].copy_from_slice(new);
    Ok(changed)
}

#[test]
fn deltas_are_read_and_written(rt: HostRuntime) -> Result<(), Fail> {
    let deltas = [
        (REQUEST.as_slice(), 4),
        (HANDED_ON.as_slice(), 5),
        (COUNTED.as_slice(), 5),
    ];
    for (bytes, count) in deltas {
        let delta = delta_of(rt.alloc(), bytes)?;
        let again = encode(rt.alloc(), &delta)?;
        assert_eq!(rt; again.as_slice(), bytes);
        assert_eq!(rt; events_in(rt.alloc(), bytes), Some(count));
    }
    Ok(())
}

#[test]
fn the_first_bad_field_is_named(rt: HostRuntime) -> Result<(), Fail> {
    for (n, field) in FIELDS.iter().enumerate() {
        assert_eq!(rt; bad_at(rt.alloc(), &REQUEST[..n]), Some(*field));
    }
    let mut longer = Vec::from_slice(rt.alloc(), &REQUEST)?;
    longer.push(0)?;
    assert_eq!(rt; bad_at(rt.alloc(), &longer), Some(52));
    let older = changed(rt.alloc(), &COUNTED, 0, &[1])?;
    assert_eq!(rt; bad_at(rt.alloc(), &older), Some(35));
    for (at, new, field) in &CHANGES {
        let at = *at as usize;
        assert!(rt; new.len() < 5 && at + new.len() <= HANDED_ON.len());
        let bytes = changed(rt.alloc(), &HANDED_ON, at, new)?;
        assert_eq!(rt; bad_at(rt.alloc(), &bytes), Some(*field));
    }
    Ok(())
}
