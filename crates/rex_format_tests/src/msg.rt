//! Messages that are read and written, and bytes whose first bad field is named.

ghost use Rattle.std.specs.Prelude.{◌+◌, ◌≤◌, length};

use rex_msg::{DecodeError, decode, encode};
use std::alloc::{AllocError, Global};
use std::process::Abort;
use std::test::*;

/// Node 1 asks node 2 for a promise to ballot 17, from instance 1 on.
pub(crate) const PREPARE: [u8; 16] = [1, 1, 1, 2, 0, 0, 0, 0, 0, 0, 0, 17, 0, 0, 0, 1];

/// Node 2 promises node 1 so, and reports proposals for instances 1 and 3.
const PROMISE: [u8; 48] = [
    1, 2, 2, 1, 0, 0, 0, 0, 0, 0, 0, 17, 0, 2, 0, 0, 0, 1, 0, 0, 0, 0, 0, 0, 0, 18, 0, 0, 0, 2, 5,
    6, 0, 0, 0, 3, 0, 0, 0, 0, 0, 0, 0, 19, 0, 0, 0, 0,
];

/// Node 1 proposes three bytes to node 3 for instance 2.
pub(crate) const ACCEPT: [u8; 23] = [
    1, 3, 1, 3, 0, 0, 0, 0, 0, 0, 0, 17, 0, 0, 0, 2, 0, 0, 0, 3, 7, 8, 9,
];

/// Node 3 accepted that.
const ACCEPTED: [u8; 16] = [1, 4, 3, 1, 0, 0, 0, 0, 0, 0, 0, 17, 0, 0, 0, 2];

/// Node 1 tells node 9 the value of the last instance.
const CHOSEN: [u8; 13] = [1, 5, 1, 9, 0, 0, 255, 255, 0, 0, 0, 1, 42];

/// Node 2 refuses node 1's ballot 17, having promised 18.
const NACK: [u8; 20] = [1, 6, 2, 1, 0, 0, 0, 0, 0, 0, 0, 17, 0, 0, 0, 0, 0, 0, 0, 18];

/// Node 9 knows all instances that there can be, and asks node 8 for the next.
const ASK: [u8; 8] = [1, 7, 9, 8, 0, 1, 0, 0];

/// Node 1 tells node 3 the state after two values, in one byte.
pub(crate) const SNAPSHOT: [u8; 13] = [1, 8, 1, 3, 0, 0, 0, 2, 0, 0, 0, 1, 42];

pub(crate) const MESSAGES: [&[u8]; 8] = [
    &PREPARE, &PROMISE, &ACCEPT, &ACCEPTED, &CHOSEN, &NACK, &ASK, &SNAPSHOT,
];

/// Bytes put in the place of others of a message: their offset, and that of the first bad field.
const CHANGES: [(&[u8], u8, &[u8], usize); 34] = [
    (&PREPARE, 0, &[0], 0),
    (&PREPARE, 0, &[2], 0),
    (&PREPARE, 1, &[0], 1),
    (&PREPARE, 1, &[9], 1),
    (&PREPARE, 2, &[0], 2),
    (&PREPARE, 2, &[10], 2),
    (&PREPARE, 3, &[1], 3),
    (&PREPARE, 3, &[0], 3),
    (&PREPARE, 3, &[10], 3),
    (&PREPARE, 11, &[16], 4),
    (&PREPARE, 11, &[9], 4),
    (&PREPARE, 11, &[26], 4),
    (&PREPARE, 4, &[0, 0, 0, 16, 0, 0, 0, 17], 4),
    (&PREPARE, 15, &[0], 12),
    (&PREPARE, 12, &[0, 1, 0, 1], 12),
    (&PROMISE, 17, &[0], 14),
    (&PROMISE, 35, &[1], 32),
    (&PROMISE, 33, &[1], 32),
    (&PROMISE, 13, &[1], 32),
    (&PROMISE, 13, &[3], 48),
    (&PROMISE, 25, &[16], 18),
    (&PROMISE, 27, &[64, 0, 1], 26),
    (&PROMISE, 27, &[64, 0, 0], 30),
    (&ACCEPT, 13, &[1, 0, 0], 12),
    (&ACCEPT, 19, &[4], 20),
    (&ACCEPT, 19, &[2], 22),
    (&ACCEPTED, 15, &[0], 12),
    (&CHOSEN, 5, &[1], 4),
    (&NACK, 19, &[17], 12),
    (&ASK, 7, &[1], 4),
    (&SNAPSHOT, 7, &[0], 4),
    (&SNAPSHOT, 5, &[1], 4),
    (&SNAPSHOT, 11, &[2], 12),
    (&SNAPSHOT, 11, &[0], 12),
];

/// Where the first bad field of the bytes begins; of a message's bytes, which are written again, nothing.
fn bad_at(rt: &impl Abort, alloc: Global, bytes: &[u8]) -> Option<usize> {
    match decode(alloc, bytes) {
        Ok(message) => {
            assert!(rt; encode(alloc, &message).is_ok_and(|v| v.as_slice() == bytes));
            None
        }
        Err(DecodeError::Bad { at }) => Some(at),
        Err(DecodeError::OutOfMemory) => Some(usize::MAX),
    }
}

fn changed(alloc: Global, bytes: &[u8], at: usize, new: &[u8]) -> Result<Vec<u8>, AllocError>
    requires { at + length new.now ≤ length bytes.now }
{
    let mut changed = bytes.to_vec(alloc)?;
    changed[at..at + new.len()].copy_from_slice(new);
    Ok(changed)
}

#[test]
fn messages_are_read_and_written(rt: HostRuntime) {
    for bytes in MESSAGES {
        assert_eq!(rt; bad_at(&rt, rt.alloc(), bytes), None, "{bytes:?}");
    }
}

#[test]
fn the_first_bad_field_is_named(rt: HostRuntime) -> Result<(), Fail> {
    assert_eq!(rt; bad_at(&rt, rt.alloc(), &PREPARE[..15]), Some(12));
    for (bytes, at, new, field) in CHANGES {
        let at = at as usize;
        assert!(rt; new.len() < 9 && at + new.len() <= bytes.len());
        let bytes = changed(rt.alloc(), bytes, at, new)?;
        assert_eq!(rt; bad_at(&rt, rt.alloc(), &bytes), Some(field), "{bytes:?}");
    }
    Ok(())
}
