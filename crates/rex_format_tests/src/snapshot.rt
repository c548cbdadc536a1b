//! Snapshots in both versions that are read and written, and bytes whose first bad field is named.

ghost use Rattle.std.specs.Prelude.{◌≡◌, true, IfOk};
ghost use Rattle.rex_syntax.specs.Versions.{has_old_form};
ghost use Rattle.rex_state.specs.Sound.{IsSound};
ghost use Rattle.rex_snapshot.specs.Spelling.{IsLimited};

use crate::services::checked;
use rex_snapshot::{DecodeError, decode, encode, encode_old, version_in};
use rex_state::state::State;
use rex_syntax::checked::Checked;
use rex_syntax::version::{Version, has_old_form};
use std::alloc::Global;
use std::process::Abort;
use std::test::*;

/// Two lanes; `add x` adds x to the variable under the lock, and replies with the sum.
const COUNTER: &str =
    "lanes 2\nlock L\nvar a on L = 0\nhandler add x\nacquire L\nset a = a + x\nlet r = a\nrelease L\nreply r\n";

/// Its state at the start.
const START: [u8; 22] = [
    1, 2, 0, 0, 0, 0, 0, 0, 0, 0, 0, 0, 0, 0, 0, 0, 0, 0, 0, 0, 0, 0,
];

/// The first lane has begun the request `add 5` of client 1 and holds the lock.
const HOLDING: [u8; 54] = [
    1, 2, 0, 0, 0, 2, 1, 0, 1, 0, 0, 0, 1, 1, 0, 4, 0, 0, 0, 0, 0, 0, 0, 5, 0, 0, 0, 0, 0, 0, 0, 5,
    0, 0, 0, 0, 0, 0, 0, 0, 0, 0, 0, 0, 5, 0, 1, 0, 1, 0, 0, 0, 1, 0,
];

/// The start in version 2, and the state after a request was replied to.
const SHORT: [u8; 16] = [2, 2, 0, 0, 0, 0, 0, 0, 0, 0, 0, 0, 0, 0, 0, 0];

const REPLIED: [u8; 41] = [
    2, 2, 0, 0, 0, 4, 0, 0, 0, 0, 0, 0, 0, 1, 0, 1, 0, 0, 0, 0, 0, 0, 0, 5, 0, 1, 0, 1, 0, 0, 0, 1,
    1, 0, 0, 0, 0, 0, 0, 0, 5,
];

/// The start with another number of lanes, with no such status, and with a byte more.
const LANES: [u8; 22] = [
    1, 3, 0, 0, 0, 0, 0, 0, 0, 0, 0, 0, 0, 0, 0, 0, 0, 0, 0, 0, 0, 0,
];

const STATUS: [u8; 22] = [
    1, 2, 0, 0, 0, 0, 4, 0, 0, 0, 0, 0, 0, 0, 0, 0, 0, 0, 0, 0, 0, 0,
];

const LONGER: [u8; 23] = [
    1, 2, 0, 0, 0, 0, 0, 0, 0, 0, 0, 0, 0, 0, 0, 0, 0, 0, 0, 0, 0, 0, 0,
];

/// Bytes, and the offset of their first bad field if they are no snapshot. What is read is written again.
const BYTES: [(&[u8], Option<usize>); 9] = [
    (&START, None),
    (&HOLDING, None),
    (&SHORT, None),
    (&REPLIED, None),
    (&LANES, Some(1)),
    (&STATUS, Some(6)),
    (&LONGER, Some(22)),
    (
        &[
            1, 2, 0, 0, 0, 0, 0, 0, 0, 0, 0, 0, 0, 0, 0, 0, 0, 0, 0, 0, 0,
        ],
        Some(20),
    ),
    (&[3], Some(0)),
];

fn state_of(alloc: Global, svc: &Checked, bytes: &[u8]) -> Result<State, Option<usize>>
    ensures sound { IfOk result (λ s. IsSound svc.now s) }
    ensures limited { IfOk result (λ s. IsLimited s) }
{
    match decode(alloc, svc, bytes) {
        Ok(state) => Ok(state),
        Err(DecodeError::Bad { at }) => Err(Some(at)),
        Err(DecodeError::OutOfMemory) => Err(None),
    }
}

/// A state's snapshot in a version.
fn spelled(
    rt: &impl Abort,
    alloc: Global,
    svc: &Checked,
    version: Version,
    state: &State,
) -> Vec<u8>
    requires old { has_old_form svc.now ≡ true }
    requires sound { IsSound svc.now state.now }
    requires limited { IsLimited state.now }
{
    match version {
        Version::One => encode_old(alloc, svc, state).expect(rt, "memory"),
        Version::Two => encode(alloc, svc, state).expect(rt, "memory"),
    }
}

/// The offset of the first bad field, or none where the bytes are those of the state that they spell.
fn bad_at(rt: &impl Abort, alloc: Global, svc: &Checked, bytes: &[u8]) -> Option<usize>
    requires { has_old_form svc.now ≡ true }
{
    match state_of(alloc, svc, bytes) {
        Ok(state) => {
            let again = spelled(rt, alloc, svc, version_in(bytes), &state);
            assert_eq!(rt; again.as_slice(), bytes);
            None
        }
        Err(at) => at,
    }
}

#[test]
fn snapshots_are_read_and_written(rt: HostRuntime) {
    let svc = checked(&rt, rt.alloc(), COUNTER);
    let is_old = has_old_form(svc.declarations());
    assert!(&rt; is_old);
    for (bytes, at) in BYTES {
        assert_eq!(rt; bad_at(&rt, rt.alloc(), &svc, bytes), at);
    }
}
