//! Snapshots of hostile bytes, read by the codec and by a plain reader of one service's.

use crate::plain::{Plain, agree, bad_at, hostile, patched, put};
use crate::services::checked;
use rex_frame::frame::{Frame, Phase};
use rex_snapshot::{DecodeError, decode};
use rex_state::state::State;
use rex_syntax::checked::Checked;
use std::alloc::Global;
use std::process::Abort;
use std::test::*;

/// A lock with a condition and two variables, and a semaphore. The first handler has a local and stands in a loop of three turns but
/// for its reply; the second has no locals.
const MARKET: &str = "\
    lanes 3\nlock L\ncond C on L\nsem S = 3\nvar a on L = 0\nvar b on L = 7\n\
    handler take x\nrepeat 3\nacquire L\nwait C while a < x\nrelease L\nendrepeat\nreply x\nhandler put\nacquire L\n\
    set a = a + 1\nsignal C\nrelease L\nup S\nreply 1\n";

/// The first values of the variables.
const FIRST: [u64; 2] = [0, 7];

/// In version 1: the first and the third lane wait, the third one the longer, and the second lane holds the lock.
const WAITING: [u8; 125] = [
    1, 3, 0, 0, 0, 5, 2, 0, 2, 0, 0, 0, 1, 1, 0, 3, 0, 0, 0, 0, 0, 0, 0, 9, 0, 3, 0, 0, 1, 44, 1,
    0, 3, 0, 0, 1, 1, 2, 0, 4, 0, 0, 0, 0, 2, 0, 7, 0, 0, 0, 1, 1, 0, 3, 0, 0, 0, 0, 0, 0, 0, 4, 0,
    1, 0, 0, 0, 0, 0, 0, 0, 1, 255, 255, 255, 255, 255, 255, 255, 254, 2, 3, 1, 0, 0, 0, 2, 0, 4,
    0, 1, 0, 0, 0, 4, 1, 255, 255, 255, 255, 255, 255, 255, 255, 0, 2, 0, 0, 0, 1, 0, 0, 3, 0, 0,
    1, 1, 0, 0, 7, 0, 0, 0, 1, 0,
];

/// In version 2: the first lane holds the lock, the second one was signalled and the third is idle.
const SIGNALLED: [u8; 113] = [
    2, 3, 0, 0, 0, 5, 1, 0, 5, 0, 0, 0, 1, 1, 0, 4, 0, 0, 0, 0, 0, 0, 0, 1, 0, 2, 0, 0, 0, 8, 3, 0,
    2, 0, 0, 0, 6, 1, 0, 3, 0, 0, 0, 0, 0, 0, 0, 3, 0, 1, 0, 0, 0, 4, 0, 0, 2, 0, 1, 255, 255, 255,
    255, 255, 255, 255, 255, 0, 2, 0, 0, 0, 0, 0, 0, 0, 0, 0, 0, 0, 0, 4, 0, 3, 0, 2, 0, 0, 0, 6,
    0, 0, 5, 0, 0, 0, 1, 0, 1, 0, 0, 15, 66, 64, 1, 0, 0, 0, 0, 0, 0, 0, 8,
];

/// Snapshots of 125 and 113 bytes, and at how many lists of bytes both are compared.
const COMPARED: [(&[u8], u32); 2] = [(&WAITING, 377), (&SIGNALLED, 341)];

/// What a line of a handler is: of a `wait` or of another event, in a loop or not, and with the lock held or not.
#[derive(Clone, Copy)]
struct Line {
    is_wait: bool,
    is_in_loop: bool,
    is_held: bool,
}

/// The lines that events are for; handlers and lines have numbers from 1.
fn line_of(handler: u64, line: u64) -> Option<Line> {
    let (is_wait, is_in_loop, is_held) = match (handler, line) {
        (1, 2) => (false, true, false),
        (1, 3) => (true, true, true),
        (1, 4) => (false, true, true),
        (1, 6) => (false, false, false),
        (2, 1) | (2, 5) | (2, 6) => (false, false, false),
        (2, 3) | (2, 4) => (false, false, true),
        _ => return None,
    };
    Some(Line {
        is_wait,
        is_in_loop,
        is_held,
    })
}

/// A client that a lane serves, and the sequence of its request.
#[derive(Clone, Copy, Drop)]
struct Served {
    client: u64,
    sequence: u64,
}

/// What was read of the lanes: whom they serve, which wait, and whether one holds the lock.
#[derive(Drop)]
struct Lanes {
    served: Vec<Served>,
    waiting: Vec<u64>,
    is_held: bool,
}

/// The numbers of a snapshot, field by field, or where the first bad field begins.
fn plain(rt: &impl Abort, alloc: Global, bytes: &[u8]) -> Result<Vec<u64>, usize> {
    let mut reader = Plain::new(alloc, bytes);
    let version = reader.within(rt, 1, 1, 2);
    reader.within(rt, 1, 3, 3);
    let lanes = plain_lanes(rt, alloc, &mut reader);
    match version {
        1 => plain_values(rt, &mut reader),
        _ => plain_changes(rt, &mut reader),
    }
    plain_queue(rt, &mut reader, &lanes);
    reader.within(rt, 4, 0, 1_000_000_000);
    plain_clients(rt, &mut reader, &lanes);
    reader.finish()
}

fn plain_lanes(rt: &impl Abort, alloc: Global, reader: &mut Plain) -> Lanes {
    let mut lanes = Lanes {
        served: Vec::new(alloc),
        waiting: Vec::new(alloc),
        is_held: false,
    };
    for lane in 1..4 {
        reader.within(rt, 4, 0, 268_431_360);
        let status = reader.within(rt, 1, 0, 3);
        if status == 2 {
            lanes.waiting.push(lane).expect(rt, "memory");
        }
        if status != 0 {
            plain_frame(rt, reader, &mut lanes, status);
        }
    }
    lanes
}

fn plain_frame(rt: &impl Abort, reader: &mut Plain, lanes: &mut Lanes, status: u64) {
    let client = reader.within(rt, 2, 1, 256);
    reader.allow(sequence_of(&lanes.served, client).is_none());
    let sequence = reader.within(rt, 4, 1, 1_000_000);
    lanes
        .served
        .push(Served { client, sequence })
        .expect(rt, "memory");
    let handler = reader.within(rt, 1, 1, 2);
    let number = reader.number(rt, 2);
    match line_of(handler, number) {
        Some(line) => plain_place(rt, reader, lanes, status, handler, line),
        None => reader.allow(false),
    }
}

fn plain_place(
    rt: &impl Abort,
    reader: &mut Plain,
    lanes: &mut Lanes,
    status: u64,
    handler: u64,
    line: Line,
) {
    if status == 1 {
        reader.allow(!(line.is_held && lanes.is_held));
        lanes.is_held = lanes.is_held || line.is_held;
    } else {
        reader.allow(line.is_wait);
    }
    if handler == 1 {
        reader.number(rt, 8);
    }
    if line.is_in_loop {
        reader.within(rt, 2, 1, 3);
    }
}

/// The sequence of the request that is served for a client, if one is.
fn sequence_of(served: &[Served], client: u64) -> Option<u64> {
    for one in served {
        if one.client == client {
            return Some(one.sequence);
        }
    }
    None
}

fn plain_values(rt: &impl Abort, reader: &mut Plain) {
    reader.number(rt, 8);
    reader.number(rt, 8);
}

fn plain_changes(rt: &impl Abort, reader: &mut Plain) {
    let count = reader.within(rt, 2, 0, 2);
    let mut before = 0;
    for _ in 0..count {
        let variable = reader.within(rt, 2, 1, 2);
        reader.allow(before < variable);
        let value = reader.number(rt, 8);
        reader.allow(value != if variable == 1 { FIRST[0] } else { FIRST[1] });
        before = variable;
    }
}

fn plain_queue(rt: &impl Abort, reader: &mut Plain, lanes: &Lanes) {
    let count = lanes.waiting.len() as u64;
    reader.within(rt, 1, count, count);
    let mut named = 0;
    for _ in 0..count {
        let lane = reader.within(rt, 1, 1, 3);
        let bit = 1_u64 << (lane % 64);
        reader.allow(lanes.waiting.contains(&lane) && named & bit == 0);
        named |= bit;
    }
}

fn plain_clients(rt: &impl Abort, reader: &mut Plain, lanes: &Lanes) {
    let count = reader.within(rt, 2, lanes.served.len() as u64, 256);
    let mut before = 0;
    for n in 0..count {
        let client = reader.within(rt, 2, 1, 256);
        let behind = count.saturating_sub(n).saturating_sub(1);
        let is_none_skipped = served_between(&lanes.served, before, client) == 0;
        let has_room = served_between(&lanes.served, client, 257) <= behind;
        reader.allow(before < client && is_none_skipped && has_room);
        plain_entry(rt, reader, sequence_of(&lanes.served, client));
        before = client;
    }
}

/// How many clients above one number and below another are served.
fn served_between(served: &[Served], low: u64, high: u64) -> u64 {
    let mut count = 0_u64;
    for one in served {
        if low < one.client && one.client < high {
            count = count.saturating_add(1);
        }
    }
    count
}

fn plain_entry(rt: &impl Abort, reader: &mut Plain, served: Option<u64>) {
    let sequence = reader.within(rt, 4, 1, 1_000_000);
    let replied = match served {
        Some(owed) => {
            reader.allow(sequence == owed);
            reader.within(rt, 1, 0, 0)
        }
        None => reader.within(rt, 1, 1, 1),
    };
    if replied == 1 {
        reader.number(rt, 8);
    }
}

/// What `decode` answers, in the same form.
fn decoded(rt: &impl Abort, alloc: Global, svc: &Checked, bytes: &[u8]) -> Result<Vec<u64>, usize> {
    match decode(alloc, svc, bytes) {
        Ok(state) => Ok(numbers_of(rt, alloc, &state, bytes.first() == Some(&1))),
        Err(DecodeError::Bad { at }) => Err(at),
        Err(DecodeError::OutOfMemory) => Err(usize::MAX),
    }
}

/// The numbers of a state in the order of the fields of the first version, or of the second.
fn numbers_of(rt: &impl Abort, alloc: Global, state: &State, is_first: bool) -> Vec<u64> {
    let mut numbers = Vec::new(alloc);
    put(rt, &mut numbers, &[if is_first { 1 } else { 2 }, 3]);
    for lane in 0..3 {
        put_lane(rt, &mut numbers, state, lane);
    }
    if is_first {
        put_values(rt, &mut numbers, state.variables());
    } else {
        put_changes(rt, &mut numbers, state.variables());
    }
    put_queue(rt, &mut numbers, state);
    put(rt, &mut numbers, &[state.semaphore(0) as u64]);
    put_clients(rt, &mut numbers, state);
    numbers
}

fn put_lane(rt: &impl Abort, numbers: &mut Vec<u64>, state: &State, lane: u8) {
    put(rt, numbers, &[state.done(lane) as u64]);
    match state.frame(lane) {
        Some(frame) => put_frame(rt, numbers, frame, state.is_queued(0, lane)),
        None => put(rt, numbers, &[0]),
    }
}

fn put_frame(rt: &impl Abort, numbers: &mut Vec<u64>, frame: &Frame, is_queued: bool) {
    let status = match (frame.phase, is_queued) {
        (Phase::Running, _) => 1,
        (Phase::Waiting, true) => 2,
        (Phase::Waiting, false) => 3,
    };
    put(
        rt,
        numbers,
        &[status, frame.client as u64, frame.sequence as u64],
    );
    put(
        rt,
        numbers,
        &[frame.handler as u64 + 1, frame.place as u64 + 1],
    );
    put_values(rt, numbers, frame.locals.as_slice());
    for turn in frame.turns.as_slice() {
        put(rt, numbers, &[turn.left as u64]);
    }
}

fn put_values(rt: &impl Abort, numbers: &mut Vec<u64>, values: &[i64]) {
    for value in values {
        put(rt, numbers, &[value.cast_unsigned()]);
    }
}

fn put_changes(rt: &impl Abort, numbers: &mut Vec<u64>, values: &[i64]) {
    let mut changes = 0_u64;
    for (value, first) in values.iter().zip(FIRST) {
        changes = changes.saturating_add((value.cast_unsigned() != first) as u64);
    }
    put(rt, numbers, &[changes]);
    for (n, (value, first)) in values.iter().zip(FIRST).enumerate() {
        if value.cast_unsigned() != first {
            put(
                rt,
                numbers,
                &[(n as u64).saturating_add(1), value.cast_unsigned()],
            );
        }
    }
}

fn put_queue(rt: &impl Abort, numbers: &mut Vec<u64>, state: &State) {
    for queue in state.queues() {
        put(rt, numbers, &[queue.lanes.len() as u64]);
        for lane in queue.lanes.as_slice() {
            put(rt, numbers, &[*lane as u64 + 1]);
        }
    }
}

fn put_clients(rt: &impl Abort, numbers: &mut Vec<u64>, state: &State) {
    let mut count = 0_u64;
    for client in 1..257 {
        count = count.saturating_add((state.entry(client).sequence > 0) as u64);
    }
    put(rt, numbers, &[count]);
    for client in 1..257 {
        put_entry(rt, numbers, state, client);
    }
}

fn put_entry(rt: &impl Abort, numbers: &mut Vec<u64>, state: &State, client: u16) {
    let entry = state.entry(client);
    if entry.sequence > 0 {
        put(rt, numbers, &[client as u64, entry.sequence as u64]);
        match entry.reply {
            Some(reply) => put(rt, numbers, &[1, reply.cast_unsigned()]),
            None => put(rt, numbers, &[0]),
        }
    }
}

/// Where both find the first bad field of a snapshot, if there is one; else they read the same.
fn both(rt: &impl Abort, alloc: Global, svc: &Checked, bytes: &[u8]) -> Option<usize> {
    let found = decoded(rt, alloc, svc, bytes);
    let expected = plain(rt, alloc, bytes);
    assert!(rt;
        agree(&found, &expected),
        "{bytes:?}: {found:?}, {expected:?}"
    );
    bad_at(&found)
}

/// Compares both at all hostile bytes of a snapshot, and says at how many.
fn compare(rt: &impl Abort, alloc: Global, svc: &Checked, bytes: &[u8]) -> u32 {
    let mut compared = 0_u32;
    for list in hostile(alloc, bytes).expect(rt, "memory") {
        both(rt, alloc, svc, &list);
        compared = compared.saturating_add(1);
    }
    compared
}

#[test]
fn hostile_snapshots_are_read_as_by_a_plain_reader(rt: HostRuntime) {
    let svc = checked(&rt, rt.alloc(), MARKET);
    for (bytes, compared) in COMPARED {
        assert_eq!(rt;
            compare(&rt, rt.alloc(), &svc, bytes),
            compared,
            "{bytes:?}"
        );
    }
}

/// Bytes put in the place of others of a snapshot, so that a field has the greatest number that is allowed, or one more; their offset, and that
/// of the first bad field.
const EDGES: [(&[u8], usize, &[u8], Option<usize>); 20] = [
    (&WAITING, 2, &[15, 255, 240, 0], None),
    (&WAITING, 2, &[15, 255, 240, 1], Some(2)),
    (&WAITING, 7, &[1, 0], Some(104)),
    (&WAITING, 7, &[1, 1], Some(7)),
    (&WAITING, 9, &[0, 15, 66, 64], Some(106)),
    (&WAITING, 9, &[0, 15, 66, 65], Some(9)),
    (&WAITING, 13, &[2], Some(14)),
    (&WAITING, 13, &[3], Some(13)),
    (&WAITING, 24, &[0, 3], None),
    (&WAITING, 24, &[0, 4], Some(24)),
    (&WAITING, 83, &[59, 154, 202, 0], None),
    (&WAITING, 83, &[59, 154, 202, 1], Some(83)),
    (&WAITING, 91, &[0, 15, 66, 64], None),
    (&WAITING, 91, &[0, 15, 66, 65], Some(91)),
    (&SIGNALLED, 55, &[0, 3], Some(55)),
    (&SIGNALLED, 67, &[0, 3], Some(67)),
    (&SIGNALLED, 98, &[1, 0], None),
    (&SIGNALLED, 98, &[1, 1], Some(98)),
    (&SIGNALLED, 100, &[0, 15, 66, 64], None),
    (&SIGNALLED, 100, &[0, 15, 66, 65], Some(100)),
];

/// In version 2 no lane did anything, and so many clients have a reply.
fn replied(rt: &impl Abort, alloc: Global, clients: u16) -> Vec<u8> {
    let mut bytes = Vec::new(alloc);
    bytes.extend_from_slice(&[2, 3]).expect(rt, "memory");
    bytes.extend_from_slice(&[0; 22]).expect(rt, "memory");
    bytes
        .extend_from_slice(&clients.to_be_bytes())
        .expect(rt, "memory");
    for client in 1..=clients {
        bytes
            .extend_from_slice(&client.to_be_bytes())
            .expect(rt, "memory");
        bytes
            .extend_from_slice(&[0, 0, 0, 1, 1, 0, 0, 0, 0, 0, 0, 0, 9])
            .expect(rt, "memory");
    }
    bytes
}

/// Where the start in version 1 is bad, of a service of so many lanes and nothing else.
fn bad_start(rt: &impl Abort, alloc: Global, text: &str, lanes: u8) -> Option<usize> {
    let svc = checked(rt, alloc, text);
    let mut bytes = Vec::new(alloc);
    bytes.extend_from_slice(&[1, lanes]).expect(rt, "memory");
    for _ in 0..lanes {
        bytes.extend_from_slice(&[0; 5]).expect(rt, "memory");
    }
    bytes.extend_from_slice(&[0, 0]).expect(rt, "memory");
    match decode(alloc, &svc, &bytes) {
        Ok(_) => None,
        Err(DecodeError::Bad { at }) => Some(at),
        Err(DecodeError::OutOfMemory) => Some(usize::MAX),
    }
}

#[test]
fn version_1_has_up_to_16_lanes(rt: HostRuntime) {
    let most = bad_start(&rt, rt.alloc(), "lanes 16\nhandler h\nreply 0\n", 16);
    assert_eq!(rt; most, None);
    let more = bad_start(&rt, rt.alloc(), "lanes 17\nhandler h\nreply 0\n", 17);
    assert_eq!(rt; more, Some(0));
}

#[test]
fn snapshots_are_read_up_to_their_limits(rt: HostRuntime) {
    let svc = checked(&rt, rt.alloc(), MARKET);
    for (bytes, at, new, bad) in EDGES {
        let edge = patched(&rt, rt.alloc(), bytes, at, new);
        let found = both(&rt, rt.alloc(), &svc, &edge);
        assert_eq!(rt; found, bad, "{edge:?}");
    }
    for (clients, bad) in [(256, None), (257, Some(24))] {
        let bytes = replied(&rt, rt.alloc(), clients);
        assert_eq!(rt; both(&rt, rt.alloc(), &svc, &bytes), bad);
    }
}
