//! Deltas of hostile bytes, read by the codec and by a plain reader.

use crate::delta::{COUNTED, HANDED_ON, REQUEST};
use crate::plain::{Plain, agree, bad_at, hostile, patched, put};
use rex_delta::{DecodeError, decode};
use rex_event::{Delta, Event, Kind};
use std::alloc::Global;
use std::process::Abort;
use std::test::*;

/// Three lanes, of which each did events before, and an event of each kind that version 1 has; two causes of the last.
const KINDS: [u8; 165] = [
    1, 3, 0, 0, 0, 7, 0, 0, 1, 0, 0, 0, 0, 17, 0, 16, 2, 1, 0, 2, 0, 0, 0, 3, 1, 4, 255, 255, 255,
    255, 255, 255, 255, 254, 0, 0, 0, 0, 0, 0, 0, 9, 127, 255, 255, 255, 255, 255, 255, 255, 128,
    0, 0, 0, 0, 0, 0, 0, 0, 3, 3, 5, 0, 3, 5, 5, 0, 2, 2, 6, 0, 2, 8, 4, 6, 0, 2, 9, 4, 6, 0, 2, 4,
    6, 0, 2, 6, 7, 0, 2, 7, 7, 0, 3, 10, 4, 0, 0, 3, 10, 4, 2, 1, 2, 0, 0, 1, 2, 3, 11, 4, 0, 0, 0,
    0, 0, 0, 0, 7, 0, 2, 12, 128, 0, 0, 0, 0, 0, 0, 1, 0, 2, 13, 0, 0, 1, 2, 0, 2, 14, 0, 2, 255,
    255, 255, 255, 255, 255, 255, 255, 0, 1, 2, 9, 2, 2, 0, 0, 1, 9, 3, 0, 0, 0, 21,
];

/// Where in it the number of arguments, the condition of the wait and the lanes of the broadcast stand.
const ARGUMENTS: usize = 25;

const WAIT: usize = 73;

const BROADCAST: usize = 111;

/// The lanes of a delta: how many events each did before it, and how many of it were read. Lanes are numbered from 1.
#[derive(Drop)]
struct Lanes {
    bases: Vec<u64>,
    counts: Vec<u64>,
}

impl Lanes {
    fn new(alloc: Global) -> Lanes {
        Lanes {
            bases: Vec::new(alloc),
            counts: Vec::new(alloc),
        }
    }

    fn push(&mut self, rt: &impl Abort, base: u64) {
        self.bases.push(base).expect(rt, "memory");
        self.counts.push(0).expect(rt, "memory");
    }

    fn count(&self, lane: u64) -> u64 {
        number_at(&self.counts, lane)
    }

    /// The index of the lane's next event.
    fn next(&self, lane: u64) -> u64 {
        number_at(&self.bases, lane).saturating_add(self.count(lane))
    }

    /// Whether an event of the lane with this index was read.
    fn has(&self, lane: u64, index: u64) -> bool {
        number_at(&self.bases, lane) <= index && index < self.next(lane)
    }

    /// How many other lanes have an event.
    fn others(&self, lane: u64) -> u64 {
        let busy = self.counts.iter().filter(|count| **count > 0).count() as u64;
        busy.saturating_sub((self.count(lane) > 0) as u64)
    }

    fn add(&mut self, lane: u64) {
        if let Some(count) = self.counts.get_mut(lane.saturating_sub(1) as usize) {
            *count = count.saturating_add(1);
        }
    }
}

fn number_at(numbers: &[u64], lane: u64) -> u64 {
    match numbers.get(lane.saturating_sub(1) as usize) {
        Some(number) => *number,
        None => 0,
    }
}

/// The numbers of a delta, field by field, each event's index behind its lane; or where the first bad field begins.
fn plain(rt: &impl Abort, alloc: Global, bytes: &[u8]) -> Result<Vec<u64>, usize> {
    let mut reader = Plain::new(alloc, bytes);
    let version = reader.within(rt, 1, 1, 2);
    let lanes = plain_lanes(rt, alloc, &mut reader);
    plain_events(rt, &mut reader, lanes, version);
    reader.finish()
}

fn plain_lanes(rt: &impl Abort, alloc: Global, reader: &mut Plain) -> Lanes {
    let count = reader.within(rt, 1, 1, 64);
    let mut lanes = Lanes::new(alloc);
    for _ in 0..count {
        let base = reader.within(rt, 4, 0, 4_294_963_199);
        lanes.push(rt, base);
    }
    lanes
}

fn plain_events(rt: &impl Abort, reader: &mut Plain, lanes: Lanes, version: u64) {
    let mut lanes = lanes;
    let count = reader.within(rt, 2, 1, 4_096);
    let mut counted = false;
    for n in 0..count {
        let owed = version == 2 && !counted && n.saturating_add(1) == count;
        let kind = plain_event(rt, reader, &mut lanes, version, owed);
        counted = counted || kind > 14;
    }
}

/// Reads an event, and says of what kind it is. Where a kind of version 2 is owed it has to be one.
fn plain_event(
    rt: &impl Abort,
    reader: &mut Plain,
    lanes: &mut Lanes,
    version: u64,
    owed: bool,
) -> u64 {
    let lane = reader.within(rt, 1, 1, lanes.counts.len() as u64);
    reader.note(rt, lanes.next(lane));
    let kind = reader.within(rt, 1, 1, if version == 1 { 14 } else { 16 });
    reader.allow(!owed || kind > 14);
    plain_content(rt, reader, kind, lanes.counts.len() as u64);
    plain_causes(rt, reader, lanes, lane);
    lanes.add(lane);
    kind
}

fn plain_content(rt: &impl Abort, reader: &mut Plain, kind: u64, lanes: u64) {
    match kind {
        1 => plain_begin(rt, reader),
        8 | 9 => {
            number_64(rt, reader);
            number_64(rt, reader);
        }
        10 => {
            number_64(rt, reader);
            reader.within(rt, 1, 0, lanes);
        }
        11 => {
            number_64(rt, reader);
            let woken = reader.number(rt, 8);
            reader.allow(lanes > 63 || woken >> lanes == 0);
        }
        12 => {
            reader.number(rt, 8);
        }
        13 => {
            reader.number(rt, 4);
        }
        14 => {
            reader.within(rt, 2, 1, 256);
            reader.number(rt, 8);
        }
        _ => number_64(rt, reader),
    }
}

/// A lock, a condition or a semaphore.
fn number_64(rt: &impl Abort, reader: &mut Plain) {
    reader.within(rt, 1, 1, 64);
}

fn plain_begin(rt: &impl Abort, reader: &mut Plain) {
    reader.within(rt, 2, 1, 256);
    reader.within(rt, 4, 1, 1_000_000);
    reader.within(rt, 1, 1, 64);
    let arguments = reader.within(rt, 1, 0, 4);
    for _ in 0..arguments {
        reader.number(rt, 8);
    }
}

fn plain_causes(rt: &impl Abort, reader: &mut Plain, lanes: &Lanes, lane: u64) {
    let count = reader.within(rt, 1, 0, lanes.others(lane));
    let mut before = 0;
    for _ in 0..count {
        let other = reader.number(rt, 1);
        reader.allow(before < other && other != lane && lanes.count(other) > 0);
        let index = reader.number(rt, 4);
        reader.allow(lanes.has(other, index));
        before = other;
    }
}

/// What `decode` answers, in the same form.
fn decoded(rt: &impl Abort, alloc: Global, bytes: &[u8]) -> Result<Vec<u64>, usize> {
    match decode(alloc, bytes) {
        Ok(delta) => Ok(numbers_of(rt, alloc, &delta)),
        Err(DecodeError::Bad { at }) => Err(at),
        Err(DecodeError::OutOfMemory) => Err(usize::MAX),
    }
}

fn numbers_of(rt: &impl Abort, alloc: Global, delta: &Delta) -> Vec<u64> {
    let mut numbers = Vec::new(alloc);
    put(
        rt,
        &mut numbers,
        &[version_of(delta), delta.bases.len() as u64],
    );
    for base in delta.bases.as_slice() {
        put(rt, &mut numbers, &[*base as u64]);
    }
    put(rt, &mut numbers, &[delta.events.len() as u64]);
    for (event, causes) in delta.events.as_slice().iter().zip(delta.causes.as_slice()) {
        put_event(rt, &mut numbers, event);
        put(rt, &mut numbers, &[causes.len() as u64]);
        for cause in causes.as_slice() {
            put(
                rt,
                &mut numbers,
                &[cause.lane as u64 + 1, cause.index as u64],
            );
        }
    }
    numbers
}

/// The version in which a delta is written: 2 where it has an event of a semaphore.
fn version_of(delta: &Delta) -> u64 {
    let counted = delta
        .events
        .as_slice()
        .iter()
        .any(|event| kind_of(event.kind) > 14);
    if counted { 2 } else { 1 }
}

fn put_event(rt: &impl Abort, numbers: &mut Vec<u64>, event: &Event) {
    put(
        rt,
        numbers,
        &[
            event.lane as u64 + 1,
            event.index as u64,
            kind_of(event.kind),
        ],
    );
    put_content(rt, numbers, event.kind);
}

fn kind_of(kind: Kind) -> u64 {
    match kind {
        Kind::Begin { .. } => 1,
        Kind::AcqEx { .. } => 2,
        Kind::AcqSh { .. } => 3,
        Kind::RelEx { .. } => 4,
        Kind::RelSh { .. } => 5,
        Kind::TryOk { .. } => 6,
        Kind::TryBusy { .. } => 7,
        Kind::Wait { .. } => 8,
        Kind::Wake { .. } => 9,
        Kind::Signal { .. } => 10,
        Kind::Broadcast { .. } => 11,
        Kind::Clock { .. } => 12,
        Kind::Random { .. } => 13,
        Kind::Reply { .. } => 14,
        Kind::Down { .. } => 15,
        Kind::Up { .. } => 16,
    }
}

fn put_content(rt: &impl Abort, numbers: &mut Vec<u64>, kind: Kind) {
    match kind {
        Kind::Begin {
            client,
            sequence,
            handler,
            arguments,
        } => {
            put(
                rt,
                numbers,
                &[client as u64, sequence as u64, handler as u64 + 1],
            );
            put(rt, numbers, &[arguments.len() as u64]);
            for argument in arguments.as_slice() {
                put(rt, numbers, &[argument.cast_unsigned()]);
            }
        }
        Kind::AcqEx { lock }
        | Kind::AcqSh { lock }
        | Kind::RelEx { lock }
        | Kind::RelSh { lock }
        | Kind::TryOk { lock }
        | Kind::TryBusy { lock } => put(rt, numbers, &[lock as u64 + 1]),
        Kind::Wait { condition, lock } => put(
            rt,
            numbers,
            &[condition as u64 + 1, lock as u64 + 1],
        ),
        Kind::Wake { condition, lock } => put(
            rt,
            numbers,
            &[condition as u64 + 1, lock as u64 + 1],
        ),
        Kind::Signal { condition, woken } => {
            put(rt, numbers, &[condition as u64 + 1, lane_or_none(woken)]);
        }
        Kind::Broadcast { condition, woken } => put(rt, numbers, &[condition as u64 + 1, woken]),
        Kind::Clock { value } => put(rt, numbers, &[value.cast_unsigned()]),
        Kind::Random { value } => put(rt, numbers, &[value as u64]),
        Kind::Reply { client, value } => put(rt, numbers, &[client as u64, value.cast_unsigned()]),
        Kind::Down { semaphore } => put(rt, numbers, &[semaphore as u64 + 1]),
        Kind::Up { semaphore } => put(rt, numbers, &[semaphore as u64 + 1]),
    }
}

fn lane_or_none(lane: Option<u8>) -> u64 {
    match lane {
        Some(lane) => lane as u64 + 1,
        None => 0,
    }
}

/// Where both find the first bad field of a delta, if there is one; else they read the same.
fn both(rt: &impl Abort, alloc: Global, bytes: &[u8]) -> Option<usize> {
    let found = decoded(rt, alloc, bytes);
    let expected = plain(rt, alloc, bytes);
    assert!(rt;
        agree(&found, &expected),
        "{bytes:?}: {found:?}, {expected:?}"
    );
    bad_at(&found)
}

/// Compares both at all hostile bytes of a delta, and says at how many.
fn compare(rt: &impl Abort, alloc: Global, bytes: &[u8]) -> u32 {
    let mut compared = 0_u32;
    for list in hostile(alloc, bytes).expect(rt, "memory") {
        both(rt, alloc, &list);
        compared = compared.saturating_add(1);
    }
    compared
}

/// Deltas of 52, 67, 60 and 165 bytes, and at how many lists of bytes both are compared.
const COMPARED: [(&[u8], u32); 4] = [
    (&REQUEST, 158),
    (&HANDED_ON, 203),
    (&COUNTED, 182),
    (&KINDS, 497),
];

#[test]
fn hostile_deltas_are_read_as_by_a_plain_reader(rt: HostRuntime) {
    for (bytes, compared) in COMPARED {
        assert_eq!(rt; compare(&rt, rt.alloc(), bytes), compared, "{bytes:?}");
    }
}

/// Bytes put in the place of others of a delta, so that a field has the greatest number that is allowed, or one more; their offset, and that
/// of the first bad field.
const EDGES: [(&[u8], usize, &[u8], Option<usize>); 22] = [
    (&REQUEST, 2, &[255, 255, 239, 255], None),
    (&REQUEST, 2, &[255, 255, 240, 0], Some(2)),
    (&REQUEST, 14, &[1, 0], None),
    (&REQUEST, 14, &[1, 1], Some(14)),
    (&REQUEST, 16, &[0, 15, 66, 64], None),
    (&REQUEST, 16, &[0, 15, 66, 65], Some(16)),
    (&REQUEST, 20, &[64], None),
    (&REQUEST, 20, &[65], Some(20)),
    (&REQUEST, 33, &[64], None),
    (&REQUEST, 33, &[65], Some(33)),
    (&REQUEST, 41, &[1, 0], None),
    (&REQUEST, 41, &[1, 1], Some(41)),
    (&COUNTED, 36, &[64], None),
    (&COUNTED, 36, &[65], Some(36)),
    (&KINDS, WAIT, &[64, 64], None),
    (&KINDS, WAIT, &[65, 64], Some(WAIT)),
    (&KINDS, WAIT, &[64, 65], Some(WAIT + 1)),
    (&KINDS, ARGUMENTS, &[4], None),
    (&KINDS, ARGUMENTS, &[5], Some(ARGUMENTS)),
    (&KINDS, BROADCAST, &[0, 0, 0, 0, 0, 0, 0, 7], None),
    (
        &KINDS,
        BROADCAST,
        &[0, 0, 0, 0, 0, 0, 0, 8],
        Some(BROADCAST),
    ),
    (
        &KINDS,
        BROADCAST,
        &[128, 0, 0, 0, 0, 0, 0, 0],
        Some(BROADCAST),
    ),
];

/// So many lanes that did nothing before, and so many random numbers of the last one.
fn randoms(rt: &impl Abort, alloc: Global, lanes: u8, events: u16) -> Vec<u8> {
    let mut bytes = Vec::new(alloc);
    bytes.extend_from_slice(&[1, lanes]).expect(rt, "memory");
    for _ in 0..lanes {
        bytes.extend_from_slice(&[0; 4]).expect(rt, "memory");
    }
    bytes
        .extend_from_slice(&events.to_be_bytes())
        .expect(rt, "memory");
    for _ in 0..events {
        bytes
            .extend_from_slice(&[lanes, 13, 0, 0, 0, 5, 0])
            .expect(rt, "memory");
    }
    bytes
}

/// Numbers of lanes and of events, and where such a delta is bad.
const LARGEST: [(u8, u16, Option<usize>); 3] = [
    (64, 4_096, None),
    (65, 4_096, Some(1)),
    (64, 4_097, Some(258)),
];

#[test]
fn deltas_are_read_up_to_their_limits(rt: HostRuntime) {
    for (bytes, at, new, bad) in EDGES {
        let edge = patched(&rt, rt.alloc(), bytes, at, new);
        let found = both(&rt, rt.alloc(), &edge);
        assert_eq!(rt; found, bad, "{edge:?}");
    }
    for (lanes, events, bad) in LARGEST {
        let bytes = randoms(&rt, rt.alloc(), lanes, events);
        assert_eq!(rt; both(&rt, rt.alloc(), &bytes), bad);
    }
}
