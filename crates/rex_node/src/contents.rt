//! What the records of a keeper hold.

ghost use Rattle.std.specs.Prelude.{◌≡◌, ◌==◌, ◌||◌, ◌+◌, ◌≤◌, ℕ, List as Items, None, drop, get_or, length, true};
ghost use Rattle.std.specs.List.{All};
ghost use Rattle.rex_syntax.specs.declared.service.Declarations.{Declarations};
ghost use Rattle.rex_delta.specs.Reading.{delta_in};
ghost use Rattle.rex_durable.specs.declared.records.Rec.{Rec};
ghost use Rattle.rex_durable.specs.Kept.{Spell};
ghost use Rattle.rex_durable.specs.Recovery.{checkpoint, recovered as recovered_of, snapshot_of};
ghost use Rattle.rex_transfer.specs.Window.{SpellsDelta};
ghost use Rattle.rex_node.specs.Restarting as spec;
ghost use Rattle.rex_node.specs.Stated.{is_state_kind};

use crate::checkpointing::is_old;
use rex_ballot::{INSTANCES, Value};
use rex_durable::Recovered;
use rex_durable::layout::{CHECKPOINT, HEAD, KNOWN, TRANSFERRED};
use rex_snapshot::version_in;
use rex_traits::Keeper;
use rex_transfer::Window;

/// The number of a record, counted from 1, and an offset in it.
#[derive(Clone, Copy, Debug, PartialEq, Eq)]
pub struct Place {
    pub number: usize,
    pub at: usize,
}

// The kind of a record.
fn kind_of(bytes: &[u8]) -> u8
    ensures { result ≡ get_or bytes.now 0 0 }
{
    match bytes.first() {
        Some(kind) => *kind,
        None => 0,
    }
}

// What stands behind the length in a record: its value or its snapshot.
fn content_of(bytes: &[u8]) -> &[u8]
    ensures { result.now ≡ drop 9 bytes.now }
{
    if bytes.len() < HEAD {
        return &bytes[bytes.len()..];
    }
    &bytes[HEAD..]
}

// Whether a record of a known value is of an instance above the offset, whose value the node holds: the instance stands behind the
// kind, in 4 bytes.
fn is_held(bytes: &[u8], offset: u32) -> bool
    ensures { result ≡ spec.is_held offset bytes.now }
{
    match bytes {
        [_, a, b, c, d, ..] => u32::from_be_bytes([*a, *b, *c, *d]) > offset,
        _ => false,
    }
}

// Where a record is bad that holds this value.
fn bad_in_value(value: &[u8]) -> Option<usize>
    ensures { result ≡ spec.bad_at (delta_in value.now) }
{
    bad_at(&rex_delta::check(value))
}

// Where a record of a node of this offset is bad, behind which one with a state comes or none, where the last state is bad here, or isn't.
fn bad_in(bytes: &[u8], offset: u32, later: bool, last: Option<usize>) -> Option<usize>
    ensures { result ≡ spec.bad_behind last (get_or bytes.now 0 0) (spec.is_held offset bytes.now) (drop 9 bytes.now) later }
{
    let kind = kind_of(bytes);
    if kind == KNOWN && is_held(bytes, offset) {
        return bad_in_value(content_of(bytes));
    }
    if is_state(kind) && !later {
        return last;
    }
    None
}

// Whether a record of this kind holds a state.
fn is_state(kind: u8) -> bool
    ensures { result ≡ is_state_kind kind }
{
    kind == CHECKPOINT || kind == TRANSFERRED
}

// Whether a record with a state comes behind, or this record is one.
fn comes(later: bool, bytes: &[u8]) -> bool
    ensures { result ≡ (later || is_state_kind (get_or bytes.now 0 0)) }
{
    later || is_state(kind_of(bytes))
}

// This place in the record of the number, or else a later one.
fn place_or(number: usize, bad: Option<usize>, later: Option<Place>) -> Option<Place>
    ensures { result ≡ spec.place_or number bad later }
{
    match bad {
        Some(at) => Some(Place { number, at }),
        None => later,
    }
}

/// Where a record is bad whose content reads so, if it is.
pub(crate) fn bad_at<T>(content: &Result<T, usize>) -> Option<usize>
    ensures { result ≡ spec.bad_at content.now }
{
    match content {
        Ok(_) => None,
        Err(at) => Some(at.saturating_add(HEAD)),
    }
}

// Whether the value of an instance spells a delta. One that the window knows to do so isn't read again.
fn is_delta(window: &Window, instance: u32, value: &[u8]) -> bool
    ensures { result ≡ true → SpellsDelta value.now }
{
    window.knows_delta(instance, value) || bad_in_value(value).is_none()
}

// Whether each of these values, which are those of the instances past so many, does.
fn are_deltas(window: &Window, offset: u32, values: &[Value]) -> bool
    requires { offset + length values.now ≤ INSTANCES }
    ensures { result ≡ true → All SpellsDelta values.now }
{
    for index in 0..values.len() {
        if !is_delta(window, offset + index as u32 + 1, values[index].as_slice()) {
            return false;
        }
    }
    true
}

// The first bad place in what a keeper's records hold, found by a look at each of them.
fn first_bad<K: Keeper>(keeper: &K, offset: u32, last: Option<usize>) -> Option<Place>
    ensures { (service : Declarations) (rs : Items Rec) → Spell (K.records keeper.now) rs
        → last ≡ spec.bad_at (spec.state_at service (snapshot_of (checkpoint rs))) → result ≡ spec.first_bad service offset 1 rs }
{
    let count = keeper.len();
    let mut found = None;
    let mut later = false;
    for back in 0..count {
        let index = count - 1 - back;
        let bytes = keeper.get(index);
        found = place_or(index + 1, bad_in(bytes, offset, later, last), found);
        later = comes(later, bytes);
    }
    found
}

/// The first bad place in what the records hold of which this was recovered: known values above the offset have to spell deltas, and the
/// last snapshot, of a checkpoint or of a state that was taken over, a state. The caller read that, and says where it is bad. The records
/// are looked through only where something is.
pub(crate) fn bad_place<K: Keeper>(
    keeper: &K,
    recovered: &Recovered,
    window: &Window,
    last: Option<usize>,
) -> Option<Place>
    requires { recovered.now.offset + length recovered.now.known ≤ INSTANCES }
    ensures { (service : Declarations) (rs : Items Rec) → Spell (K.records keeper.now) rs → recovered.now ≡ recovered_of rs
        → last ≡ spec.bad_at (spec.state_at service recovered.now.snapshot) → result ≡ spec.first_bad service recovered.now.offset 1 rs }
{
    if last.is_none() && are_deltas(window, recovered.offset, recovered.known.as_slice()) {
        return None;
    }
    first_bad(keeper, recovered.offset, last)
}

// Whether the last checkpoint is in the old version, this record being the last one.
fn old_with(before: bool, bytes: &[u8]) -> bool
    ensures { result ≡ spec.old_behind before (get_or bytes.now 0 0) (drop 9 bytes.now) }
{
    if kind_of(bytes) == CHECKPOINT {
        return is_old(version_in(content_of(bytes)));
    }
    before
}

/// Whether the last checkpoint that a keeper has, if it has one, is in the old version, whatever was dropped or taken over since.
pub(crate) fn ends_old<K: Keeper>(keeper: &K) -> bool
    ensures { (rs : Items Rec) → Spell (K.records keeper.now) rs → result ≡ spec.ends_old rs }
{
    let mut old = false;
    for index in 0..keeper.len() {
        old = old_with(old, keeper.get(index));
    }
    old
}
