//! Reading the events of a delta without their causes.

ghost use Rattle.std.specs.Prelude.{◌≡◌, ◌+◌, ◌≤◌, length, take, vec_len, vec_capacity, IfOk, OnErr, Ok};
ghost use Rattle.std.specs.List.{All};
ghost use Rattle.rex_event.specs.Limits.{most_lanes};
ghost use Rattle.rex_event.specs.declared.delta.Delta.{Delta};
ghost use Rattle.rex_wire.specs.Decoding.{Gives};
ghost use Rattle.rex_wire.specs.Reading as reading;
ghost use Rattle.rex_delta.specs.Spelling.{greatest_base, HasSpelling, delta_bytes};
ghost use Rattle.rex_delta.specs.Reading.{first_before, delta_in, events_at};
ghost use Rattle.rex_delta.specs.Parts.{GivesInto, ReadsInto};
ghost use Rattle.rex_delta.specs.Alone.{alone, behind, behind_at, behind_of, events_in};

use crate::limits::{COUNTING, PLAIN};
use crate::pass_events::{count_event, few_bases, fill, pass_all_causes};
use crate::read_events::{head, least_kind, most_kind, still_due};
use arrayvec::ArrayVec;
use rex_event::{DELTA_EVENTS, Event, LANES};
use rex_list::List;
use rex_wire::{DecodeError, Reader, u8_between, u16_between};
use std::alloc::Global;

/// As many events of this version, put behind others, where there is room for them.
fn push_events(
    events: &mut Vec<Event>,
    reader: &mut Reader,
    version: u8,
    bases: &[u32],
    count: u16,
) -> Result<(), DecodeError>
    requires few { length bases.now ≤ most_lanes }
    requires small { All (λ base. base ≤ greatest_base) bases.now }
    requires some { count ≤ DELTA_EVENTS }
    requires room { vec_len events.old + count ≤ vec_capacity events.old }
    ensures read { ReadsInto result events.new.items reader.new
        (behind events.old.items (alone (events_at bases.now (first_before version bases.now count) count reader.old))) }
    ensures front { take (length events.old.items) events.new.items ≡ events.old.items }
{
    let mut counts = ArrayVec::new();
    fill(&mut counts, bases);
    let most = most_kind(version);
    let mut due = version == COUNTING;
    for place in 0..count {
        let least = least_kind(due, count - 1 - place);
        let event = head(reader, counts.as_slice(), least, most)?;
        let lane = event.lane;
        let index = event.index;
        due = still_due(due, &event.kind);
        events.push_reserved(event);
        pass_all_causes(reader, bases, counts.as_slice(), lane)?;
        count_event(&mut counts, lane, index);
    }
    Ok(())
}

#[tactic(auto, unfolding(crate::specs::Alone::behind_at))]
fn push_front(events: &mut Vec<Event>, reader: &mut Reader) -> Result<(), DecodeError>
    ensures read { ReadsInto result events.new.items reader.new (behind_at events.old.items reader.old) }
    ensures front { take (length events.old.items) events.new.items ≡ events.old.items }
{
    let version = u8_between(reader, PLAIN, COUNTING)?;
    let lanes = u8_between(reader, 1, LANES as u8)?;
    let mut bases = ArrayVec::new();
    few_bases(reader, lanes, &mut bases)?;
    let count = u16_between(reader, 1, DELTA_EVENTS as u16)?;
    events.reserve(count as usize)?;
    push_events(events, reader, version, bases.as_slice(), count)
}

/// The events of the delta that is all of the bytes, put behind others.
fn push_whole(events: &mut Vec<Event>, bytes: &[u8]) -> Result<(), DecodeError>
    ensures read { GivesInto result events.new.items (reading.whole (behind_at events.old.items) bytes.now) }
    ensures front { take (length events.old.items) events.new.items ≡ events.old.items }
{
    let mut reader = Reader::new(bytes);
    push_front(events, &mut reader)?;
    reader.end()?;
    Ok(())
}

/// Appends the events of the delta that the bytes spell, all of the bytes: those that [`decode_events`] finds. After an error
/// nothing is appended.
pub fn append_events(events: &mut Vec<Event>, bytes: &[u8]) -> Result<(), DecodeError>
    ensures exact { GivesInto result events.new.items (behind_of events.old.items (delta_in bytes.now)) }
    ensures err { OnErr result (events.new.items ≡ events.old.items) }
{
    let before = events.len();
    let end = push_whole(events, bytes);
    if end.is_err() {
        events.truncate(before);
    }
    end
}

/// The events of the delta that is all of the bytes.
fn whole(alloc: Global, bytes: &[u8]) -> Result<List<Event>, DecodeError>
    ensures { Gives result (events_in bytes.now) }
{
    let mut events = Vec::new(alloc);
    append_events(&mut events, bytes)?;
    Ok(List::from_vec(events))
}

/// The events of the delta that the bytes spell, all of the bytes: those that `decode` finds, without their causes.
pub fn decode_events(alloc: Global, bytes: &[u8]) -> Result<List<Event>, DecodeError>
    ensures found { IfOk result (λ es. (d : Delta) × HasSpelling d × (bytes.now ≡ delta_bytes d) × (es ≡ d.events)) }
    ensures only { (d : Delta) → HasSpelling d → bytes.now ≡ delta_bytes d → Gives result (Ok d.events) }
    ensures exact { Gives result (events_in bytes.now) }
{
    whole(alloc, bytes)
}
