//! Reading events and their causes.

ghost use Rattle.std.specs.Prelude.{◌≡◌, ◌+◌, ◌<◌, ◌≤◌, ◌&&◌, not, length, is_some, IfOk, IfErr};
ghost use Rattle.std.specs.List.{All};
ghost use Rattle.rex_event.specs.Limits.{most_lanes};
ghost use Rattle.rex_event.specs.Conflict.{named_semaphore};
ghost use Rattle.rex_event.specs.Cuts.{count_at};
ghost use Rattle.rex_wire.specs.Decoding.{ReadsOn, IsBad};
ghost use Rattle.rex_delta.specs.Spelling.{greatest_base};
ghost use Rattle.rex_delta.specs.Reading.{cause_at, causes_at, least_kind, most_kind, first_before, events_at, bases_at};
ghost use Rattle.rex_delta.specs.Parts.{head_at, cause_count_at, all_causes_at};

use crate::lane_counts::{has_others, may_be_cause, may_be_index};
use crate::limits::{COUNTING, GREATEST_BASE, KINDS, PLAIN_KINDS};
use crate::read_kinds::kind;
use rex_event::{Cause, DELTA_EVENTS, Event, Kind};
use rex_list::List;
use rex_wire::{DecodeError, Reader, u8_at_most, u8_between, u32_at_most};
use std::alloc::Global;

/// A cause of an event of this lane, whose lane has a number above this one.
#[tactic(auto, unfolding(crate::specs::Reading::cause_at))]
pub fn cause(
    reader: &mut Reader,
    bases: &[u32],
    counts: &[u32],
    lane: u8,
    above: u8,
) -> Result<Cause, DecodeError>
    requires alike { length bases.now ≡ length counts.now }
    requires few { length counts.now ≤ most_lanes }
    requires there { lane < length counts.now }
    ensures read { ReadsOn result reader.new (cause_at bases.now counts.now lane above reader.old) }
    ensures there { IfOk result (λ c. c.lane < length counts.now) }
    ensures fault { IfErr result IsBad }
{
    let at = reader.at();
    let number = reader.u8()?;
    if !may_be_cause(bases, counts, lane, above, number) {
        return Err(DecodeError::Bad { at });
    }
    let at = reader.at();
    let index = reader.u32()?;
    if !may_be_index(bases, counts, number - 1, index) {
        return Err(DecodeError::Bad { at });
    }
    Ok(Cause {
        lane: number - 1,
        index,
    })
}

/// As many causes of an event of this lane.
fn causes(
    alloc: Global,
    reader: &mut Reader,
    bases: &[u32],
    counts: &[u32],
    lane: u8,
    count: u8,
) -> Result<List<Cause>, DecodeError>
    requires alike { length bases.now ≡ length counts.now }
    requires few { length counts.now ≤ most_lanes }
    requires there { lane < length counts.now }
    ensures { ReadsOn result reader.new (causes_at bases.now counts.now lane count 0 reader.old) }
{
    let mut causes = List::from_vec(Vec::with_capacity(alloc, count as usize)?);
    let mut above = 0;
    for _ in 0..count {
        let cause = cause(reader, bases, counts, lane, above)?;
        above = cause.lane + 1;
        causes.push(cause)?;
    }
    Ok(causes)
}

/// Whether the event is on a semaphore.
pub fn is_counting(kind: &Kind) -> bool
    ensures { result ≡ is_some (named_semaphore kind.now) }
{
    matches!(kind, Kind::Down { .. } | Kind::Up { .. })
}

/// The least kind of an event, where so many come after it, by whether one on a semaphore is due.
pub fn least_kind(due: bool, later: u16) -> u8
    ensures { result ≡ least_kind due later }
{
    if due && later == 0 {
        PLAIN_KINDS + 1
    } else {
        1
    }
}

/// The greatest kind of a version.
pub fn most_kind(version: u8) -> u8
    ensures { result ≡ most_kind version }
{
    if version == COUNTING {
        KINDS
    } else {
        PLAIN_KINDS
    }
}

/// Whether an event on a semaphore is due after one of this kind.
pub fn still_due(due: bool, kind: &Kind) -> bool
    ensures { result ≡ (due && not (is_some (named_semaphore kind.now))) }
{
    due && !is_counting(kind)
}

/// An event before its causes, where lanes did so many events before it, and its kind is in this range.
#[inline(always)]
#[tactic(auto, unfolding(crate::specs::Parts::head_at))]
pub fn head(reader: &mut Reader, counts: &[u32], least: u8, most: u8) -> Result<Event, DecodeError>
    requires few { length counts.now ≤ most_lanes }
    ensures read { ReadsOn result reader.new (head_at counts.now least most reader.old) }
    ensures there { IfOk result (λ e. e.lane < length counts.now) }
    ensures numbered { IfOk result (λ e. e.index ≡ count_at counts.now e.lane) }
{
    let lanes = counts.len() as u8;
    let lane = u8_between(reader, 1, lanes)? - 1;
    let kind = kind(reader, lanes, least, most)?;
    Ok(Event {
        lane,
        index: counts[lane as usize],
        kind,
    })
}

/// How many causes an event of this lane has.
#[inline(always)]
pub fn cause_count(
    reader: &mut Reader,
    bases: &[u32],
    counts: &[u32],
    lane: u8,
) -> Result<u8, DecodeError>
    requires alike { length bases.now ≡ length counts.now }
    requires few { length counts.now ≤ most_lanes }
    ensures read { ReadsOn result reader.new (cause_count_at bases.now counts.now lane reader.old) }
    ensures fault { IfErr result IsBad }
{
    let at = reader.at();
    let count = reader.u8()?;
    if !has_others(bases, counts, lane, count) {
        return Err(DecodeError::Bad { at });
    }
    Ok(count)
}

/// The causes of an event of this lane, after their number.
#[tactic(auto, unfolding(crate::specs::Parts::all_causes_at))]
fn all_causes(
    alloc: Global,
    reader: &mut Reader,
    bases: &[u32],
    counts: &[u32],
    lane: u8,
) -> Result<List<Cause>, DecodeError>
    requires alike { length bases.now ≡ length counts.now }
    requires few { length counts.now ≤ most_lanes }
    requires there { lane < length counts.now }
    ensures { ReadsOn result reader.new (all_causes_at bases.now counts.now lane reader.old) }
{
    let count = cause_count(reader, bases, counts, lane)?;
    causes(alloc, reader, bases, counts, lane, count)
}

/// As many events, each with its causes, of this version.
pub fn events(
    alloc: Global,
    reader: &mut Reader,
    version: u8,
    bases: &[u32],
    count: u16,
) -> Result<(List<Event>, List<List<Cause>>), DecodeError>
    requires few { length bases.now ≤ most_lanes }
    requires small { All (λ base. base ≤ greatest_base) bases.now }
    requires some { count ≤ DELTA_EVENTS }
    ensures { ReadsOn result reader.new (events_at bases.now (first_before version bases.now count) count reader.old) }
{
    let mut counts = Vec::from_slice(alloc, bases)?;
    let mut events = List::from_vec(Vec::with_capacity(alloc, count as usize)?);
    let mut lists = List::from_vec(Vec::with_capacity(alloc, count as usize)?);
    let most = most_kind(version);
    let mut due = version == COUNTING;
    for place in 0..count {
        let least = least_kind(due, count - 1 - place);
        let event = head(reader, &counts, least, most)?;
        let lane = event.lane;
        let index = event.index;
        due = still_due(due, &event.kind);
        events.push(event)?;
        let causes = all_causes(alloc, reader, bases, &counts, lane)?;
        counts[lane as usize] = index + 1;
        lists.push(causes)?;
    }
    Ok((events, lists))
}

/// As many bases.
pub fn bases(alloc: Global, reader: &mut Reader, lanes: u8) -> Result<List<u32>, DecodeError>
    ensures read { ReadsOn result reader.new (bases_at lanes reader.old) }
    ensures long { IfOk result (λ bases. length bases ≡ lanes) }
    ensures small { IfOk result (λ bases. All (λ base. base ≤ greatest_base) bases) }
{
    let mut bases = List::new(alloc);
    for _ in 0..lanes {
        let base = u32_at_most(reader, GREATEST_BASE)?;
        bases.push(base)?;
    }
    Ok(bases)
}
