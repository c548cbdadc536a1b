//! Reading events and their causes only to see that they are right.

ghost use Rattle.std.specs.Prelude.{◌≡◌, ◌+◌, ◌^◌, ◌<◌, ◌≤◌, ◌&&◌, not, [], length, slice_set, OnOk, IfErr};
ghost use Rattle.std.specs.List.{All};
ghost use Rattle.arrayvec.specs.ArrayVec.{array_vec_len};
ghost use Rattle.rex_event.specs.Limits.{most_lanes};
ghost use Rattle.rex_wire.specs.Decoding.{ReadsOn, IsBad};
ghost use Rattle.rex_delta.specs.Spelling.{greatest_base};
ghost use Rattle.rex_delta.specs.Reading.{causes_at, first_before, events_at, bases_at};
ghost use Rattle.rex_delta.specs.Parts.{all_causes_at, passed, ReadsInto};

use crate::limits::{COUNTING, GREATEST_BASE};
use crate::pass_kinds::pass_head;
use crate::read_events::{cause, cause_count, least_kind, most_kind};
use arrayvec::ArrayVec;
use rex_event::{DELTA_EVENTS, LANES};
use rex_wire::{DecodeError, Reader, u32_at_most};

/// As many causes of an event of this lane.
#[inline(never)]
fn pass_causes(
    reader: &mut Reader,
    bases: &[u32],
    counts: &[u32],
    lane: u8,
    count: u8,
) -> Result<(), DecodeError>
    requires alike { length bases.now ≡ length counts.now }
    requires few { length counts.now ≤ most_lanes }
    requires there { lane < length counts.now }
    ensures read { ReadsOn result reader.new (passed (causes_at bases.now counts.now lane count 0 reader.old)) }
    ensures fault { IfErr result IsBad }
{
    let mut above = 0;
    for _ in 0..count {
        let cause = cause(reader, bases, counts, lane, above)?;
        above = cause.lane + 1;
    }
    Ok(())
}

/// The causes of an event of this lane, after their number.
#[inline(always)]
#[tactic(auto, unfolding(crate::specs::Parts::all_causes_at, crate::specs::Reading::causes_at))]
pub fn pass_all_causes(
    reader: &mut Reader,
    bases: &[u32],
    counts: &[u32],
    lane: u8,
) -> Result<(), DecodeError>
    requires alike { length bases.now ≡ length counts.now }
    requires few { length counts.now ≤ most_lanes }
    requires there { lane < length counts.now }
    ensures read { ReadsOn result reader.new (passed (all_causes_at bases.now counts.now lane reader.old)) }
    ensures fault { IfErr result IsBad }
{
    let count = cause_count(reader, bases, counts, lane)?;
    if count == 0 {
        return Ok(());
    }
    pass_causes(reader, bases, counts, lane, count)
}

/// Puts numbers into an array that has none, where it stands: such an array is long to move.
pub fn fill(array: &mut ArrayVec<u32, LANES>, numbers: &[u32])
    requires empty { array.old.items ≡ [] }
    requires few { length numbers.now ≤ most_lanes }
    ensures { array.new.items ≡ numbers.now }
{
    for number in numbers {
        array.push(*number);
    }
}

/// Counts the event of a lane that has this index.
pub fn count_event(counts: &mut ArrayVec<u32, LANES>, lane: u8, index: u32)
    requires there { lane < array_vec_len counts.old }
    requires room { index + 1 < 2 ^ 32 }
    ensures { counts.new.items ≡ slice_set counts.old.items lane (index + 1) }
{
    counts[lane as usize] = index + 1;
}

/// Whether an event on a semaphore is due after one that is or isn't on a semaphore.
fn is_due_after(due: bool, is_counting: bool) -> bool
    ensures { result ≡ (due && not is_counting) }
{
    due && !is_counting
}

/// As many events, each with its causes, of this version.
pub fn pass_events(
    reader: &mut Reader,
    version: u8,
    bases: &[u32],
    count: u16,
) -> Result<(), DecodeError>
    requires few { length bases.now ≤ most_lanes }
    requires small { All (λ base. base ≤ greatest_base) bases.now }
    requires some { count ≤ DELTA_EVENTS }
    ensures read { ReadsOn result reader.new (passed (events_at bases.now (first_before version bases.now count) count reader.old)) }
    ensures fault { IfErr result IsBad }
{
    let mut counts = ArrayVec::new();
    fill(&mut counts, bases);
    let most = most_kind(version);
    let mut due = version == COUNTING;
    for place in 0..count {
        let least = least_kind(due, count - 1 - place);
        let seen = pass_head(reader, counts.as_slice(), least, most)?;
        pass_all_causes(reader, bases, counts.as_slice(), seen.lane)?;
        due = is_due_after(due, seen.is_counting);
        let index = counts[seen.lane as usize];
        count_event(&mut counts, seen.lane, index);
    }
    Ok(())
}

/// As many bases, put into an array that has none: they take no memory, and stay where they stand.
pub fn few_bases(
    reader: &mut Reader,
    lanes: u8,
    bases: &mut ArrayVec<u32, LANES>,
) -> Result<(), DecodeError>
    requires few { lanes ≤ most_lanes }
    requires empty { bases.old.items ≡ [] }
    ensures read { ReadsInto result bases.new.items reader.new (bases_at lanes reader.old) }
    ensures long { OnOk result (array_vec_len bases.new ≡ lanes) }
    ensures small { OnOk result (All (λ base. base ≤ greatest_base) bases.new.items) }
    ensures fault { IfErr result IsBad }
{
    for _ in 0..lanes {
        let base = u32_at_most(reader, GREATEST_BASE)?;
        bases.push(base);
    }
    Ok(())
}
