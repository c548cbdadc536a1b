//! Reading what an event did only to see that it is right: no kind is built.

ghost use Rattle.std.specs.Prelude.{◌≤◌, ◌<◌, length, IfOk, IfErr};
ghost use Rattle.rex_event.specs.Limits.{most_lanes};
ghost use Rattle.rex_wire.specs.Decoding.{ReadsOn, IsBad};
ghost use Rattle.rex_delta.specs.Reading.{arguments_at, begin_at, signal_at, broadcast_at, reply_at, content_at, kind_at};
ghost use Rattle.rex_delta.specs.Parts.{counting, passed, seen_at};

use crate::read_kinds::{is_of_lanes, place};
use rex_event::{CLIENTS, SEQUENCES};
use rex_list::ARGUMENTS;
use rex_wire::{DecodeError, Reader, u8_between, u16_between, u32_between};

/// What is kept of an event that is only looked at.
#[derive(Clone, Copy)]
pub struct Seen {
    pub lane: u8,
    /// Whether it is on a semaphore.
    pub is_counting: bool,
}

fn pass_arguments(reader: &mut Reader, count: u8) -> Result<(), DecodeError>
    ensures read { ReadsOn result reader.new (passed (arguments_at count reader.old)) }
    ensures fault { IfErr result IsBad }
{
    for _ in 0..count {
        reader.i64()?;
    }
    Ok(())
}

#[inline(always)]
#[tactic(auto, unfolding(crate::specs::Reading::begin_at))]
fn pass_begin(reader: &mut Reader) -> Result<bool, DecodeError>
    ensures read { ReadsOn result reader.new (counting (begin_at reader.old)) }
    ensures fault { IfErr result IsBad }
{
    u16_between(reader, 1, CLIENTS)?;
    u32_between(reader, 1, SEQUENCES)?;
    place(reader)?;
    let count = u8_between(reader, 0, ARGUMENTS as u8)?;
    pass_arguments(reader, count)?;
    Ok(false)
}

#[inline(always)]
#[tactic(auto, unfolding(crate::specs::Reading::signal_at))]
fn pass_signal(reader: &mut Reader, lanes: u8) -> Result<bool, DecodeError>
    ensures read { ReadsOn result reader.new (counting (signal_at lanes reader.old)) }
    ensures fault { IfErr result IsBad }
{
    place(reader)?;
    u8_between(reader, 0, lanes)?;
    Ok(false)
}

#[inline(never)]
#[tactic(auto, unfolding(crate::specs::Reading::broadcast_at))]
fn pass_broadcast(reader: &mut Reader, lanes: u8) -> Result<bool, DecodeError>
    requires { lanes ≤ most_lanes }
    ensures read { ReadsOn result reader.new (counting (broadcast_at lanes reader.old)) }
    ensures fault { IfErr result IsBad }
{
    place(reader)?;
    let at = reader.at();
    let woken = reader.u64()?;
    if !is_of_lanes(woken, lanes) {
        return Err(DecodeError::Bad { at });
    }
    Ok(false)
}

#[inline(always)]
#[tactic(auto, unfolding(crate::specs::Reading::reply_at))]
fn pass_reply(reader: &mut Reader) -> Result<bool, DecodeError>
    ensures read { ReadsOn result reader.new (counting (reply_at reader.old)) }
    ensures fault { IfErr result IsBad }
{
    u16_between(reader, 1, CLIENTS)?;
    reader.i64()?;
    Ok(false)
}

/// What follows the number of a kind.
#[inline(always)]
#[tactic(auto, unfolding(crate::specs::Reading::lock_at, crate::specs::Reading::condition_at, crate::specs::Reading::clock_at, crate::specs::Reading::random_at))]
fn pass_content(reader: &mut Reader, lanes: u8, code: u8) -> Result<bool, DecodeError>
    requires { lanes ≤ most_lanes }
    ensures read { ReadsOn result reader.new (counting (content_at lanes code reader.old)) }
    ensures fault { IfErr result IsBad }
{
    match code {
        1 => return pass_begin(reader),
        2..=7 => {
            place(reader)?;
        }
        8..=9 => {
            place(reader)?;
            place(reader)?;
        }
        10 => return pass_signal(reader, lanes),
        11 => return pass_broadcast(reader, lanes),
        12 => {
            reader.i64()?;
        }
        13 => {
            reader.u32()?;
        }
        14 => return pass_reply(reader),
        _ => {
            place(reader)?;
            return Ok(true);
        }
    }
    Ok(false)
}

/// What an event did, of so many lanes, by a kind whose number is in this range.
#[inline(always)]
#[tactic(auto, unfolding(crate::specs::Reading::kind_at))]
fn pass_kind(reader: &mut Reader, lanes: u8, least: u8, most: u8) -> Result<bool, DecodeError>
    requires { lanes ≤ most_lanes }
    ensures read { ReadsOn result reader.new (counting (kind_at lanes least most reader.old)) }
    ensures fault { IfErr result IsBad }
{
    let code = u8_between(reader, least, most)?;
    pass_content(reader, lanes, code)
}

/// An event before its causes, where lanes did so many events before it, and its kind is in this range.
#[inline(always)]
#[tactic(auto, unfolding(crate::specs::Parts::seen_at))]
pub fn pass_head(
    reader: &mut Reader,
    counts: &[u32],
    least: u8,
    most: u8,
) -> Result<Seen, DecodeError>
    requires few { length counts.now ≤ most_lanes }
    ensures read { ReadsOn result reader.new (seen_at counts.now least most reader.old) }
    ensures there { IfOk result (λ s. s.lane < length counts.now) }
    ensures fault { IfErr result IsBad }
{
    let lanes = counts.len() as u8;
    let lane = u8_between(reader, 1, lanes)? - 1;
    let is_counting = pass_kind(reader, lanes, least, most)?;
    Ok(Seen { lane, is_counting })
}
