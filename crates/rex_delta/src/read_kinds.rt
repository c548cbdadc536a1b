//! Reading what an event did. It is in line in each loop over events: one that only looks builds no kinds.

ghost use Rattle.std.specs.Prelude.{◌≡◌, ◌^◌, ◌≤◌, nat_lt, IfErr};
ghost use Rattle.rex_event.specs.Limits.{most_lanes};
ghost use Rattle.rex_event.specs.declared.event.Kind.TheVariants.{AcqEx, AcqSh, RelEx, RelSh, TryOk, TryBusy, Wait, Wake};
ghost use Rattle.rex_wire.specs.Decoding.{ReadsOn, IsBad};
ghost use Rattle.rex_delta.specs.Reading.{place_at, arguments_at, begin_at, lock_at, condition_at, signal_at, broadcast_at, clock_at, random_at};
ghost use Rattle.rex_delta.specs.Reading.{reply_at, content_at, kind_at};

use crate::limits::PLACES;
use rex_event::{CLIENTS, Kind, SEQUENCES};
use rex_list::{ARGUMENTS, Arguments};
use rex_wire::{DecodeError, Reader, u8_between, u16_between, u32_between};

/// A handler, a lock, a semaphore or a condition, numbered from 0.
#[tactic(auto, unfolding(crate::specs::Reading::place_at))]
pub fn place(reader: &mut Reader) -> Result<u8, DecodeError>
    ensures read { ReadsOn result reader.new (place_at reader.old) }
    ensures fault { IfErr result IsBad }
{
    Ok(u8_between(reader, 1, PLACES)? - 1)
}

#[inline(never)]
fn arguments(reader: &mut Reader, count: u8) -> Result<Arguments, DecodeError>
    requires { count ≤ ARGUMENTS }
    ensures { ReadsOn result reader.new (arguments_at count reader.old) }
{
    let mut arguments = Arguments::new();
    for _ in 0..count {
        let value = reader.i64()?;
        arguments.push(value);
    }
    Ok(arguments)
}

#[inline(always)]
#[tactic(auto, unfolding(crate::specs::Reading::begin_at))]
fn begin(reader: &mut Reader) -> Result<Kind, DecodeError>
    ensures { ReadsOn result reader.new (begin_at reader.old) }
{
    let client = u16_between(reader, 1, CLIENTS)?;
    let sequence = u32_between(reader, 1, SEQUENCES)?;
    let handler = place(reader)?;
    let count = u8_between(reader, 0, ARGUMENTS as u8)?;
    let arguments = arguments(reader, count)?;
    Ok(Kind::Begin {
        client,
        sequence,
        handler,
        arguments,
    })
}

#[tactic(auto, unfolding(crate::specs::Reading::signal_at))]
fn signal(reader: &mut Reader, lanes: u8) -> Result<Kind, DecodeError>
    ensures { ReadsOn result reader.new (signal_at lanes reader.old) }
{
    let condition = place(reader)?;
    let number = u8_between(reader, 0, lanes)?;
    let woken = if number == 0 { None } else { Some(number - 1) };
    Ok(Kind::Signal { condition, woken })
}

/// Whether bits are of so many lanes.
pub fn is_of_lanes(bits: u64, lanes: u8) -> bool
    requires { lanes ≤ most_lanes }
    ensures { result ≡ nat_lt bits (2 ^ lanes) }
{
    lanes >= 64 || bits < 1 << lanes
}

#[tactic(auto, unfolding(crate::specs::Reading::broadcast_at))]
fn broadcast(reader: &mut Reader, lanes: u8) -> Result<Kind, DecodeError>
    requires { lanes ≤ most_lanes }
    ensures { ReadsOn result reader.new (broadcast_at lanes reader.old) }
{
    let condition = place(reader)?;
    let at = reader.at();
    let woken = reader.u64()?;
    if !is_of_lanes(woken, lanes) {
        return Err(DecodeError::Bad { at });
    }
    Ok(Kind::Broadcast { condition, woken })
}

#[tactic(auto, unfolding(crate::specs::Reading::clock_at))]
fn clock(reader: &mut Reader) -> Result<Kind, DecodeError>
    ensures { ReadsOn result reader.new (clock_at reader.old) }
{
    let value = reader.i64()?;
    Ok(Kind::Clock { value })
}

#[tactic(auto, unfolding(crate::specs::Reading::random_at))]
fn random(reader: &mut Reader) -> Result<Kind, DecodeError>
    ensures { ReadsOn result reader.new (random_at reader.old) }
{
    let value = reader.u32()?;
    Ok(Kind::Random { value })
}

#[inline(always)]
#[tactic(auto, unfolding(crate::specs::Reading::reply_at))]
fn reply(reader: &mut Reader) -> Result<Kind, DecodeError>
    ensures { ReadsOn result reader.new (reply_at reader.old) }
{
    let client = u16_between(reader, 1, CLIENTS)?;
    let value = reader.i64()?;
    Ok(Kind::Reply { client, value })
}

#[tactic(auto, unfolding(crate::specs::Reading::condition_at))]
fn wait(reader: &mut Reader) -> Result<Kind, DecodeError>
    ensures { ReadsOn result reader.new (condition_at Wait reader.old) }
{
    let condition = place(reader)?;
    let lock = place(reader)?;
    Ok(Kind::Wait { condition, lock })
}

#[tactic(auto, unfolding(crate::specs::Reading::condition_at))]
fn wake(reader: &mut Reader) -> Result<Kind, DecodeError>
    ensures { ReadsOn result reader.new (condition_at Wake reader.old) }
{
    let condition = place(reader)?;
    let lock = place(reader)?;
    Ok(Kind::Wake { condition, lock })
}

/// What follows the number of a kind.
#[inline(always)]
#[tactic(auto, unfolding(crate::specs::Reading::lock_at))]
fn content(reader: &mut Reader, lanes: u8, code: u8) -> Result<Kind, DecodeError>
    requires { lanes ≤ most_lanes }
    ensures { ReadsOn result reader.new (content_at lanes code reader.old) }
{
    match code {
        1 => begin(reader),
        2 => Ok(Kind::AcqEx {
            lock: place(reader)?,
        }),
        3 => Ok(Kind::AcqSh {
            lock: place(reader)?,
        }),
        4 => Ok(Kind::RelEx {
            lock: place(reader)?,
        }),
        5 => Ok(Kind::RelSh {
            lock: place(reader)?,
        }),
        6 => Ok(Kind::TryOk {
            lock: place(reader)?,
        }),
        7 => Ok(Kind::TryBusy {
            lock: place(reader)?,
        }),
        8 => wait(reader),
        9 => wake(reader),
        10 => signal(reader, lanes),
        11 => broadcast(reader, lanes),
        12 => clock(reader),
        13 => random(reader),
        14 => reply(reader),
        15 => Ok(Kind::Down {
            semaphore: place(reader)?,
        }),
        _ => Ok(Kind::Up {
            semaphore: place(reader)?,
        }),
    }
}

/// What an event did, of so many lanes, by a kind whose number is in this range.
#[inline(always)]
#[tactic(auto, unfolding(crate::specs::Reading::kind_at))]
pub fn kind(reader: &mut Reader, lanes: u8, least: u8, most: u8) -> Result<Kind, DecodeError>
    requires { lanes ≤ most_lanes }
    ensures { ReadsOn result reader.new (kind_at lanes least most reader.old) }
{
    let code = u8_between(reader, least, most)?;
    content(reader, lanes, code)
}
