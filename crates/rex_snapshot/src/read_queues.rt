//! Reading which lanes wait at each condition.

ghost use Rattle.std.specs.Prelude.{◌≡◌, ◌≤◌, [], true, length, IfOk};
ghost use Rattle.std.specs.Int.{w8};
ghost use Rattle.rex_event.specs.Limits.{most_lanes};
ghost use Rattle.rex_wire.specs.Decoding.{ReadsOn};
ghost use Rattle.rex_wire.specs.Reading.{allowed_at, list_at};
ghost use Rattle.rex_snapshot.specs.Allowed.{waiters, may_be_waiter};
ghost use Rattle.rex_snapshot.specs.Reading.{into_array, with_last, waiter_at, queue_at, queues_at};

use crate::allowed::{may_be_waiter, waiters};
use crate::parts::Seat;
use arrayvec::ArrayVec;
use rex_list::List;
use rex_state::lane::Queue;
use rex_syntax::service::LANES;
use rex_wire::{DecodeError, Reader, u8_wanted};
use std::alloc::Global;

/// The number of a lane that waits at the condition, after these lanes.
fn waiter_number(
    reader: &mut Reader,
    seats: &[Seat],
    condition: u8,
    earlier: &[u8],
) -> Result<u8, DecodeError>
    ensures read { ReadsOn result reader.new (allowed_at w8 (may_be_waiter seats.now condition earlier.now) reader.old) }
    ensures may { IfOk result (λ n. may_be_waiter seats.now condition earlier.now n ≡ true) }
{
    let at = reader.at();
    let n = reader.u8()?;
    if !may_be_waiter(seats, condition, earlier, n) {
        return Err(DecodeError::Bad { at });
    }
    Ok(n)
}

/// A lane that waits at the condition, after these lanes.
#[tactic(auto, unfolding(crate::specs::Reading::waiter_at))]
fn waiter(
    reader: &mut Reader,
    seats: &[Seat],
    condition: u8,
    earlier: &[u8],
) -> Result<u8, DecodeError>
    ensures { ReadsOn result reader.new (waiter_at seats.now condition earlier.now reader.old) }
{
    Ok(waiter_number(reader, seats, condition, earlier)? - 1)
}

/// As many lanes that wait at the condition.
fn waiting(
    reader: &mut Reader,
    seats: &[Seat],
    condition: u8,
    count: u8,
) -> Result<ArrayVec<u8, LANES>, DecodeError>
    requires { count ≤ most_lanes }
    ensures { ReadsOn result reader.new (into_array (list_at (waiter_at seats.now condition) with_last count [] reader.old)) }
{
    let mut lanes = ArrayVec::new();
    for _ in 0..count {
        let lane = waiter(reader, seats, condition, lanes.as_slice())?;
        lanes.push(lane);
    }
    Ok(lanes)
}

/// The lanes that wait at a condition.
#[tactic(auto, unfolding(crate::specs::Reading::queue_at))]
fn queue(reader: &mut Reader, seats: &[Seat], condition: u8) -> Result<Queue, DecodeError>
    requires { length seats.now ≤ most_lanes }
    ensures { ReadsOn result reader.new (queue_at seats.now condition reader.old) }
{
    let count = u8_wanted(reader, waiters(seats, condition) as u8)?;
    let lanes = waiting(reader, seats, condition, count)?;
    Ok(Queue { lanes })
}

/// The lanes that wait at each of so many conditions.
pub fn queues(
    alloc: Global,
    reader: &mut Reader,
    seats: &[Seat],
    count: u8,
) -> Result<List<Queue>, DecodeError>
    requires { length seats.now ≤ most_lanes }
    ensures { ReadsOn result reader.new (queues_at seats.now count reader.old) }
{
    let mut queues = List::new(alloc);
    for condition in 0..count {
        let queue = queue(reader, seats, condition)?;
        queues.push(queue)?;
    }
    Ok(queues)
}
