//! The clocks that events show.

ghost use Rattle.std.specs.Prelude.{◌≡◌, IfOk};
ghost use Rattle.rex_cluster.specs.Values.{events_of};
ghost use Rattle.rex_fits.specs.Applied as spec;

use rex_ballot::Value;
use rex_delta::{DecodeError, decode_events};
use rex_event::{Event, Kind};
use std::alloc::{AllocError, Global};

// The greater of a clock and the one that an event of this kind shows.
fn later_clock(clock: i64, kind: &Kind) -> i64
    ensures { result ≡ spec.later_clock clock kind.now }
{
    match kind {
        Kind::Clock { value } => clock.max(*value),
        _ => clock,
    }
}

/// The greatest of a clock and those that events show.
pub(crate) fn greatest_clock(clock: i64, events: &[Event]) -> i64
    ensures { result ≡ spec.greatest_clock clock events.now }
{
    let mut greatest = clock;
    for event in events {
        greatest = later_clock(greatest, &event.kind);
    }
    greatest
}

// The greatest of a clock and those that the events of a value show.
fn clock_with(alloc: Global, clock: i64, value: &[u8]) -> Result<i64, AllocError>
    ensures { IfOk result (λ greatest. greatest ≡ spec.greatest_clock clock (events_of value.now)) }
{
    match decode_events(alloc, value) {
        Ok(events) => Ok(greatest_clock(clock, events.as_slice())),
        Err(DecodeError::Bad { .. }) => Ok(clock),
        Err(DecodeError::OutOfMemory) => Err(AllocError),
    }
}

/// The greatest of a clock and those that the events of values show. A value that spells no delta has no event.
pub fn clock_after(alloc: Global, clock: i64, values: &[Value]) -> Result<i64, AllocError>
    ensures { IfOk result (λ greatest. greatest ≡ spec.clock_after clock values.now) }
{
    let mut greatest = clock;
    for value in values {
        greatest = clock_with(alloc, greatest, value.as_slice())?;
    }
    Ok(greatest)
}
