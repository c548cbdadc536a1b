//! Where the next event of a lane stands.
ghost use Rattle.std.specs.Prelude.{◌≡◌, ◌≤◌, length, List, IfOk};
ghost use Rattle.rex_event.specs.declared.event.Event.{Event as AnEvent};
ghost use Rattle.rex_board.specs.Places.{IsNextPlace, lanes_in};

use memchr::memchr;
use rex_event::Event;
use std::alloc::{AllocError, Global};

/// The lane of each event, a byte each: a lane's next event is looked for among these.
pub(crate) fn lanes_in(alloc: Global, events: &[Event]) -> Result<Vec<u8>, AllocError>
    ensures { IfOk result (λ lanes. lanes.items ≡ lanes_in events.now) }
{
    events.iter().map(|event| event.lane).collect(alloc)
}

/// The place of the first event of a lane, from a place on; behind the last event if there is none. The lanes are those of the
/// events.
pub(crate) fn next_place(lanes: &[u8], from: usize, lane: u8) -> usize
    requires { from ≤ length lanes.now }
    ensures { (es : List AnEvent) → lanes.now ≡ lanes_in es → IsNextPlace es from lane result }
{
    match memchr(lane, &lanes[from..]) {
        Some(after) => from + after,
        None => lanes.len(),
    }
}
