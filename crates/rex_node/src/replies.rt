//! Which of the values that a node holds replied to a client last.

ghost use Rattle.std.specs.Prelude.{◌≡◌, IfOk};
ghost use Rattle.rex_cluster.specs.Values.{events_of};
ghost use Rattle.rex_gate.specs.Numbers as numbers;
ghost use Rattle.rex_node.specs.Telling as spec;

use crate::values::events_in;
use rex_delta::may_reply;
use rex_event::{Event, Kind};
use rex_transfer::Window;
use std::alloc::{AllocError, Global};

/// The number of the last value with a reply to the client among those that are held, or the offset, if none of them has one.
pub(crate) fn last_held(alloc: Global, known: &Window, client: u16) -> Result<u32, AllocError>
    ensures { IfOk result (λ number. number ≡ spec.last_held known.now.offset known.now.values client) }
{
    let last = known.known();
    let values = known.values();
    let count = values.len();
    for back in 0..count {
        // Those that came last are looked at first.
        if has_reply(alloc, values[count - 1 - back].as_slice(), client)? {
            return Ok(last - back as u32);
        }
    }
    Ok(known.offset())
}

// Whether an event of the delta that a value spells replies to the client. Most values show without being read that none does.
fn has_reply(alloc: Global, value: &[u8], client: u16) -> Result<bool, AllocError>
    ensures { IfOk result (λ has. has ≡ numbers.replies_to client (events_of value.now)) }
{
    if !may_reply(value, client) {
        return Ok(false);
    }
    let events = events_in(alloc, value)?;
    Ok(replies_to(client, events.as_slice()))
}

// Whether one of the events replies to the client.
fn replies_to(client: u16, events: &[Event]) -> bool
    ensures { result ≡ numbers.replies_to client events.now }
{
    for event in events {
        if is_reply_to(client, &event.kind) {
            return true;
        }
    }
    false
}

fn is_reply_to(client: u16, kind: &Kind) -> bool
    ensures { result ≡ numbers.is_reply_to client kind.now }
{
    match kind {
        Kind::Reply { client: other, .. } => *other == client,
        _ => false,
    }
}
