//! What events tell of clients.

ghost use Rattle.std.specs.Prelude.{◌≡◌, slice_set};
ghost use Rattle.rex_state.specs.Machine.{entry_at, clients_after};
ghost use Rattle.rex_gate.specs.Noted as spec;

use rex_event::{Event, Kind};
use rex_state::lane::Entry;

/// What is known of a client. A client that isn't there has sent nothing.
pub fn entry_of(clients: &[Entry], client: u16) -> Entry
    ensures { result ≡ entry_at clients.now client }
{
    match clients.get(client as usize) {
        Some(found) => *found,
        None => Entry {
            sequence: 0,
            reply: None,
        },
    }
}

/// A client that isn't there has no entry that could change.
fn set_entry(clients: &mut [Entry], client: u16, sequence: u32, reply: Option<i64>)
    ensures { clients.new ≡ slice_set clients.old client (record { sequence = sequence; reply = reply }) }
{
    if (client as usize) < clients.len() {
        clients[client as usize] = Entry { sequence, reply };
    }
}

/// A begin gives its client's entry the new sequence and no reply, and a reply gives it the reply.
pub fn note_kind(clients: &mut [Entry], kind: &Kind)
    ensures { clients.new ≡ clients_after kind.now clients.old }
{
    match kind {
        Kind::Begin {
            client,
            sequence,
            ..
        } => set_entry(clients, *client, *sequence, None),
        Kind::Reply { client, value } => {
            let sequence = entry_of(clients, *client).sequence;
            set_entry(clients, *client, sequence, Some(*value));
        }
        _ => {}
    }
}

/// Events, one after another.
pub(crate) fn note_events(clients: &mut [Entry], events: &[Event])
    ensures { clients.new ≡ spec.noted clients.old events.now }
{
    for event in events {
        note_kind(clients, &event.kind);
    }
}
