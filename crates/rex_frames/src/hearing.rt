//! The messages that are for a node.

ghost use Rattle.std.specs.Prelude.{◌≡◌, IfOk, IfSome};
ghost use Rattle.rex_schedule.specs.Fits.{IsNode};
ghost use Rattle.rex_frames.specs.Hearing as spec;
ghost use Rattle.rex_frames.specs.Hearing.{HeardFits};

use rex_ballot::node_of;
use rex_msg::{Content, DecodeError, Message, decode};
use std::alloc::{AllocError, Global};

/// The message that bytes spell, where it is for the node of a number.
pub(crate) fn heard_in(
    alloc: Global,
    id: u8,
    nodes: u8,
    bytes: &[u8],
) -> Result<Option<Message>, AllocError>
    requires { IsNode nodes id }
    ensures heard { IfOk result (λ heard. heard ≡ spec.heard_in id nodes bytes.now) }
    ensures fits { IfOk result (λ heard. IfSome heard (HeardFits id nodes)) }
{
    match decode(alloc, bytes) {
        Ok(message) => {
            if is_for(id, nodes, &message) {
                return Ok(Some(message));
            }
            Ok(None)
        }
        Err(DecodeError::OutOfMemory) => Err(AllocError),
        Err(DecodeError::Bad { .. }) => Ok(None),
    }
}

// Whether a message goes to a node from another one of so many, tells no state, and has the ballot of the node that asked.
fn is_for(id: u8, nodes: u8, message: &Message) -> bool
    ensures { result ≡ spec.is_for id nodes message.now }
{
    message.to == id
        && is_another(id, nodes, message.from)
        && !tells_state(&message.content)
        && has_askers_ballot(message)
}

/// Whether a node is another one of so many.
pub(crate) fn is_another(id: u8, nodes: u8, node: u8) -> bool
    ensures { result ≡ spec.is_another id nodes node }
{
    1 <= node && node <= nodes && node != id
}

fn tells_state(content: &Content) -> bool
    ensures { result ≡ spec.tells_state content.now }
{
    matches!(content, Content::Snapshot { .. })
}

fn has_askers_ballot(message: &Message) -> bool
    ensures { result ≡ spec.has_askers_ballot message.now.from message.now.to message.now.content }
{
    match &message.content {
        Content::Prepare { ballot, .. } => node_of(*ballot) == message.from,
        Content::Promise { ballot, .. } => node_of(*ballot) == message.to,
        Content::Accept { ballot, .. } => node_of(*ballot) == message.from,
        Content::Accepted { ballot, .. } => node_of(*ballot) == message.to,
        Content::Nack { ballot, .. } => node_of(*ballot) == message.to,
        Content::Chosen { .. } | Content::Ask { .. } | Content::Snapshot { .. } => true,
    }
}
