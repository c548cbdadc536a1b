//! What the world does with what a call of a node came to.

ghost use Rattle.std.specs.Prelude.{◌≡◌, ◌++◌, ◌∷◌, [], suc, length, map, IfOk, OnOk};
ghost use Rattle.std.specs.List.{All};
ghost use Rattle.rex_msg.specs.Spelling.{IsMessage, HasSpelling, spelling_of};
ghost use Rattle.rex_cluster.specs.Node as model;
ghost use Rattle.rex_log.specs.Messages.{content_in};
ghost use Rattle.rex_world.specs.Calls.{Sends};

use rex_event::{Event, Kind};
use rex_list::List;
use rex_msg::{Content, Message, encode};
use rex_net::Net;
use rex_report::{Effect, MessageKind};
use std::alloc::{AllocError, Global};

/// The kind of a message.
pub(crate) fn kind_of(content: &Content) -> MessageKind
    ensures { result ≡ model.kind_of (content_in [] content.now) }
{
    match content {
        Content::Prepare { .. } => MessageKind::Prepare,
        Content::Promise { .. } => MessageKind::Promise,
        Content::Accept { .. } => MessageKind::Accept,
        Content::Accepted { .. } => MessageKind::Accepted,
        Content::Chosen { .. } => MessageKind::Chosen,
        Content::Nack { .. } => MessageKind::Nack,
        Content::Ask { .. } => MessageKind::Ask,
        Content::Snapshot { .. } => MessageKind::Snapshot,
    }
}

// The bytes of a message.
fn spell(alloc: Global, message: &Message) -> Result<Vec<u8>, AllocError>
    requires { IsMessage message.now }
    ensures spelled { IfOk result (λ bytes. bytes.items ≡ spelling_of message.now) }
    ensures typed { IfOk result (λ bytes. HasSpelling message.now) }
{
    if let Content::Nack { promised, .. } = &message.content {
        // A promise that was read is known to be a number of its type.
        let _promised = *promised;
        return encode(alloc, message);
    }
    encode(alloc, message)
}

// Sends a message, under the next number.
fn send(
    net: &mut Net,
    handed: &mut Vec<bool>,
    sent: &mut Vec<Effect>,
    message: &Message,
) -> Result<(), AllocError>
    requires { IsMessage message.now }
    ensures { OnOk result (Sends (message.now ∷ []) net.old net.new handed.old.items handed.new.items sent.old.items sent.new.items) }
{
    let _event: Option<(Event, Kind)> = None;
    let bytes = spell(*handed.allocator(), message)?;
    let number = net.send_list(List::from_vec(bytes))?;
    handed.push(false)?;
    sent.push(Effect::Sent {
        number,
        kind: kind_of(&message.content),
        from: message.from,
        to: message.to,
    })?;
    Ok(())
}

/// Sends messages, under the next numbers.
pub(crate) fn send_all(
    net: &mut Net,
    handed: &mut Vec<bool>,
    sent: &mut Vec<Effect>,
    messages: &[Message],
) -> Result<(), AllocError>
    requires { All IsMessage messages.now }
    ensures { OnOk result (Sends messages.now net.old net.new handed.old.items handed.new.items sent.old.items sent.new.items) }
{
    for message in messages {
        send(net, handed, sent, message)?;
    }
    Ok(())
}

/// Tells effects behind those that were told before. The first ones aren't copied.
pub(crate) fn tell_all(told: &mut Vec<Effect>, effects: List<Effect>) -> Result<(), AllocError>
    ensures { OnOk result (told.new.items ≡ told.old.items ++ effects) }
{
    let mut effects = effects.into_vec();
    if told.is_empty() {
        *told = effects;
        return Ok(());
    }
    told.append(&mut effects)
}
