//! Reading a message.

ghost use Rattle.std.specs.Prelude.{◌≡◌, IfOk, Ok};
ghost use Rattle.rex_wire.specs.Decoding.{ReadsOn, Gives};
ghost use Rattle.rex_msg.specs.declared.message.Message.{Message};
ghost use Rattle.rex_msg.specs.Spelling.{HasSpelling, spelling_of};
ghost use Rattle.rex_msg.specs.Reading.{message_at, message_in};

use crate::fields::{node, other_node};
use crate::limits::{KINDS, VERSION};
use crate::message::Message;
use crate::read_content::content;
use rex_wire::{DecodeError, Reader, u8_between, u8_wanted};
use std::alloc::Global;

#[tactic(auto, unfolding(crate::specs::Reading::message_at))]
fn message(alloc: Global, reader: &mut Reader) -> Result<Message, DecodeError>
    ensures { ReadsOn result reader.new (message_at reader.old) }
{
    u8_wanted(reader, VERSION)?;
    let kind = u8_between(reader, 1, KINDS)?;
    let from = node(reader)?;
    let to = other_node(reader, from)?;
    let content = content(alloc, reader, kind)?;
    Ok(Message { from, to, content })
}

/// A message that is all of the bytes.
#[tactic(auto, unfolding(crate::specs::Reading::message_in))]
fn whole(alloc: Global, bytes: &[u8]) -> Result<Message, DecodeError>
    ensures { Gives result (message_in bytes.now) }
{
    let mut reader = Reader::new(bytes);
    let message = message(alloc, &mut reader)?;
    reader.end()?;
    Ok(message)
}

/// The message that the bytes spell, all of the bytes.
pub fn decode(alloc: Global, bytes: &[u8]) -> Result<Message, DecodeError>
    ensures found { IfOk result (λ m. HasSpelling m × (bytes.now ≡ spelling_of m)) }
    ensures only { (m : Message) → HasSpelling m → bytes.now ≡ spelling_of m → Gives result (Ok m) }
    ensures exact { Gives result (message_in bytes.now) }
{
    whole(alloc, bytes)
}
