//! Whether a delta may reply to a client, told from its bytes without reading it.

ghost use Rattle.std.specs.Prelude.{◌≡◌, false, true, Ok};
ghost use Rattle.rex_event.specs.declared.delta.Delta.{Delta};
ghost use Rattle.rex_delta.specs.Reading.{delta_in};
ghost use Rattle.rex_delta.specs.Replying.{RepliesToNone, Stands, reply_front};

use crate::limits::REPLY;
use memchr::memmem::find;

/// Whether the delta that bytes spell may reply to a client. `false` says that none of its events does. `true` says that the bytes
/// with which the spelling of a reply to the client begins, behind its lane, stand among these; they may stand for something else there.
pub fn may_reply(bytes: &[u8], client: u16) -> bool
    ensures silent { result ≡ false → (d : Delta) → delta_in bytes.now ≡ Ok d → RepliesToNone client d.events }
    ensures found { result ≡ true → Stands (reply_front client) bytes.now }
{
    let [high, low] = client.to_be_bytes();
    find(bytes, &[REPLY, high, low]).is_some()
}
