//! Writing a delta.

ghost use Rattle.std.specs.Prelude.{◌≡◌, ◌++◌, IfOk, OnOk, Ok};
ghost use Rattle.std.specs.List.{All};
ghost use Rattle.rex_delta.specs.Spelling.{IsDelta, HasTypedKind, has_counting, version_of, delta_bytes};
ghost use Rattle.rex_delta.specs.Reading.{delta_in};

use crate::limits::{COUNTING, PLAIN};
use crate::read_events::is_counting;
use crate::write_events::{bases, events};
use rex_event::{Delta, Event};
use rex_wire::Writer;
use std::alloc::{AllocError, Global};

fn has_counting(events: &[Event]) -> bool
    ensures { result ≡ has_counting events.now }
{
    events.iter().any(|event| is_counting(&event.kind))
}

/// The version in which events are spelled.
fn version(events: &[Event]) -> u8
    ensures { result ≡ version_of events.now }
{
    if has_counting(events) {
        COUNTING
    } else {
        PLAIN
    }
}

fn write(writer: &mut Writer, delta: &Delta) -> Result<(), AllocError>
    requires { IsDelta delta.now }
    ensures spelled { OnOk result (writer.new ≡ writer.old ++ delta_bytes delta.now) }
    ensures typed { OnOk result (All HasTypedKind delta.now.events) }
{
    writer.u8(version(delta.events.as_slice()))?;
    writer.u8(delta.bases.len() as u8)?;
    bases(writer, delta.bases.as_slice())?;
    writer.u16(delta.events.len() as u16)?;
    events(writer, delta.events.as_slice(), delta.causes.as_slice())
}

/// How many bytes an event and its causes usually have, or less.
const EVENT_BYTES: usize = 12;

/// How many bytes the delta usually has, or less: the version, the numbers of lanes and of events, of 4 bytes together, a base of 4 bytes
/// for each lane, and the events.
fn usual_bytes(delta: &Delta) -> usize
    requires { IsDelta delta.now }
{
    4 + delta.bases.len() * 4 + delta.events.len() * EVENT_BYTES
}

/// The one spelling of the delta.
pub fn encode(alloc: Global, delta: &Delta) -> Result<Vec<u8>, AllocError>
    requires { IsDelta delta.now }
    ensures spelled { IfOk result (λ v. v.items ≡ delta_bytes delta.now) }
    ensures again { IfOk result (λ v. delta_in v.items ≡ Ok delta.now) }
{
    let mut writer = Writer::with_capacity(alloc, usual_bytes(delta))?;
    write(&mut writer, delta)?;
    Ok(writer.into_vec())
}
