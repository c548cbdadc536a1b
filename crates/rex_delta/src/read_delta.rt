//! Reading a delta.

ghost use Rattle.std.specs.Prelude.{◌≡◌, IfOk, Ok};
ghost use Rattle.rex_event.specs.declared.delta.Delta.{Delta};
ghost use Rattle.rex_wire.specs.Decoding.{ReadsOn, Gives};
ghost use Rattle.rex_delta.specs.Spelling.{HasSpelling, delta_bytes};
ghost use Rattle.rex_delta.specs.Reading.{delta_at, delta_in};

use crate::limits::{COUNTING, PLAIN};
use crate::read_events::{bases, events};
use rex_event::{DELTA_EVENTS, Delta, LANES};
use rex_wire::{DecodeError, Reader, u8_between, u16_between};
use std::alloc::Global;

#[tactic(auto, unfolding(crate::specs::Reading::delta_at))]
fn delta(alloc: Global, reader: &mut Reader) -> Result<Delta, DecodeError>
    ensures { ReadsOn result reader.new (delta_at reader.old) }
{
    let version = u8_between(reader, PLAIN, COUNTING)?;
    let lanes = u8_between(reader, 1, LANES as u8)?;
    let bases = bases(alloc, reader, lanes)?;
    let count = u16_between(reader, 1, DELTA_EVENTS as u16)?;
    let (events, causes) = events(alloc, reader, version, bases.as_slice(), count)?;
    Ok(Delta {
        bases,
        events,
        causes,
    })
}

/// A delta that is all of the bytes.
#[tactic(auto, unfolding(crate::specs::Reading::delta_in))]
fn whole(alloc: Global, bytes: &[u8]) -> Result<Delta, DecodeError>
    ensures { Gives result (delta_in bytes.now) }
{
    let mut reader = Reader::new(bytes);
    let delta = delta(alloc, &mut reader)?;
    reader.end()?;
    Ok(delta)
}

/// The delta that the bytes spell, all of the bytes.
pub fn decode(alloc: Global, bytes: &[u8]) -> Result<Delta, DecodeError>
    ensures found { IfOk result (λ d. HasSpelling d × (bytes.now ≡ delta_bytes d)) }
    ensures only { (d : Delta) → HasSpelling d → bytes.now ≡ delta_bytes d → Gives result (Ok d) }
    ensures exact { Gives result (delta_in bytes.now) }
{
    whole(alloc, bytes)
}
