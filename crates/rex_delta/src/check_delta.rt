//! Reading a delta only to see that it is one.

ghost use Rattle.std.specs.Prelude.{◌≡◌, length, Ok, IfErr};
ghost use Rattle.rex_event.specs.declared.delta.Delta.{Delta};
ghost use Rattle.rex_wire.specs.Decoding.{ReadsOn, Gives, IsBad};
ghost use Rattle.rex_wire.specs.Reading as reading;
ghost use Rattle.rex_delta.specs.Spelling.{HasSpelling, delta_bytes};
ghost use Rattle.rex_delta.specs.Counts.{counted_at, count_in};

use crate::limits::{COUNTING, PLAIN};
use crate::pass_events::{few_bases, pass_events};
use arrayvec::ArrayVec;
use rex_event::{DELTA_EVENTS, LANES};
use rex_wire::{DecodeError, Reader, u8_between, u16_between};

#[tactic(auto, unfolding(crate::specs::Counts::counted_at))]
fn counted(reader: &mut Reader) -> Result<u32, DecodeError>
    ensures read { ReadsOn result reader.new (counted_at reader.old) }
    ensures fault { IfErr result IsBad }
{
    let version = u8_between(reader, PLAIN, COUNTING)?;
    let lanes = u8_between(reader, 1, LANES as u8)?;
    let mut bases = ArrayVec::new();
    few_bases(reader, lanes, &mut bases)?;
    let count = u16_between(reader, 1, DELTA_EVENTS as u16)?;
    pass_events(reader, version, bases.as_slice(), count)?;
    Ok(count as u32)
}

/// The number of events of the delta that is all of the bytes.
fn whole(bytes: &[u8]) -> Result<u32, DecodeError>
    ensures read { Gives result (reading.whole counted_at bytes.now) }
    ensures fault { IfErr result IsBad }
{
    let mut reader = Reader::new(bytes);
    let count = counted(&mut reader)?;
    reader.end()?;
    Ok(count)
}

/// How many events the delta has that the bytes spell, all of the bytes: what `decode` finds, or the offset of the first bad
/// field, with no memory taken.
pub fn check(bytes: &[u8]) -> Result<u32, usize>
    ensures only { (d : Delta) → HasSpelling d → bytes.now ≡ delta_bytes d → result ≡ Ok (length d.events) }
    ensures exact { result ≡ count_in bytes.now }
{
    match whole(bytes) {
        Ok(count) => Ok(count),
        Err(DecodeError::Bad { at }) => Err(at),
        Err(DecodeError::OutOfMemory) => unreachable!(),
    }
}
