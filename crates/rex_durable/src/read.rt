//! Reading records.

ghost use Rattle.rex_wire.specs.Decoding.{Gives, ReadsOn};
ghost use Rattle.rex_durable.specs.Reading.{accepted_at, checkpoint_at, dropped_at, known_at, promised_at, record_at, record_in, transferred_at};

use crate::fields::{ballot, base_above, instance, instance_above, next_instance, number_within};
use crate::layout::{ACCEPTED, CHECKPOINT, DROPPED, KNOWN, PROMISED, TRANSFERRED};
use crate::records::{Rec, Standing};
use rex_wire::{DecodeError, Reader, read_value};
use std::alloc::Global;

#[tactic(auto, unfolding(crate::specs::Reading::promised_at))]
fn promised(reader: &mut Reader) -> Result<Rec, DecodeError>
    ensures { ReadsOn result reader.new (promised_at reader.old) }
{
    let ballot = ballot(reader)?;
    Ok(Rec::Promised { ballot })
}

#[tactic(auto, unfolding(crate::specs::Reading::accepted_at))]
fn accepted(alloc: Global, reader: &mut Reader) -> Result<Rec, DecodeError>
    ensures { ReadsOn result reader.new (accepted_at reader.old) }
{
    let ballot = ballot(reader)?;
    let instance = instance(reader)?;
    let value = read_value(alloc, reader)?;
    Ok(Rec::Accepted {
        ballot,
        instance,
        value,
    })
}

#[tactic(auto, unfolding(crate::specs::Reading::known_at))]
fn known(alloc: Global, reader: &mut Reader, standing: Standing) -> Result<Rec, DecodeError>
    ensures { ReadsOn result reader.new (known_at standing reader.old) }
{
    let instance = next_instance(reader, standing.count)?;
    let value = read_value(alloc, reader)?;
    Ok(Rec::Known { instance, value })
}

#[tactic(auto, unfolding(crate::specs::Reading::checkpoint_at))]
fn checkpoint(alloc: Global, reader: &mut Reader, standing: Standing) -> Result<Rec, DecodeError>
    ensures { ReadsOn result reader.new (checkpoint_at standing reader.old) }
{
    let deltas = number_within(reader, standing.offset, standing.count)?;
    let snapshot = read_value(alloc, reader)?;
    Ok(Rec::Checkpoint { deltas, snapshot })
}

#[tactic(auto, unfolding(crate::specs::Reading::dropped_at))]
fn dropped(reader: &mut Reader, standing: Standing) -> Result<Rec, DecodeError>
    ensures { ReadsOn result reader.new (dropped_at standing reader.old) }
{
    let deltas = base_above(reader, standing.offset, standing.base)?;
    Ok(Rec::Dropped { deltas })
}

#[tactic(auto, unfolding(crate::specs::Reading::transferred_at))]
fn transferred(alloc: Global, reader: &mut Reader, standing: Standing) -> Result<Rec, DecodeError>
    ensures { ReadsOn result reader.new (transferred_at standing reader.old) }
{
    let deltas = instance_above(reader, standing.count)?;
    let snapshot = read_value(alloc, reader)?;
    Ok(Rec::Transferred { deltas, snapshot })
}

/// A record behind others.
#[tactic(auto, unfolding(crate::specs::Reading::record_at))]
fn record_at(alloc: Global, reader: &mut Reader, standing: Standing) -> Result<Rec, DecodeError>
    ensures { ReadsOn result reader.new (record_at standing reader.old) }
{
    let at = reader.at();
    match reader.u8()? {
        PROMISED => promised(reader),
        ACCEPTED => accepted(alloc, reader),
        KNOWN => known(alloc, reader, standing),
        CHECKPOINT => checkpoint(alloc, reader, standing),
        DROPPED => dropped(reader, standing),
        TRANSFERRED => transferred(alloc, reader, standing),
        _ => Err(DecodeError::Bad { at }),
    }
}

/// The record that the bytes spell, all of the bytes, behind others.
#[tactic(auto, unfolding(crate::specs::Reading::record_in))]
pub fn decode(alloc: Global, bytes: &[u8], standing: Standing) -> Result<Rec, DecodeError>
    ensures { Gives result (record_in standing bytes.now) }
{
    let mut reader = Reader::new(bytes);
    let found = record_at(alloc, &mut reader, standing)?;
    reader.end()?;
    Ok(found)
}
