//! Reading what a message says.

ghost use Rattle.rex_wire.specs.Decoding.{ReadsOn};
ghost use Rattle.rex_msg.specs.Reading.{prepare_at, promise_at, accept_at, accepted_at, chosen_at, nack_at, ask_at, snapshot_at, content_at};

use crate::fields::{ballot, instance, promise_above};
use crate::limits::GREATEST_FIRST;
use crate::message::Content;
use crate::read_proposals::proposals;
use rex_wire::{DecodeError, Reader, read_value, u32_between};
use std::alloc::Global;

#[tactic(auto, unfolding(crate::specs::Reading::prepare_at))]
fn prepare(reader: &mut Reader) -> Result<Content, DecodeError>
    ensures { ReadsOn result reader.new (prepare_at reader.old) }
{
    let ballot = ballot(reader)?;
    let first = u32_between(reader, 1, GREATEST_FIRST)?;
    Ok(Content::Prepare { ballot, first })
}

#[tactic(auto, unfolding(crate::specs::Reading::promise_at))]
fn promise(alloc: Global, reader: &mut Reader) -> Result<Content, DecodeError>
    ensures { ReadsOn result reader.new (promise_at reader.old) }
{
    let ballot = ballot(reader)?;
    let count = reader.u16()?;
    let accepted = proposals(alloc, reader, count)?;
    Ok(Content::Promise { ballot, accepted })
}

#[tactic(auto, unfolding(crate::specs::Reading::accept_at))]
fn accept(alloc: Global, reader: &mut Reader) -> Result<Content, DecodeError>
    ensures { ReadsOn result reader.new (accept_at reader.old) }
{
    let ballot = ballot(reader)?;
    let instance = instance(reader)?;
    let value = read_value(alloc, reader)?;
    Ok(Content::Accept {
        ballot,
        instance,
        value,
    })
}

#[tactic(auto, unfolding(crate::specs::Reading::accepted_at))]
fn accepted(reader: &mut Reader) -> Result<Content, DecodeError>
    ensures { ReadsOn result reader.new (accepted_at reader.old) }
{
    let ballot = ballot(reader)?;
    let instance = instance(reader)?;
    Ok(Content::Accepted { ballot, instance })
}

#[tactic(auto, unfolding(crate::specs::Reading::chosen_at))]
fn chosen(alloc: Global, reader: &mut Reader) -> Result<Content, DecodeError>
    ensures { ReadsOn result reader.new (chosen_at reader.old) }
{
    let instance = instance(reader)?;
    let value = read_value(alloc, reader)?;
    Ok(Content::Chosen { instance, value })
}

#[tactic(auto, unfolding(crate::specs::Reading::nack_at))]
fn nack(reader: &mut Reader) -> Result<Content, DecodeError>
    ensures { ReadsOn result reader.new (nack_at reader.old) }
{
    let ballot = ballot(reader)?;
    let promised = promise_above(reader, ballot)?;
    Ok(Content::Nack { ballot, promised })
}

#[tactic(auto, unfolding(crate::specs::Reading::ask_at))]
fn ask(reader: &mut Reader) -> Result<Content, DecodeError>
    ensures { ReadsOn result reader.new (ask_at reader.old) }
{
    let first = u32_between(reader, 1, GREATEST_FIRST)?;
    Ok(Content::Ask { first })
}

#[tactic(auto, unfolding(crate::specs::Reading::snapshot_at))]
fn snapshot(alloc: Global, reader: &mut Reader) -> Result<Content, DecodeError>
    ensures { ReadsOn result reader.new (snapshot_at reader.old) }
{
    let deltas = instance(reader)?;
    let snapshot = read_value(alloc, reader)?;
    Ok(Content::Snapshot { deltas, snapshot })
}

/// The content of a message of the kind with this number.
pub fn content(alloc: Global, reader: &mut Reader, kind: u8) -> Result<Content, DecodeError>
    ensures { ReadsOn result reader.new (content_at kind reader.old) }
{
    match kind {
        1 => prepare(reader),
        2 => promise(alloc, reader),
        3 => accept(alloc, reader),
        4 => accepted(reader),
        5 => chosen(alloc, reader),
        6 => nack(reader),
        7 => ask(reader),
        _ => snapshot(alloc, reader),
    }
}
