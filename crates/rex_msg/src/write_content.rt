//! Writing what a message says.

ghost use Rattle.std.specs.Prelude.{◌≡◌, ◌++◌, OnOk};
ghost use Rattle.rex_ballot.specs.Proposals.{IsValue};
ghost use Rattle.rex_msg.specs.declared.message.Content.TheVariants.{Promise, Accept};
ghost use Rattle.rex_msg.specs.Spelling.{kind_of, content_bytes, AreReported, ContentFits, IsTyped};

use crate::message::Content;
use crate::write_proposals::proposals;
use rex_ballot::Proposal;
use rex_wire::{Writer, write_value};
use std::alloc::AllocError;

fn promise(writer: &mut Writer, ballot: u64, accepted: &[Proposal]) -> Result<(), AllocError>
    requires { AreReported accepted.now }
    ensures { OnOk result (writer.new ≡ writer.old ++ content_bytes (Promise ballot accepted.now)) }
{
    writer.u64(ballot)?;
    writer.u16(accepted.len() as u16)?;
    proposals(writer, accepted)
}

fn accept(writer: &mut Writer, ballot: u64, instance: u32, value: &[u8]) -> Result<(), AllocError>
    requires { IsValue value.now }
    ensures { OnOk result (writer.new ≡ writer.old ++ content_bytes (Accept ballot instance value.now)) }
{
    writer.u64(ballot)?;
    writer.u32(instance)?;
    write_value(writer, value)
}

/// The number of a content's kind.
pub fn kind(content: &Content) -> u8
    ensures { result ≡ kind_of content.now }
{
    match content {
        Content::Prepare { .. } => 1,
        Content::Promise { .. } => 2,
        Content::Accept { .. } => 3,
        Content::Accepted { .. } => 4,
        Content::Chosen { .. } => 5,
        Content::Nack { .. } => 6,
        Content::Ask { .. } => 7,
        Content::Snapshot { .. } => 8,
    }
}

/// What follows the kind, the sender and the receiver.
pub fn content(writer: &mut Writer, content: &Content) -> Result<(), AllocError>
    requires { ContentFits content.now }
    ensures spelled { OnOk result (writer.new ≡ writer.old ++ content_bytes content.now) }
    ensures typed { OnOk result (IsTyped content.now) }
{
    match content {
        Content::Prepare { ballot, first } => {
            writer.u64(*ballot)?;
            writer.u32(*first)
        }
        Content::Promise { ballot, accepted } => promise(writer, *ballot, accepted.as_slice()),
        Content::Accept {
            ballot,
            instance,
            value,
        } => accept(writer, *ballot, *instance, value.as_slice()),
        Content::Accepted { ballot, instance } => {
            writer.u64(*ballot)?;
            writer.u32(*instance)
        }
        Content::Chosen { instance, value } => {
            writer.u32(*instance)?;
            write_value(writer, value.as_slice())
        }
        Content::Nack { ballot, promised } => {
            writer.u64(*ballot)?;
            writer.u64(*promised)
        }
        Content::Ask { first } => writer.u32(*first),
        Content::Snapshot { deltas, snapshot } => {
            writer.u32(*deltas)?;
            write_value(writer, snapshot.as_slice())
        }
    }
}
