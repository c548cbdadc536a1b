//! Reading proposals.

ghost use Rattle.std.specs.Prelude.{IfOk};
ghost use Rattle.rex_ballot.specs.Ballot.{IsInstance};
ghost use Rattle.rex_wire.specs.Decoding.{ReadsOn};
ghost use Rattle.rex_msg.specs.Reading.{proposal_at, proposals_at};

use crate::fields::{ballot, instance_from};
use rex_ballot::Proposal;
use rex_list::List;
use rex_wire::{DecodeError, Reader, read_value};
use std::alloc::Global;

/// A proposal of an instance from this one on.
#[tactic(auto, unfolding(crate::specs::Reading::proposal_at))]
fn proposal(alloc: Global, reader: &mut Reader, least: u32) -> Result<Proposal, DecodeError>
    ensures read { ReadsOn result reader.new (proposal_at least reader.old) }
    ensures instance { IfOk result (λ p. IsInstance p.instance) }
{
    let instance = instance_from(reader, least)?;
    let ballot = ballot(reader)?;
    let value = read_value(alloc, reader)?;
    Ok(Proposal {
        instance,
        ballot,
        value,
    })
}

/// As many proposals, rising by instance.
pub fn proposals(
    alloc: Global,
    reader: &mut Reader,
    count: u16,
) -> Result<List<Proposal>, DecodeError>
    ensures { ReadsOn result reader.new (proposals_at count reader.old) }
{
    let mut proposals = List::new(alloc);
    let mut least = 0;
    for _ in 0..count {
        let proposal = proposal(alloc, reader, least)?;
        least = proposal.instance + 1;
        proposals.push(proposal)?;
    }
    Ok(proposals)
}
