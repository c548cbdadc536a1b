//! Writing proposals.

ghost use Rattle.std.specs.Prelude.{◌≡◌, ◌++◌, OnOk};
ghost use Rattle.std.specs.List.{All, flat_map};
ghost use Rattle.rex_ballot.specs.Proposals.{IsProposal};
ghost use Rattle.rex_msg.specs.Spelling.{proposal_bytes};

use rex_ballot::Proposal;
use rex_wire::{Writer, write_value};
use std::alloc::AllocError;

fn proposal(writer: &mut Writer, proposal: &Proposal) -> Result<(), AllocError>
    requires { IsProposal proposal.now }
    ensures { OnOk result (writer.new ≡ writer.old ++ proposal_bytes proposal.now) }
{
    writer.u32(proposal.instance)?;
    writer.u64(proposal.ballot)?;
    write_value(writer, proposal.value.as_slice())
}

/// Proposals one after the other.
pub fn proposals(writer: &mut Writer, proposals: &[Proposal]) -> Result<(), AllocError>
    requires { All IsProposal proposals.now }
    ensures { OnOk result (writer.new ≡ writer.old ++ flat_map proposal_bytes proposals.now) }
{
    for p in proposals {
        proposal(writer, p)?;
    }
    Ok(())
}
