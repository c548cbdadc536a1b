//! Proposals by instance.

ghost use Rattle.std.specs.Prelude.{◌≡◌, ◌≤◌, [], length, OnOk, OnErr};
ghost use Rattle.std.specs.Option.{option_copied};
ghost use Rattle.rex_ballot.specs.Proposals as spec;
ghost use Rattle.rex_ballot.specs.Proposals.{AreRising};

use crate::proposal::Proposal;
use rex_list::List;
use std::alloc::{AllocError, Global};
use std::marker::Model;

/// At most one proposal for each instance, rising by instance. Contracts see the list of them.
#[derive(Drop)]
pub struct Proposals {
    items: Vec<Proposal>,
}

impl Model for Proposals {
    ghost use Rattle.std.specs.Prelude.{List};
    ghost use Rattle.rex_ballot.specs.declared.proposal.Proposal.{Proposal};
    ghost use Rattle.rex_ballot.specs.Proposals.{AreRising};

    ghost Value = { List Proposal };

    ghost view = { λ p. p.items.items };

    ghost invariant = { λ p. AreRising 0 p.items.items };
}

/// How many of the proposals are of lower instances: the place of the instance's own, if it is there.
fn place_of(proposals: &[Proposal], instance: u32) -> usize
    requires { AreRising 0 proposals.now }
    ensures place { result ≡ length (spec.below instance proposals.now) }
    ensures within { result ≤ length proposals.now }
{
    proposals.partition_point(|p| p.instance < instance)
}

/// The proposal for an instance.
fn find(proposals: &[Proposal], instance: u32) -> Option<&Proposal>
    requires { AreRising 0 proposals.now }
    ensures { option_copied result ≡ spec.proposal_for instance proposals.now }
{
    let found = proposals.get(place_of(proposals, instance))?;
    if found.instance == instance {
        Some(found)
    } else {
        None
    }
}

/// Puts a proposal in place of that of its instance, or changes nothing where memory is short.
fn put(proposals: &mut Vec<Proposal>, proposal: Proposal) -> Result<(), AllocError>
    requires { AreRising 0 proposals.old.items }
    ensures ok { OnOk result (proposals.new.items ≡ spec.with_proposal proposals.old.items proposal) }
    ensures err { OnErr result (proposals.new.items ≡ proposals.old.items) }
{
    let place = place_of(proposals, proposal.instance);
    if place < proposals.len() && proposals[place].instance == proposal.instance {
        proposals[place] = proposal;
    } else {
        proposals.insert(place, proposal)?;
    }
    Ok(())
}

impl Proposals {
    /// No proposals.
    pub fn new(alloc: Global) -> Proposals
        ensures { result ≡ [] }
    {
        Proposals {
            items: Vec::new(alloc),
        }
    }

    /// These proposals, whose instances rise. It takes no memory.
    pub fn from_list(proposals: List<Proposal>) -> Proposals
        requires { AreRising 0 proposals }
        ensures { result ≡ proposals }
    {
        Proposals {
            items: proposals.into_vec(),
        }
    }

    /// All of them, rising by instance.
    pub fn as_slice(&self) -> &[Proposal]
        ensures is { result.now ≡ self.now }
        ensures rising { AreRising 0 self.now }
    {
        &self.items
    }

    /// Those for an instance and later ones.
    pub fn from_instance(&self, first: u32) -> &[Proposal]
        ensures { result.now ≡ spec.from_instance first self.now }
    {
        &self.items[place_of(&self.items, first)..]
    }

    /// The one for an instance.
    pub fn get(&self, instance: u32) -> Option<&Proposal>
        ensures { option_copied result ≡ spec.proposal_for instance self.now }
    {
        find(&self.items, instance)
    }

    /// Puts a proposal in place of that of its instance. Where memory is short nothing changes.
    pub fn put(&mut self, proposal: Proposal) -> Result<(), AllocError>
        ensures ok { OnOk result (self.new ≡ spec.with_proposal self.old proposal) }
        ensures err { OnErr result (self.new ≡ self.old) }
    {
        put(&mut self.items, proposal)?;
        Ok(())
    }

    /// Puts the proposal of this value, which it copies, in place of that of its instance. Where memory is short nothing
    /// changes.
    pub fn put_copy(&mut self, instance: u32, ballot: u64, value: &[u8]) -> Result<(), AllocError>
        ensures ok { OnOk result (self.new ≡ spec.with_proposal self.old (record { instance = instance; ballot = ballot; value = value.now })) }
        ensures err { OnErr result (self.new ≡ self.old) }
    {
        let proposal = Proposal::new(*self.items.allocator(), instance, ballot, value)?;
        self.put(proposal)
    }

    /// Forgets those for the instances up to this one. It takes no memory.
    pub fn forget(&mut self, instance: u32)
        ensures { self.new ≡ spec.above instance self.old }
    {
        self.items.retain(|p| p.instance > instance);
    }
}
