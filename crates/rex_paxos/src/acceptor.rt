//! Acceptors.

ghost use Rattle.std.specs.Prelude.{◌≡◌, [], OnOk, OnErr};
ghost use Rattle.std.specs.Option.{option_copied};
ghost use Rattle.rex_ballot.specs.Proposals.{AreRising, from_instance, proposal_for};

use crate::answers::{Asked, Prepared};
use rex_ballot::{Proposal, Proposals};
use std::alloc::{AllocError, Global};
use std::marker::Model;

/// A node's promise, and for each instance the last proposal that it accepted.
#[derive(Drop)]
pub struct Acceptor {
    promised: u64,
    accepted: Proposals,
}

impl Model for Acceptor {
    ghost use Rattle.rex_paxos.specs.Acceptor.{AcceptorValue};

    ghost Value = { AcceptorValue };

    ghost view = { λ a. record { promised = a.promised; accepted = a.accepted } };
}

impl Acceptor {
    ghost use Rattle.rex_paxos.specs.Acceptor as spec;

    /// An acceptor that has made this promise, 0 for none, and accepted nothing.
    pub fn new(alloc: Global, promised: u64) -> Acceptor
        ensures { result ≡ record { promised = promised; accepted = [] } }
    {
        Acceptor::with_accepted(promised, Proposals::new(alloc))
    }

    /// An acceptor that has made this promise and accepted these proposals.
    pub fn with_accepted(promised: u64, accepted: Proposals) -> Acceptor
        ensures { result ≡ record { promised = promised; accepted = accepted } }
    {
        Acceptor { promised, accepted }
    }

    /// The greatest ballot promised, or 0.
    pub fn promised(&self) -> u64
        ensures { result ≡ self.now.promised }
    {
        self.promised
    }

    /// The last proposal accepted for each instance, rising by instance.
    pub fn accepted(&self) -> &[Proposal]
        ensures is { result.now ≡ self.now.accepted }
        ensures rising { AreRising 0 self.now.accepted }
    {
        self.accepted.as_slice()
    }

    /// Those for an instance and later ones.
    pub fn accepted_from(&self, first: u32) -> &[Proposal]
        ensures { result.now ≡ from_instance first self.now.accepted }
    {
        self.accepted.from_instance(first)
    }

    /// The last proposal accepted for an instance.
    pub fn accepted_for(&self, instance: u32) -> Option<&Proposal>
        ensures { option_copied result ≡ proposal_for instance self.now.accepted }
    {
        self.accepted.get(instance)
    }

    /// Promises a ballot that isn't below the promise. It takes no memory.
    pub fn on_prepare(&mut self, ballot: u64) -> Prepared
        ensures answer { result ≡ spec.answer_to_prepare self.old ballot }
        ensures promised { self.new ≡ spec.promising self.old ballot }
    {
        let promised = self.promised;
        if ballot < promised {
            return Prepared::Nack { promised };
        }
        self.promised = ballot;
        Prepared::Promise {
            raise: promised < ballot,
        }
    }

    /// Whether a proposal may be accepted, which `set_accepted` then does. It takes no memory.
    pub fn on_accept(&self, ballot: u64, instance: u32) -> Asked
        ensures { result ≡ spec.answer_to_accept self.now ballot instance }
    {
        if ballot < self.promised {
            return Asked::Nack {
                promised: self.promised,
            };
        }
        let last = self.accepted_for(instance);
        Asked::Accept {
            fresh: !last.is_some_and(|p| p.ballot == ballot),
        }
    }

    /// Accepts a proposal, and promises its ballot where that is above the promise. Where memory is short nothing changes.
    pub fn set_accepted(
        &mut self,
        ballot: u64,
        instance: u32,
        value: &[u8],
    ) -> Result<(), AllocError>
        ensures ok { OnOk result (self.new ≡ spec.accepting self.old (record { instance = instance; ballot = ballot; value = value.now })) }
        ensures err { OnErr result (self.new ≡ self.old) }
    {
        self.accepted.put_copy(instance, ballot, value)?;
        self.promised = self.promised.max(ballot);
        Ok(())
    }

    /// Forgets the proposals accepted for the instances up to this one. It takes no memory.
    pub fn forget(&mut self, instance: u32)
        ensures { self.new ≡ spec.forgetting self.old instance }
    {
        self.accepted.forget(instance);
    }
}
