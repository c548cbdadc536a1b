//! The answers that a node that leads, or asks to, counts.

ghost use Rattle.std.specs.Prelude.{◌≡◌, ◌<◌, ◌+◌, ◌*◌, ◌-◌, option_map, IfSome, IfOk, OnOk, OnErr};
ghost use Rattle.std.specs.List.{All};
ghost use Rattle.rex_ballot.specs.Proposals.{IsProposal, proposal_for};
ghost use Rattle.rex_ballot.specs.declared.proposal.Proposal.{Proposal as Kept};
ghost use Rattle.rex_paxos.specs.declared.answers.Vote.TheVariants as vote;
ghost use Rattle.rex_paxos.specs.Counting.{IsOneOf};
ghost use Rattle.rex_paxos.specs.Proposer.{ProposerValue};
ghost use Rattle.rex_cluster.specs.Quorum.{IsNode as IsNodeOf};
ghost use Rattle.rex_node.specs.Parts.{MayCall, whole};
ghost use Rattle.rex_node.specs.Electing.{acceptance_vote_on, accepting_from, counting, reports_of, told_of, uncounting, vote_on};
ghost use Rattle.rex_node.specs.Going.{Goes, RunsOn, so_far};
ghost use Rattle.rex_node.specs.Calls.{vote_call, promise_call};

use crate::going::Going;
use crate::node::Node;
use crate::step::Draft;
use crate::values::copied;
use rex_ballot::{Proposal, Value};
use rex_log::Past;
use rex_paxos::{Vote, Why};
use rex_replay::Replayer;
use rex_report::Effect;
use rex_syntax::checked::Checked;
use rex_traits::Keeper;
use std::alloc::AllocError;

impl<K: Keeper> Node<K> {
    /// A promise of a ballot comes from a node, with what it accepted.
    pub(crate) fn on_promise<P: Past, R: Replayer>(
        &mut self,
        svc: &Checked,
        replayer: &mut R,
        draft: &mut Draft,
        from: u8,
        ballot: u64,
        reported: &[Proposal],
    ) -> Result<Going, AllocError>
        requires may { MayCall K.records K.faults svc.now P.past self.old }
        requires from { IsNodeOf self.old.nodes from }
        requires reported { All IsProposal reported.now }
        requires runs { RunsOn svc.now (promise_call svc.now self.old from ballot reported.now) (so_far K.records svc.now P.past self.old draft.old) }
        ensures { Goes K.records K.append_gives K.faults svc.now P.past (promise_call svc.now self.old from ballot reported.now) self.old self.new
            draft.old draft.new result }
    {
        let _service = svc.declarations();
        match self.count_promise::<P>(from, ballot, reported)? {
            Vote::Ignored { why } => {
                draft.tell(told_of(why))?;
                Ok(Going::On)
            }
            Vote::NotYet { have } => match draft.tell(Effect::Have { count: have }) {
                Ok(()) => Ok(Going::On),
                Err(short) => {
                    self.take_back::<P>(reported.len());
                    Err(short)
                }
            },
            Vote::Quorum => {
                let turns = self.turns();
                match self.go_on::<P, R>(svc, replayer, draft, turns) {
                    Ok(going) => Ok(going),
                    Err(short) => {
                        self.take_back::<P>(reported.len());
                        Err(short)
                    }
                }
            }
        }
    }

    // Counts a promise, or says why it isn't counted. Where memory is short nothing changes.
    fn count_promise<P: Past>(
        &mut self,
        from: u8,
        ballot: u64,
        reported: &[Proposal],
    ) -> Result<Vote, AllocError>
        requires from { IfSome self.old.proposer (λ (p : ProposerValue). IsOneOf p.nodes from) }
        ensures vote { IfOk result (λ vote. vote ≡ vote_on self.old.proposer ballot from) }
        ensures counted { OnOk result (whole P.past self.new ≡ counting (whole P.past self.old) ballot from reported.now) }
        ensures err { OnErr result (whole P.past self.new ≡ (whole P.past self.old)) }
    {
        match &mut self.proposer {
            None => Ok(Vote::Ignored {
                why: Why::Ballot {
                    got: ballot,
                    own: 0,
                },
            }),
            Some(proposer) => proposer.on_promise(ballot, from, reported),
        }
    }

    // Takes the promise back that was counted last, with so many reports. It takes no memory.
    fn take_back<P: Past>(&mut self, reports: usize)
        ensures { whole P.past self.new ≡ uncounting (whole P.past self.old) reports }
    {
        if let Some(proposer) = &mut self.proposer {
            proposer.take_back(reports);
        }
    }

    // So many turns are enough to go on as far as the node can.
    fn turns(&self) -> u64
        ensures { result ≡ 2 * reports_of self.now.proposer + 3 }
    {
        match &self.proposer {
            None => 3,
            Some(proposer) => 2 * proposer.reports() as u64 + 3,
        }
    }

    /// A node says that it accepted the proposal of a ballot for an instance.
    pub(crate) fn on_accepted<P: Past, R: Replayer>(
        &mut self,
        svc: &Checked,
        replayer: &mut R,
        draft: &mut Draft,
        from: u8,
        ballot: u64,
        instance: u32,
    ) -> Result<Going, AllocError>
        requires may { MayCall K.records K.faults svc.now P.past self.old }
        requires from { IsNodeOf self.old.nodes from }
        requires runs { RunsOn svc.now (vote_call svc.now self.old from ballot instance) (so_far K.records svc.now P.past self.old draft.old) }
        ensures { Goes K.records K.append_gives K.faults svc.now P.past (vote_call svc.now self.old from ballot instance) self.old self.new draft.old
            draft.new result }
    {
        match self.acceptance_vote(from, ballot, instance) {
            Vote::Ignored { why } => {
                draft.tell(told_of(why))?;
                Ok(Going::On)
            }
            Vote::NotYet { have } => {
                draft.tell(Effect::Have { count: have })?;
                self.count_acceptance::<P>(from, ballot, instance);
                Ok(Going::On)
            }
            Vote::Quorum => self.choose::<P, R>(svc, replayer, draft, from, ballot, instance),
        }
    }

    /// What the node would make of the acceptance of a ballot's proposal for an instance by a node. It changes nothing.
    pub fn acceptance_vote(&self, from: u8, ballot: u64, instance: u32) -> Vote
        ensures { result ≡ acceptance_vote_on self.now.proposer ballot instance from }
    {
        match &self.proposer {
            None => Vote::Ignored {
                why: Why::Ballot {
                    got: ballot,
                    own: 0,
                },
            },
            Some(proposer) => proposer.acceptance_vote(ballot, instance, from),
        }
    }

    // Counts an acceptance. It takes no memory.
    fn count_acceptance<P: Past>(&mut self, from: u8, ballot: u64, instance: u32)
        requires from { IfSome self.old.proposer (λ (p : ProposerValue). IsOneOf p.nodes from) }
        ensures { whole P.past self.new ≡ accepting_from (whole P.past self.old) ballot instance from }
    {
        if let Some(proposer) = &mut self.proposer {
            proposer.on_accepted(ballot, instance, from);
        }
    }

    // The value that the node itself accepted for an instance.
    fn own_value(&self, instance: u32) -> Result<Option<Value>, AllocError>
        ensures { IfOk result (λ value. value ≡ option_map (λ (p : Kept). p.value) (proposal_for instance self.now.acceptor.accepted)) }
    {
        match self.acceptor.accepted_for(instance) {
            None => Ok(None),
            Some(proposal) => Ok(Some(copied(self.alloc, proposal.value.as_slice())?)),
        }
    }

    // A majority accepted the open proposal with this acceptance: its value is known, and the node goes on.
    fn choose<P: Past, R: Replayer>(
        &mut self,
        svc: &Checked,
        replayer: &mut R,
        draft: &mut Draft,
        from: u8,
        ballot: u64,
        instance: u32,
    ) -> Result<Going, AllocError>
        requires may { MayCall K.records K.faults svc.now P.past self.old }
        requires from { IsNodeOf self.old.nodes from }
        requires vote { acceptance_vote_on self.old.proposer ballot instance from ≡ vote.Quorum }
        requires runs { RunsOn svc.now (vote_call svc.now self.old from ballot instance) (so_far K.records svc.now P.past self.old draft.old) }
        ensures { Goes K.records K.append_gives K.faults svc.now P.past (vote_call svc.now self.old from ballot instance) self.old self.new draft.old
            draft.new result }
    {
        let _service = svc.declarations();
        let Some(value) = self.own_value(instance)? else {
            unreachable!()
        };
        let turns = self.turns() - 1;
        match self.learn::<P>(svc, draft, instance, value.as_slice())? {
            Going::Down => Ok(Going::Down),
            Going::On => self.go_on::<P, R>(svc, replayer, draft, turns),
        }
    }
}

// Why a message was ignored.
fn told_of(why: Why) -> Effect
    ensures { result ≡ told_of why }
{
    match why {
        Why::Ballot { got, own } => Effect::IgnoredBallot { got, own },
        Why::Instance { got, want } => Effect::IgnoredInstance { got, wanted: want },
        Why::Late => Effect::IgnoredLate,
        Why::Again { from } => Effect::IgnoredAgain { from },
    }
}
