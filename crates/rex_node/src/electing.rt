//! How a node asks to lead.

ghost use Rattle.std.specs.Prelude.{◌≡◌, ◌<◌, ◌≤◌, ◌+◌, ◌*◌, ◌-◌, ◌++◌, ◌∷◌, [], length, map, Some, IfOk, OnOk};
ghost use Rattle.rex_ballot.specs.Ballot.{IsLeastAbove, ballot_left};
ghost use Rattle.rex_paxos.specs.Counting.{IsOneOf};
ghost use Rattle.rex_paxos.specs.Proposer.{IsOwnBallot};
ghost use Rattle.rex_msg.specs.declared.message.Content.TheVariants as sent;
ghost use Rattle.rex_report.specs.declared.effect.Effect.TheVariants as effect;
ghost use Rattle.rex_cluster.specs.Calls as calls;
ghost use Rattle.rex_cluster.specs.Calls.{begin};
ghost use Rattle.rex_node.specs.Parts.{CanFail, StaysPut, MayCall, here_of, IsNode, whole, knows};
ghost use Rattle.rex_node.specs.Electing.{candidate_of, standing};
ghost use Rattle.rex_log.specs.Messages.{content_in, message_in};
ghost use Rattle.rex_node.specs.Going.{Goes, RunsOn, so_far};
ghost use Rattle.rex_node.specs.Calls.{elect_call, Refuses, refusal_of_elect};
ghost use Rattle.rex_node.specs.Performing.{Performs};

use crate::going::Going;
use crate::node::Node;
use crate::refusal::Refusal;
use crate::step::{Draft, Step};
use rex_ballot::{INSTANCES, ballot_above};
use rex_durable::Rec;
use rex_log::Past;
use rex_msg::Content;
use rex_paxos::Proposer;
use rex_replay::Replayer;
use rex_report::Effect;
use rex_syntax::checked::Checked;
use rex_traits::Keeper;
use std::alloc::AllocError;

impl<K: Keeper> Node<K> {
    /// Asks to lead, with the least own ballot above the promise: it promises the ballot to itself, and asks the other nodes.
    /// Where its own promise is a majority, it goes on.
    pub fn elect<P: Past, R: Replayer>(
        &mut self,
        svc: &Checked,
        replayer: &mut R,
    ) -> Result<Step, Refusal>
        requires node { IsNode K.records svc.now P.past self.old }
        requires runs { RunsOn svc.now (elect_call svc.now self.old) (begin (here_of K.records svc.now P.past self.old)) }
        requires count { CanFail K.faults self.old }
        ensures { Performs K.records K.append_gives K.faults svc.now P.past (elect_call svc.now self.old)
            (Refuses (refusal_of_elect self.old.id (here_of K.records svc.now P.past self.old))) self.old self.new result }
    {
        let _service = svc.declarations();
        if let Some(refusal) = self.up_refusal() {
            return Err(refusal);
        }
        let Some(ballot) = ballot_above(self.id, self.acceptor.promised()) else {
            return Err(Refusal::Spent);
        };
        let before = self.keeper.len();
        let mut draft = Draft::new(self.alloc);
        let end = self.stand::<P, R>(svc, replayer, &mut draft, ballot);
        self.finish::<P>(before, draft, end)
    }

    // Stands with this ballot, the least own one above the promise.
    fn stand<P: Past, R: Replayer>(
        &mut self,
        svc: &Checked,
        replayer: &mut R,
        draft: &mut Draft,
        ballot: u64,
    ) -> Result<Going, AllocError>
        requires may { MayCall K.records K.faults svc.now P.past self.old }
        requires left { ballot_left self.old.id self.old.acceptor.promised ≡ Some ballot }
        requires least { IsLeastAbove self.old.id self.old.acceptor.promised ballot }
        requires runs { RunsOn svc.now (elect_call svc.now self.old) (so_far K.records svc.now P.past self.old draft.old) }
        ensures { Goes K.records K.append_gives K.faults svc.now P.past (elect_call svc.now self.old) self.old self.new draft.old draft.new result }
    {
        let _service = svc.declarations();
        let rec = Rec::Promised { ballot };
        match self.append::<P>(draft, &rec)? {
            Going::Down => Ok(Going::Down),
            Going::On => {
                let turns = self.candidate::<P>(draft, ballot)?;
                self.go_on::<P, R>(svc, replayer, draft, turns)
            }
        }
    }

    // The promise is written down: the node asks to lead, and counts its own promise. So many turns are enough to go on.
    fn candidate<P: Past>(&mut self, draft: &mut Draft, ballot: u64) -> Result<u64, AllocError>
        requires own { IsOwnBallot self.old.nodes ballot }
        requires id { IsOneOf self.old.nodes self.old.id }
        requires known { length (knows P.past self.old) ≤ INSTANCES }
        ensures stands { OnOk result (whole P.past self.new ≡ standing (whole P.past self.old) ballot) }
        ensures turns { IfOk result (λ turns. turns ≡ 2 * length (candidate_of (whole P.past self.old) ballot).reported + 3) }
        ensures effects { OnOk result (draft.new.effects.items ≡ draft.old.effects.items ++ effect.Candidate self.old.id ballot ∷ []) }
        ensures sends { OnOk result (map (message_in P.past) draft.new.sends.items ≡ map
            (message_in P.past) draft.old.sends.items ++ calls.others self.old.nodes self.old.id
            (content_in P.past (sent.Prepare ballot (length (knows P.past self.old) + 1)))) }
        ensures stays { StaysPut self.old self.new }
    {
        let node = self.id;
        let first = self.count::<P>() + 1;
        draft.tell(Effect::Candidate { node, ballot })?;
        self.send_others::<P>(draft, &Content::Prepare { ballot, first })?;
        let proposer = self.own_proposer::<P>(ballot, first)?;
        let turns = 2 * proposer.reports() as u64 + 3;
        self.follow::<P>();
        self.acceptor.on_prepare(ballot);
        self.proposer = Some(proposer);
        Ok(turns)
    }

    // A proposer that has counted the own promise, with what was accepted from an instance on.
    fn own_proposer<P: Past>(&self, ballot: u64, first: u32) -> Result<Proposer, AllocError>
        requires own { IsOwnBallot self.now.nodes ballot }
        requires id { IsOneOf self.now.nodes self.now.id }
        requires first { first ≡ length (knows P.past self.now) + 1 }
        ensures { IfOk result (λ p. p ≡ candidate_of (whole P.past self.now) ballot) }
    {
        let mut proposer = Proposer::new(self.alloc, self.nodes, ballot);
        proposer.on_promise(ballot, self.id, self.acceptor.accepted_from(first))?;
        Ok(proposer)
    }
}
