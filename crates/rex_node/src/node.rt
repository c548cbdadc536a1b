//! A node, and what its clients and lanes get of it.

ghost use Rattle.std.specs.Prelude.{◌≡◌, ◌<◌, ◌≤◌, ◌+◌, ◌^◌, ◌∷◌, [], false, Some, None, length, option_map, IsSome, IfOk, OnOk, OnErr};
ghost use Rattle.std.specs.Option.{option_copied};
ghost use Rattle.rex_state.specs.Machine.{lane_of, run};
ghost use Rattle.rex_state.specs.Counts.{AreCounted};
ghost use Rattle.rex_schedule.specs.Fits.{RequestFits};
ghost use Rattle.rex_cluster.specs.Node.{role_name, lead_name};
ghost use Rattle.rex_cluster.specs.Calls.{begin};
ghost use Rattle.rex_cluster.specs.Lanes.{effect_of, live_state, submit_request, turned};
ghost use Rattle.rex_cluster.specs.Takes as takes;
ghost use Rattle.rex_log.specs.Log.{proposal_in};
ghost use Rattle.rex_node.specs.Parts.{role_in, fallen, stopped, here_of, open_of, IsNode, StaysNode, count_of, knows};
ghost use Rattle.rex_node.specs.Blocks.{take_each};
ghost use Rattle.rex_node.specs.Calls.{RefusesIdle, LeadsNode, if_up, if_active, turn_at};

use crate::acting::Acting;
use crate::decoded::Decoded;
use crate::reached::Reached;
use crate::refusal::Refusal;
use rex_ballot::{INSTANCES, Proposal};
use rex_event::Event;
use rex_gate::Answer;
use rex_log::Past;
use rex_paxos::{Acceptor, Proposer};
use rex_record::Turn;
use rex_report::Role;
use rex_state::state::State;
use rex_syntax::checked::Checked;
use rex_syntax::request::Request;
use rex_traits::Keeper;
use rex_transfer::Window;
use std::alloc::Global;
use std::marker::Model;

/// One node of a cluster, over the keeper of its records. What it is beside them it is only while it is up.
///
/// Each call does to the node what the cluster's model does to it; `here_of` is the node of the model that its parts are.
#[derive(Drop)]
pub struct Node<K: Keeper> {
    pub(crate) alloc: Global,
    pub(crate) id: u8,
    pub(crate) nodes: u8,
    pub(crate) seed: u32,
    pub(crate) keeper: K,
    pub(crate) up: bool,
    pub(crate) acceptor: Acceptor,
    /// The bytes of the known values that the node holds.
    pub(crate) known: Window,
    /// How many values the last checkpoint is after, and the state then.
    pub(crate) base: u32,
    pub(crate) start: State,
    /// Whether the last checkpoint is in the old version.
    pub(crate) old_base: bool,
    /// How many values were replayed, and the state then, unless that is the one of the checkpoint or what is executed has it.
    pub(crate) replayed: u32,
    pub(crate) ahead: Option<State>,
    /// The state to which it came last by replaying, where it forgot no values. It is kept while the node is stopped.
    pub(crate) reached: Option<Reached>,
    /// The snapshot that it decoded last, and the state that this spells. It is kept while the node is down.
    pub(crate) decoded: Option<Decoded>,
    /// There while the node leads, or asks to.
    pub(crate) proposer: Option<Proposer>,
    /// There while the node is active.
    pub(crate) acting: Option<Acting>,
}

impl<K: Keeper> Model for Node<K> {
    ghost use Rattle.rex_node.specs.Parts.{NodeValue};

    ghost Value = { NodeValue K };

    ghost view = { λ n. record {
      id = n.id;
      nodes = n.nodes;
      seed = n.seed;
      keeper = n.keeper;
      up = n.up;
      acceptor = n.acceptor;
      offset = n.known.offset;
      known = n.known.values;
      base = n.base;
      old_base = n.old_base;
      start = n.start;
      replayed = n.replayed;
      ahead = n.ahead;
      reached = n.reached;
      decoded = n.decoded;
      proposer = n.proposer;
      acting = n.acting;
    } };
}

impl<K: Keeper> Node<K> {
    /// The node's number, from 1.
    pub fn id(&self) -> u8
        ensures { result ≡ self.now.id }
    {
        self.id
    }

    /// Whether the node is up.
    pub fn is_up(&self) -> bool
        ensures { result ≡ self.now.up }
    {
        self.up
    }

    /// The keeper, for the one who made it.
    pub fn keeper(&self) -> &K
        ensures { result.now ≡ self.now.keeper }
    {
        &self.keeper
    }

    /// How many values the node knows.
    pub fn known(&self) -> u32
        ensures { result ≡ count_of self.now }
    {
        self.known.known()
    }

    // The same, of all that it knows beside a past.
    pub(crate) fn count<P: Past>(&self) -> u32
        ensures known { result ≡ length (knows P.past self.now) }
        ensures few { result ≤ INSTANCES }
    {
        self.known.known()
    }

    /// Whether the last checkpoint is in the old version.
    pub fn has_old_base(&self) -> bool
        ensures { result ≡ self.now.old_base }
    {
        self.old_base
    }

    /// What the node does in its cluster.
    pub fn role(&self) -> Role
        ensures { result ≡ role_name (role_in self.now) }
    {
        match &self.proposer {
            None => Role::Follower,
            Some(proposer) => lead_role(&self.acceptor, proposer, self.acting.is_some()),
        }
    }

    /// Stops the node where it stands: it is down from here on, and has its keeper, the state that it came to last by replaying and
    /// the snapshot that it decoded last. Nothing else that it has counts.
    pub fn halt(&mut self)
        ensures { self.new ≡ stopped self.old }
    {
        self.up = false;
        self.replayed = self.base;
        self.ahead = None;
        self.proposer = None;
        self.acting = None;
    }

    // The node is down since an append failed.
    pub(crate) fn fall(&mut self)
        ensures { self.new ≡ fallen self.old }
    {
        self.halt();
        self.reached = None;
    }

    /// Stops the node, and gives its keeper back: with the keeper's records it starts again.
    pub fn stop(self) -> K
        ensures { result ≡ self.keeper }
    {
        self.keeper
    }

    // Why the node doesn't do what only an active node does.
    pub(crate) fn active_refusal(&self) -> Option<Refusal>
        ensures why { result ≡ if_up self.now.up (if_active (role_in self.now) None) }
        ensures acts { result ≡ None → IsSome self.now.acting }
    {
        if !self.up {
            return Some(Refusal::Down);
        }
        if self.proposer.is_some() && self.acting.is_some() {
            return None;
        }
        let role = self.role();
        Some(Refusal::NotActive { role })
    }

    /// Answers a client's request, and queues it where it is due.
    pub fn submit<P: Past>(&mut self, svc: &Checked, request: &Request) -> Result<Answer, Refusal>
        requires node { IsNode K.records svc.now P.past self.old }
        requires request { RequestFits svc.now request.now }
        ensures refused { RefusesIdle K.records svc.now P.past self.old result }
        ensures told { IfOk result (λ answer. effect_of request.now answer ∷ [] ≡
            (submit_request svc.now (Some request.now) (begin (here_of K.records svc.now P.past self.old))).effects) }
        ensures node { OnOk result (LeadsNode K.records svc.now P.past (submit_request svc.now (Some request.now)) self.old self.new) }
        ensures same { OnErr result (self.new ≡ self.old) }
        ensures keeper { self.new.keeper ≡ self.old.keeper }
        ensures kept { StaysNode K.records svc.now P.past self.old self.new }
    {
        let _service = svc.declarations();
        if let Some(refusal) = self.active_refusal() {
            return Err(refusal);
        }
        let Some(acting) = &mut self.acting else {
            unreachable!()
        };
        let answer = acting.submit(svc, request)?;
        Ok(answer)
    }

    /// A lane's turn, where the clock reads this: the next event of the lane, or why it makes none.
    pub fn lane<P: Past>(&mut self, svc: &Checked, lane: u8, now: i64) -> Result<Turn, Refusal>
        requires node { IsNode K.records svc.now P.past self.old }
        requires there { lane < svc.now.lanes }
        requires count { (lane_of (live_state svc.now (here_of K.records svc.now P.past self.old)) lane).done + 1 < 2 ^ 32 }
        ensures refused { RefusesIdle K.records svc.now P.past self.old result }
        ensures told { IfOk result (λ turn. turn ≡ turn_at svc.now (here_of K.records svc.now P.past self.old) lane now) }
        ensures node { IfOk result (λ turn. LeadsNode K.records svc.now P.past (turned svc.now lane turn) self.old self.new) }
        ensures same { OnErr result (self.new ≡ self.old) }
        ensures keeper { self.new.keeper ≡ self.old.keeper }
        ensures kept { StaysNode K.records svc.now P.past self.old self.new }
    {
        let _service = svc.declarations();
        if let Some(refusal) = self.active_refusal() {
            return Err(refusal);
        }
        let Some(acting) = &mut self.acting else {
            unreachable!()
        };
        let turn = acting.lane(svc, lane, now)?;
        Ok(turn)
    }

    /// Takes an event that was made elsewhere among the live ones, where it is the next one of its lane: `Done`, `Full` or
    /// `Unfit`.
    pub fn take_event<P: Past>(&mut self, svc: &Checked, event: &Event) -> Result<Turn, Refusal>
        requires node { IsNode K.records svc.now P.past self.old }
        requires count { (lane_of (live_state svc.now (here_of K.records svc.now P.past self.old)) event.now.lane).done + 1 < 2 ^ 32 }
        ensures refused { RefusesIdle K.records svc.now P.past self.old result }
        ensures told { IfOk result (λ turn. turn ≡ takes.taken_in svc.now (here_of K.records svc.now P.past self.old) event.now) }
        ensures node { IfOk result (λ turn. LeadsNode K.records svc.now P.past (takes.taken turn) self.old self.new) }
        ensures same { OnErr result (self.new ≡ self.old) }
        ensures keeper { self.new.keeper ≡ self.old.keeper }
        ensures kept { StaysNode K.records svc.now P.past self.old self.new }
    {
        let _service = svc.declarations();
        if let Some(refusal) = self.active_refusal() {
            return Err(refusal);
        }
        let Some(acting) = &mut self.acting else {
            unreachable!()
        };
        let turn = acting.take_event(svc, event)?;
        Ok(turn)
    }

    /// Takes events that were made elsewhere among the live ones, as if they were handed in one after the other, where they lead
    /// from the live state to this one. Where all are taken, no line of the service runs.
    pub fn take_block<P: Past>(
        &mut self,
        svc: &Checked,
        events: &[Event],
        state: State,
    ) -> Result<(), Refusal>
        requires node { IsNode K.records svc.now P.past self.old }
        requires runs { run svc.now (live_state svc.now (here_of K.records svc.now P.past self.old)) events.now ≡ Some state }
        requires counted { AreCounted events.now }
        ensures refused { RefusesIdle K.records svc.now P.past self.old result }
        ensures node { OnOk result (LeadsNode K.records svc.now P.past (take_each svc.now events.now) self.old self.new) }
        ensures same { OnErr result (self.new ≡ self.old) }
        ensures keeper { self.new.keeper ≡ self.old.keeper }
        ensures kept { StaysNode K.records svc.now P.past self.old self.new }
    {
        let _service = svc.declarations();
        if let Some(refusal) = self.active_refusal() {
            return Err(refusal);
        }
        let Some(acting) = &mut self.acting else {
            unreachable!()
        };
        acting.take_block(svc, events, state)?;
        Ok(())
    }
}

// What a node that leads, or asks to, does in its cluster.
fn lead_role(acceptor: &Acceptor, proposer: &Proposer, active: bool) -> Role
    ensures { result ≡ lead_name active (open_of acceptor.now proposer.now.open_instance) }
{
    if active {
        return Role::Active;
    }
    match proposer.open_instance() {
        None => Role::Candidate,
        Some(instance) => adopting(acceptor.accepted_for(instance)),
    }
}

fn adopting(proposal: Option<&Proposal>) -> Role
    ensures { result ≡ lead_name false (option_map proposal_in (option_copied proposal.entry)) }
{
    match proposal {
        None => Role::Candidate,
        Some(_) => Role::Adopting,
    }
}
