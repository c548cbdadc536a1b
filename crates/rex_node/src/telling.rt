//! What a node tells of itself.

ghost use Rattle.std.specs.Prelude.{◌≡◌, ◌≤◌, None, Ok, IfOk, true, length, option_map};
ghost use Rattle.std.specs.Option.{option_copied};
ghost use Rattle.rex_ballot.specs.Proposals.{proposal_for};
ghost use Rattle.rex_ballot.specs.declared.proposal.Proposal.{Proposal as Kept};
ghost use Rattle.rex_reads.specs.Reads.{seen_after};
ghost use Rattle.rex_cluster.specs.Node.{is_active};
ghost use Rattle.rex_cluster.specs.Reading as reading;
ghost use Rattle.rex_cluster.specs.Reading.{read_at, stamp_at};
ghost use Rattle.rex_node.specs.Checkpointing.{replayed_state};
ghost use Rattle.rex_node.specs.Parts as parts;
ghost use Rattle.rex_node.specs.Parts.{role_in, IsNode, here_of, open_of, proposed_value, state_of, shown_of, work_of};

use crate::node::Node;
use crate::replaying::ahead_of;
use crate::replies::last_held;
use rex_event::CLIENTS;
use rex_log::Past;
use rex_paxos::Acceptor;
use rex_reads::{Read, Seen, admitted};
use rex_record::LIVE_EVENTS;
use rex_state::state::State;
use rex_syntax::checked::Checked;
use rex_traits::Keeper;
use rex_transfer::Window;
use std::alloc::AllocError;

impl<K: Keeper> Node<K> {
    /// How many nodes there are.
    pub fn nodes(&self) -> u8
        ensures { result ≡ self.now.nodes }
    {
        self.nodes
    }

    /// The value that the node accepted last for an instance, as long as it holds that.
    pub fn accepted_for(&self, instance: u32) -> Option<&[u8]>
        ensures { option_copied result ≡ option_map (λ (p : Kept). p.value) (proposal_for instance self.now.acceptor.accepted) }
    {
        match self.acceptor.accepted_for(instance) {
            None => None,
            Some(proposal) => Some(proposal.value.as_slice()),
        }
    }

    /// The greatest ballot that the node promised, or 0.
    pub fn promised(&self) -> u64
        ensures { result ≡ self.now.acceptor.promised }
    {
        self.acceptor.promised()
    }

    /// How many of the values that it knows a node that isn't active has replayed.
    pub fn replayed(&self) -> u32
        ensures { result ≡ self.now.replayed }
    {
        self.replayed
    }

    /// The state after the values that the node has replayed; of an active one it is that in which its live events begin.
    pub fn state(&self) -> &State
        ensures replayed { result.now ≡ replayed_state self.now }
        ensures idle { self.now.acting ≡ None → result.now ≡ state_of self.now }
    {
        match &self.acting {
            None => ahead_of(&self.ahead, &self.start),
            Some(acting) => acting.recorder.start(),
        }
    }

    /// The known values that it holds, those past its offset.
    pub fn window(&self) -> &Window
        ensures { result.now ≡ record { offset = self.now.offset; values = self.now.known } }
    {
        &self.known
    }

    /// The value of its open proposal, where it leads, or asks to, and has one.
    pub fn open_value(&self) -> Option<&[u8]>
        ensures { option_copied result ≡ parts.open_value (role_in self.now) }
    {
        match &self.proposer {
            None => None,
            Some(proposer) => accepted_value(&self.acceptor, proposer.open_instance()),
        }
    }

    /// How many events are live.
    pub fn live(&self) -> u32
        requires { length (work_of self.now.acting).live ≤ LIVE_EVENTS }
        ensures { result ≡ length (work_of self.now.acting).live }
    {
        match &self.acting {
            None => 0,
            Some(acting) => acting.live(),
        }
    }

    /// The values of the variables in the state that it executes, or where it isn't active in the one that it has replayed.
    pub fn variables(&self) -> &[i64]
        ensures { result.now ≡ (shown_of self.now).variables }
    {
        match &self.acting {
            None => match &self.ahead {
                None => self.start.variables(),
                Some(state) => state.variables(),
            },
            Some(acting) => acting.variables(),
        }
    }

    // Whether the node leads and executes.
    fn is_active(&self) -> bool
        ensures { result ≡ is_active (role_in self.now) }
    {
        match &self.proposer {
            None => false,
            Some(_) => self.acting.is_some(),
        }
    }

    /// What a client is told that reads a variable at the node and has seen so much: a value is that after the values that the
    /// node has replayed, as many of which the client has seen then. It takes no memory.
    pub fn read<P: Past>(&self, svc: &Checked, variable: u16, seen: &mut Seen) -> Read
        requires node { IsNode K.records svc.now P.past self.now }
        ensures answer { result ≡ read_at svc.now (here_of K.records svc.now P.past self.now) variable seen.old }
        ensures seen { seen.new ≡ seen_after seen.old result }
    {
        let leads = self.is_active();
        let value = value_in(ahead_of(&self.ahead, &self.start), variable);
        admitted(self.up, leads, self.replayed, value, seen)
    }

    /// The number that a release of the node gives a client: that of the value with the client's last reply, or the offset,
    /// where that is greater. Where no value that the node came to know since it became active replies to the client, it looks for
    /// that value among all that it holds, and that takes memory.
    pub fn stamp<P: Past>(&self, svc: &Checked, client: u16) -> Result<u32, AllocError>
        requires node { IsNode K.records svc.now P.past self.now }
        requires client { client ≤ CLIENTS }
        ensures active { self.now.up ≡ true → is_active (here_of K.records svc.now P.past self.now).role ≡ true
            → IfOk result (λ stamp. stamp ≡ stamp_at (here_of K.records svc.now P.past self.now) client) }
        ensures idle { self.now.acting ≡ None → result ≡ Ok self.now.offset }
    {
        let offset = self.known.offset();
        match &self.acting {
            None => Ok(offset),
            Some(acting) => match acting.answers.stamp(client).unwrap_or(0) {
                0 => last_held(self.alloc, &self.known, client),
                number => Ok(number.max(offset)),
            },
        }
    }

    /// The values of the semaphores in the same state.
    pub fn semaphores(&self) -> &[u32]
        ensures { result.now ≡ (shown_of self.now).semaphores }
    {
        match &self.acting {
            None => match &self.ahead {
                None => self.start.semaphores(),
                Some(state) => state.semaphores(),
            },
            Some(acting) => acting.semaphores(),
        }
    }
}

// The value that a node accepted last for an instance, if one is open.
fn accepted_value(acceptor: &Acceptor, open_instance: Option<u32>) -> Option<&[u8]>
    ensures { option_copied result ≡ proposed_value (open_of acceptor.now open_instance) }
{
    let proposal = acceptor.accepted_for(open_instance?)?;
    Some(proposal.value.as_slice())
}

// The value of a variable in a state; 0 where it isn't there.
fn value_in(state: &State, variable: u16) -> i64
    ensures { result ≡ reading.value_in state.now variable }
{
    match state.variables().get(variable as usize) {
        None => 0,
        Some(value) => *value,
    }
}
