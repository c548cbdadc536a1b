//! The messages of other nodes.

ghost use Rattle.std.specs.Prelude.{◌≡◌, ◌<◌, ◌-◌, length, None, IfOk, IfErr};
ghost use Rattle.rex_msg.specs.Spelling.{HasSpelling};
ghost use Rattle.rex_cluster.specs.Calls as calls;
ghost use Rattle.rex_cluster.specs.Calls.{begin};
ghost use Rattle.rex_cluster.specs.Ranges.{MessageFits};
ghost use Rattle.rex_node.specs.Parts.{CanFail, MayCall, IsPastOf, here_of, IsNode, knows};
ghost use Rattle.rex_node.specs.Telling.{StepTells, TellsAfter, IsRight, IsToldState, KeepsAsTold, RefusesContent, refusal_of_content};
ghost use Rattle.rex_log.specs.Messages.{message_in};
ghost use Rattle.rex_node.specs.Going.{Goes, RunsOn, so_far};
ghost use Rattle.rex_node.specs.Calls.{message_call, Does, Refuses, RefusesThen, if_up, refusal_up};
ghost use Rattle.rex_node.specs.Performing.{Performs};

use crate::going::Going;
use crate::node::Node;
use crate::refusal::Refusal;
use crate::step::{Draft, Step};
use crate::transferring::decoded;
use rex_list::List;
use rex_log::Past;
use rex_msg::{Content, Message};
use rex_replay::Replayer;
use rex_state::state::State;
use rex_syntax::checked::Checked;
use rex_traits::Keeper;
use std::alloc::AllocError;

impl<K: Keeper> Node<K> {
    // Why the node doesn't do what only a node that is up does.
    pub(crate) fn up_refusal(&self) -> Option<Refusal>
        ensures { result ≡ if_up self.now.up None }
    {
        if self.up { None } else { Some(Refusal::Down) }
    }

    /// Does what a message of another node asks for.
    pub fn on_message<P: Past, R: Replayer>(
        &mut self,
        svc: &Checked,
        replayer: &mut R,
        message: &Message,
    ) -> Result<Step, Refusal>
        requires node { IsNode K.records svc.now P.past self.old }
        requires message { MessageFits self.old.nodes (message_in P.past message.now) }
        requires spelling { HasSpelling message.now }
        requires here { message.now.to ≡ self.old.id }
        requires past { IsPastOf K.records svc.now P.past self.old }
        requires right { IsRight svc.now P.past message.now.content }
        requires runs { RunsOn svc.now (message_call svc.now P.past self.old message.now) (begin (here_of K.records svc.now P.past self.old)) }
        requires count { CanFail K.faults self.old }
        ensures performs { Performs K.records K.append_gives K.faults svc.now P.past (message_call svc.now P.past self.old message.now)
            (RefusesThen (refusal_up (here_of K.records svc.now P.past self.old))
            (refusal_of_content svc.now (here_of K.records svc.now P.past self.old) message.now.content)) self.old self.new result }
        ensures taken { KeepsAsTold message.now.content (K.records self.old.keeper) (K.records self.new.keeper) }
    {
        let _service = svc.declarations();
        if let Some(refusal) = self.up_refusal() {
            return Err(refusal);
        }
        let told = self.told_state::<P>(svc, &message.content)?;
        let before = self.keeper.len();
        let mut draft = Draft::new(self.alloc);
        let end = self.receive::<P, R>(svc, replayer, &mut draft, message, told);
        self.finish::<P>(before, draft, end)
    }

    // The state that a message tells, where it is one after more values than the node knows.
    fn told_state<P: Past>(
        &self,
        svc: &Checked,
        content: &Content,
    ) -> Result<Option<State>, Refusal>
        ensures told { IfOk result (IsToldState svc.now (length (knows P.past self.now)) content.now) }
        ensures bad { IfErr result (RefusesContent svc.now (length (knows P.past self.now)) content.now) }
    {
        match content {
            Content::Snapshot { deltas, snapshot } => {
                if *deltas <= self.count::<P>() {
                    return Ok(None);
                }
                let state = decoded(self.alloc, svc, snapshot.as_slice())?;
                Ok(Some(state))
            }
            _ => Ok(None),
        }
    }

    // What a node that is up does with a message, and with the state that it tells.
    fn receive<P: Past, R: Replayer>(
        &mut self,
        svc: &Checked,
        replayer: &mut R,
        draft: &mut Draft,
        message: &Message,
        told: Option<State>,
    ) -> Result<Going, AllocError>
        requires may { MayCall K.records K.faults svc.now P.past self.old }
        requires message { MessageFits self.old.nodes (message_in P.past message.now) }
        requires spelling { HasSpelling message.now }
        requires past { IsPastOf K.records svc.now P.past self.old }
        requires right { IsRight svc.now P.past message.now.content }
        requires told { IsToldState svc.now (length (knows P.past self.old)) message.now.content told }
        requires runs { RunsOn svc.now (message_call svc.now P.past self.old message.now) (so_far K.records svc.now P.past self.old draft.old) }
        ensures goes { Goes K.records K.append_gives K.faults svc.now P.past (message_call svc.now P.past self.old message.now) self.old self.new
            draft.old draft.new result }
        ensures tells { TellsAfter svc.now P.past draft.old draft.new result }
        ensures taken { KeepsAsTold message.now.content (K.records self.old.keeper) (K.records self.new.keeper) }
    {
        let from = message.from;
        match &message.content {
            Content::Prepare { ballot, first } => {
                self.on_prepare::<P>(svc, draft, from, *ballot, *first)
            }
            Content::Promise { ballot, accepted } => {
                self.on_promise::<P, R>(svc, replayer, draft, from, *ballot, accepted.as_slice())
            }
            Content::Accept {
                ballot,
                instance,
                value,
            } => self.on_accept::<P>(svc, draft, from, *ballot, *instance, value.as_slice()),
            Content::Accepted { ballot, instance } => {
                self.on_accepted::<P, R>(svc, replayer, draft, from, *ballot, *instance)
            }
            Content::Chosen { instance, value } => {
                self.on_chosen::<P>(svc, draft, *instance, value.as_slice())
            }
            Content::Nack { promised, .. } => self.on_nack::<P>(svc, draft, *promised),
            Content::Ask { first } => self.on_ask::<P>(svc, draft, from, *first),
            Content::Snapshot { deltas, snapshot } => {
                self.on_snapshot::<P>(svc, draft, *deltas, snapshot.as_slice(), told)
            }
        }
    }

    /// Asks another node for what this one doesn't know.
    pub fn ask<P: Past>(&mut self, svc: &Checked, to: u8) -> Result<Step, Refusal>
        requires node { IsNode K.records svc.now P.past self.old }
        ensures refused { Refuses (refusal_up (here_of K.records svc.now P.past self.old)) result }
        ensures told { IfOk result (Does K.records K.append_gives K.faults svc.now P.past (calls.ask self.old.id to) self.old self.new) }
        ensures tells { StepTells svc.now P.past result }
        ensures same { self.new ≡ self.old }
    {
        let _service = svc.declarations();
        if let Some(refusal) = self.up_refusal() {
            return Err(refusal);
        }
        let first = self.count::<P>() + 1;
        let mut sends = List::new(self.alloc);
        sends.push(Message {
            from: self.id,
            to,
            content: Content::Ask { first },
        })?;
        Ok(Step {
            effects: List::new(self.alloc),
            sends,
        })
    }
}
