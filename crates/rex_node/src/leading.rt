//! How a node that leads, or asks to, goes on.

ghost use Rattle.std.specs.Prelude.{◌≡◌, ◌<◌, ◌+◌, ◌-◌, ◌++◌, ◌∷◌, [], length, map, unwrap_or, true, false, is_some, option_map};
ghost use Rattle.std.specs.Prelude.{None, Some, IfSome, IsSome, IfOk, OnOk, OnErr};
ghost use Rattle.std.specs.Option.{option_copied};
ghost use Rattle.rex_paxos.specs.Proposer.{ProposerValue, closed};
ghost use Rattle.rex_cluster.specs.Calls as calls;
ghost use Rattle.rex_cluster.specs.Values.{events_of, service_of, values_fit};
ghost use Rattle.rex_transfer.specs.Window.{SpellsDelta};
ghost use Rattle.rex_node.specs.Parts.{StaysPut, IsKept, IsSame, knows, whole};
ghost use Rattle.rex_log.specs.Messages.{content_in, message_in};
ghost use Rattle.rex_msg.specs.declared.message.Content.TheVariants as sent;
ghost use Rattle.rex_report.specs.declared.effect.Effect.TheVariants as effect;
ghost use Rattle.rex_node.specs.Leading as spec;
ghost use Rattle.rex_node.specs.Leading.{GoesRoundOr, LearnsOr, OpensOr, CanSettle, FromLead, MayPropose, releases_in};
ghost use Rattle.rex_node.specs.Leading.{IsActive, MaySettle, opened, knowing, goes_on};
ghost use Rattle.rex_node.specs.Going.{Goes};

use crate::acting::Acting;
use crate::going::{Going, Round};
use crate::node::Node;
use crate::reached::reached_at;
use crate::step::Draft;
use crate::values::copied;
use rand_pcg::Lcg64Xsh32;
use rex_ballot::{INSTANCES, Value};
use rex_delta::check;
use rex_durable::Rec;
use rex_event::Cut;
use rex_gate::Answers;
use rex_list::List;
use rex_log::Past;
use rex_msg::{Content, Message};
use rex_paxos::Proposer;
use rex_record::Recorder;
use rex_replay::Replayer;
use rex_report::Effect;
use rex_state::state::State;
use rex_syntax::checked::Checked;
use rex_traits::Keeper;
use std::alloc::{AllocError, Global};

// How many events the delta has that a value spells; 0 where it spells none.
fn event_count(value: &[u8]) -> u32
    ensures { result ≡ length (events_of value.now) }
{
    check(value).unwrap_or(0)
}

impl<K: Keeper> Node<K> {
    /// Sends the same to each other node, in rising order.
    pub(crate) fn send_others<P: Past>(
        &self,
        draft: &mut Draft,
        content: &Content,
    ) -> Result<(), AllocError>
        ensures sends { OnOk result (map (message_in P.past) draft.new.sends.items ≡ map
            (message_in P.past) draft.old.sends.items ++ calls.others self.now.nodes self.now.id (content_in P.past content.now)) }
        ensures effects { OnOk result (draft.new.effects.items ≡ draft.old.effects.items) }
    {
        for before in 0..self.nodes {
            let to = before + 1;
            if to != self.id {
                let content = content.copy(self.alloc)?;
                let from = self.id;
                draft.sends.push(Message { from, to, content })?;
            }
        }
        Ok(())
    }

    /// Proposes a value for the next instance: accepts it itself, tells this of it, and asks the others to accept it.
    pub(crate) fn propose<P: Past>(
        &mut self,
        svc: &Checked,
        draft: &mut Draft,
        told: Effect,
        instance: u32,
        value: &[u8],
    ) -> Result<Going, AllocError>
        requires may { MayPropose K.records K.faults svc.now P.past (whole P.past self.old) instance value.now }
        ensures { OpensOr K.records K.append_gives K.faults svc.now P.past told instance value.now self.old self.new draft.old draft.new result }
    {
        let ballot = self.own_ballot().unwrap_or(0);
        let rec = Rec::Accepted {
            ballot,
            instance,
            value: copied(self.alloc, value)?,
        };
        match self.append::<P>(draft, &rec)? {
            Going::Down => Ok(Going::Down),
            Going::On => {
                self.open::<P>(draft, told, instance, value)?;
                Ok(Going::On)
            }
        }
    }

    // The own acceptance of the value is written down.
    fn open<P: Past>(
        &mut self,
        draft: &mut Draft,
        told: Effect,
        instance: u32,
        value: &[u8],
    ) -> Result<(), AllocError>
        requires leads { IsSome self.old.proposer }
        ensures opened { OnOk result (whole P.past self.new ≡ opened (whole P.past self.old) instance value.now) }
        ensures effects { OnOk result (draft.new.effects.items ≡ draft.old.effects.items ++ told ∷ []) }
        ensures sends { OnOk result (FromLead (whole P.past self.old) (λ l. map (message_in P.past) draft.new.sends.items ≡ map
            (message_in P.past) draft.old.sends.items ++ calls.others self.old.nodes self.old.id
            (content_in P.past (sent.Accept l.ballot instance value.now)))) }
        ensures stays { StaysPut self.old self.new }
    {
        let Some(proposer) = &mut self.proposer else {
            unreachable!()
        };
        let ballot = proposer.ballot();
        self.acceptor.set_accepted(ballot, instance, value)?;
        proposer.propose(instance);
        draft.tell(told)?;
        let value = copied(self.alloc, value)?;
        let content = Content::Accept {
            ballot,
            instance,
            value,
        };
        self.send_others::<P>(draft, &content)
    }

    /// A majority accepted the value of the next instance: it is known, and the others are told.
    pub(crate) fn learn<P: Past>(
        &mut self,
        svc: &Checked,
        draft: &mut Draft,
        instance: u32,
        value: &[u8],
    ) -> Result<Going, AllocError>
        requires may { MayPropose K.records K.faults svc.now P.past (whole P.past self.old) instance value.now }
        requires fits { values_fit svc.now (knows P.past self.old ++ value.now ∷ []) ≡ true }
        ensures { LearnsOr K.records K.append_gives K.faults svc.now P.past instance value.now self.old self.new draft.old draft.new result }
    {
        let _service = svc.declarations();
        let rec = Rec::Known {
            instance,
            value: copied(self.alloc, value)?,
        };
        match self.append::<P>(draft, &rec)? {
            Going::Down => Ok(Going::Down),
            Going::On => {
                self.know::<P>(svc, draft, instance, value)?;
                Ok(Going::On)
            }
        }
    }

    // The known value is written down.
    fn know<P: Past>(
        &mut self,
        svc: &Checked,
        draft: &mut Draft,
        instance: u32,
        value: &[u8],
    ) -> Result<(), AllocError>
        requires recorder { IfSome self.old.acting (CanSettle svc.now) }
        requires room { length (knows P.past self.old) < INSTANCES }
        requires delta { SpellsDelta value.now }
        ensures knows { OnOk result (whole P.past self.new ≡ knowing svc.now (whole P.past self.old) instance value.now) }
        ensures effects { OnOk result (draft.new.effects.items
            ≡ draft.old.effects.items ++ effect.Known self.old.id instance ∷ releases_in self.old.acting) }
        ensures sends { OnOk result (map (message_in P.past) draft.new.sends.items ≡ map
            (message_in P.past) draft.old.sends.items ++ calls.others self.old.nodes self.old.id (content_in P.past (sent.Chosen instance value.now))) }
        ensures stays { StaysPut self.old self.new }
    {
        let node = self.id;
        self.known.push(value, true)?;
        draft.tell(Effect::Known { node, instance })?;
        self.settle::<P>(svc, draft, instance)?;
        self.close::<P>();
        let value = copied(self.alloc, value)?;
        let content = Content::Chosen { instance, value };
        self.send_others::<P>(draft, &content)
    }

    // An active node has the events of the value that became known no longer live, and releases their replies.
    fn settle<P: Past>(
        &mut self,
        svc: &Checked,
        draft: &mut Draft,
        instance: u32,
    ) -> Result<(), AllocError>
        requires recorder { IfSome self.old.acting (CanSettle svc.now) }
        ensures settled { OnOk result (whole P.past self.new ≡ record (whole P.past self.old) {
          replayed = spec.replayed_to self.old.acting instance self.old.replayed;
          acting = option_map (spec.settling svc.now) self.old.acting;
        }) }
        ensures effects { OnOk result (draft.new.effects.items ≡ draft.old.effects.items ++ releases_in self.old.acting) }
        ensures sends { OnOk result (draft.new.sends.items ≡ draft.old.sends.items) }
        ensures stays { StaysPut self.old self.new }
    {
        if let Some(acting) = &mut self.acting {
            acting.settle(svc, self.alloc, draft)?;
            self.replayed = instance;
        }
        Ok(())
    }

    // No proposal is open.
    fn close<P: Past>(&mut self)
        ensures { whole P.past self.new ≡ record (whole P.past self.old) { proposer = option_map closed self.old.proposer } }
    {
        if let Some(proposer) = &mut self.proposer {
            proposer.close();
        }
    }

    // Adopts the value that was reported for the next instance; alone the node knows it at once.
    fn adopt<P: Past>(
        &mut self,
        svc: &Checked,
        draft: &mut Draft,
        turns: u64,
        instance: u32,
        value: &[u8],
    ) -> Result<Round, AllocError>
        requires may { MaySettle K.records K.faults svc.now P.past turns (whole P.past self.old) draft.old }
        requires goes { goes_on self.old.proposer (is_some self.old.acting) ≡ true }
        requires next { instance ≡ length (knows P.past self.old) + 1 }
        requires reported { spec.reported_value self.old.proposer instance ≡ Some value.now }
        ensures { GoesRoundOr K.records K.append_gives K.faults svc.now P.past turns self.old self.new draft.old draft.new result }
    {
        let _service = svc.declarations();
        let node = self.id;
        let events = event_count(value);
        let told = Effect::Adopts {
            node,
            instance,
            events,
        };
        match self.propose::<P>(svc, draft, told, instance, value)? {
            Going::Down => Ok(Round::Done(Going::Down)),
            Going::On => {
                if self.nodes > 1 {
                    return Ok(Round::Done(Going::On));
                }
                match self.learn::<P>(svc, draft, instance, value)? {
                    Going::Down => Ok(Round::Done(Going::Down)),
                    Going::On => Ok(Round::Again),
                }
            }
        }
    }

    // A round of going on, where so many turns of the model are left.
    fn round<P: Past, R: Replayer>(
        &mut self,
        svc: &Checked,
        replayer: &mut R,
        draft: &mut Draft,
        turns: u64,
    ) -> Result<Round, AllocError>
        requires may { MaySettle K.records K.faults svc.now P.past turns (whole P.past self.old) draft.old }
        ensures { GoesRoundOr K.records K.append_gives K.faults svc.now P.past turns self.old self.new draft.old draft.new result }
    {
        let _service = svc.declarations();
        if !self.goes_on() {
            return Ok(Round::Done(Going::On));
        }
        let instance = self.count::<P>() + 1;
        match self.reported_for(instance)? {
            None => {
                self.activate::<P, R>(svc, replayer, draft)?;
                Ok(Round::Done(Going::On))
            }
            Some(value) => self.adopt::<P>(svc, draft, turns, instance, value.as_slice()),
        }
    }

    /// A node that leads goes on: while it isn't active, has no open proposal, and a majority promised, it adopts the value
    /// that was reported for the next instance, or is active where none was; alone it knows at once what it adopts.
    ///
    /// So many turns of the model are enough.
    pub(crate) fn go_on<P: Past, R: Replayer>(
        &mut self,
        svc: &Checked,
        replayer: &mut R,
        draft: &mut Draft,
        turns: u64,
    ) -> Result<Going, AllocError>
        requires may { MaySettle K.records K.faults svc.now P.past turns (whole P.past self.old) draft.old }
        ensures { Goes K.records K.append_gives K.faults svc.now P.past
            (calls.settle turns self.old.nodes (service_of svc.now self.old.seed) self.old.id) self.old self.new draft.old draft.new result }
    {
        let mut left = turns;
        loop {
            match self.round::<P, R>(svc, replayer, draft, left)? {
                Round::Again => left -= 2,
                Round::Done(going) => return Ok(going),
            }
        }
    }

    // Whether the node goes on from here.
    fn goes_on(&self) -> bool
        ensures { result ≡ goes_on self.now.proposer (is_some self.now.acting) }
    {
        match &self.proposer {
            None => false,
            Some(proposer) => may_lead(proposer, self.acting.is_some()),
        }
    }

    // The value that was reported for an instance.
    fn reported_for(&self, instance: u32) -> Result<Option<Value>, AllocError>
        ensures { IfOk result (λ value. value ≡ spec.reported_value self.now.proposer instance) }
    {
        match &self.proposer {
            None => Ok(None),
            Some(proposer) => copied_value(self.alloc, proposer.value_for(instance)),
        }
    }

    // The node is active from here on: it replays what it knows, and executes with a generator of its ballot.
    fn activate<P: Past, R: Replayer>(
        &mut self,
        svc: &Checked,
        replayer: &mut R,
        draft: &mut Draft,
    ) -> Result<(), AllocError>
        requires kept { IsKept K.records svc.now P.past (whole P.past self.old) }
        requires up { self.old.up ≡ true }
        requires acting { self.old.acting ≡ None }
        ensures active { OnOk result (IsActive svc.now (whole P.past self.old) (whole P.past self.new)) }
        ensures same { IsSame (whole P.past self.old) (whole P.past self.new) }
        ensures effects { OnOk result (draft.new.effects.items ≡ draft.old.effects.items ++ effect.Active self.old.id
            (unwrap_or (option_map (λ (p : ProposerValue). p.ballot) self.old.proposer) 0) ∷ []) }
        ensures sends { OnOk result (draft.new.sends.items ≡ draft.old.sends.items) }
        ensures err { OnErr result (whole P.past self.new ≡ (whole P.past self.old)) }
    {
        let _service = svc.declarations();
        let node = self.id;
        let known = self.count::<P>();
        let ballot = self.own_ballot().unwrap_or(0);
        let state = self.replayed_state::<P, R>(svc, replayer)?;
        let answers = Answers::at(self.alloc, &state, known)?;
        let reached = reached_at(self.alloc, self.known.offset(), self.base, known, &state)?;
        let recorder = Recorder::new(self.alloc, state)?;
        draft.tell(Effect::Active { node, ballot })?;
        let dice = Lcg64Xsh32::new(self.seed as u64, ballot);
        let counts = List::new(self.alloc);
        let proposed = Cut { counts };
        self.acting = Some(Acting {
            recorder,
            dice,
            proposed,
            answers,
        });
        self.replayed = known;
        self.ahead = None;
        self.reached = reached;
        Ok(())
    }
}

// Whether a node with this proposer, active or not, goes on.
fn may_lead(proposer: &Proposer, active: bool) -> bool
    ensures { result ≡ spec.may_lead proposer.now active }
{
    !active && proposer.open_instance().is_none() && !proposer.is_candidate()
}

fn copied_value(alloc: Global, value: Option<&[u8]>) -> Result<Option<Value>, AllocError>
    ensures { IfOk result (λ copy. option_copied value.entry ≡ copy) }
{
    match value {
        None => Ok(None),
        Some(value) => Ok(Some(copied(alloc, value)?)),
    }
}
