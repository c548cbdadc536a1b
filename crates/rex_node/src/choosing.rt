//! What a node is told of chosen values and of greater promises, and what it tells of chosen values.

ghost use Rattle.std.specs.Prelude.{◌≡◌, ◌<◌, ◌≤◌, ◌+◌, ◌-◌, ◌++◌, ◌∷◌, [], map, take, slice_index_or, suc, length, true, option_map};
ghost use Rattle.std.specs.Prelude.{OnOk, OnErr};
ghost use Rattle.rex_ballot.specs.Ballot.{IsInstance};
ghost use Rattle.rex_ballot.specs.Proposals.{IsValue};
ghost use Rattle.rex_paxos.specs.Proposer.{ProposerValue};
ghost use Rattle.rex_msg.specs.declared.message.Content.TheVariants as sent;
ghost use Rattle.rex_log.specs.Messages.{message_in};
ghost use Rattle.rex_report.specs.declared.effect.Effect.TheVariants as effect;
ghost use Rattle.rex_cluster.specs.Calls as calls;
ghost use Rattle.rex_cluster.specs.Calls.{followed};
ghost use Rattle.rex_transfer.specs.Window.{SpellsDelta};
ghost use Rattle.rex_node.specs.Parts.{StaysPut, role_in, MayCall, IsPastOf, knows, leaving, whole};
ghost use Rattle.rex_node.specs.Going.{Goes, RunsOn, Sends, Tells, answering, so_far};
ghost use Rattle.rex_node.specs.Telling.{TellsAfter};

use crate::going::Going;
use crate::node::Node;
use crate::step::Draft;
use crate::values::copied;
use rex_ballot::{INSTANCES, TOLD_VALUES};
use rex_durable::Rec;
use rex_log::Past;
use rex_msg::{Content, Message};
use rex_report::Effect;
use rex_syntax::checked::Checked;
use rex_traits::Keeper;
use rex_transfer::Look;
use std::alloc::AllocError;

impl<K: Keeper> Node<K> {
    /// The value of an instance was chosen.
    pub(crate) fn on_chosen<P: Past>(
        &mut self,
        svc: &Checked,
        draft: &mut Draft,
        instance: u32,
        value: &[u8],
    ) -> Result<Going, AllocError>
        requires may { MayCall K.records K.faults svc.now P.past self.old }
        requires instance { IsInstance instance }
        requires value { IsValue value.now }
        requires runs { RunsOn svc.now (calls.on_chosen self.old.id instance value.now) (so_far K.records svc.now P.past self.old draft.old) }
        ensures { Goes K.records K.append_gives K.faults svc.now P.past (calls.on_chosen self.old.id instance value.now) self.old self.new draft.old
            draft.new result }
    {
        let _service = svc.declarations();
        let next = self.count::<P>() + 1;
        if instance != next {
            draft.tell(Effect::IgnoredInstance {
                got: instance,
                wanted: next,
            })?;
            return Ok(Going::On);
        }
        self.take_chosen::<P>(svc, draft, instance, value)
    }

    // The value of the next instance is known.
    fn take_chosen<P: Past>(
        &mut self,
        svc: &Checked,
        draft: &mut Draft,
        instance: u32,
        value: &[u8],
    ) -> Result<Going, AllocError>
        requires may { MayCall K.records K.faults svc.now P.past self.old }
        requires instance { IsInstance instance }
        requires next { instance ≡ suc (length (knows P.past self.old)) }
        requires value { IsValue value.now }
        requires runs { RunsOn svc.now (calls.on_chosen self.old.id instance value.now) (so_far K.records svc.now P.past self.old draft.old) }
        ensures { Goes K.records K.append_gives K.faults svc.now P.past (calls.on_chosen self.old.id instance value.now) self.old self.new draft.old
            draft.new result }
    {
        let _service = svc.declarations();
        let rec = Rec::Known {
            instance,
            value: copied(self.alloc, value)?,
        };
        match self.append::<P>(draft, &rec)? {
            Going::Down => Ok(Going::Down),
            Going::On => {
                self.chosen::<P>(draft, instance, value)?;
                Ok(Going::On)
            }
        }
    }

    // The known value is written down, and the node is a follower.
    fn chosen<P: Past>(
        &mut self,
        draft: &mut Draft,
        instance: u32,
        value: &[u8],
    ) -> Result<(), AllocError>
        requires room { length (knows P.past self.old) < INSTANCES }
        requires delta { SpellsDelta value.now }
        ensures chosen { OnOk result (whole P.past self.new
            ≡ record (leaving (whole P.past self.old)) { known = knows P.past self.old ++ value.now ∷ [] }) }
        ensures told { OnOk result (Tells draft.old draft.new (effect.Known self.old.id instance ∷ followed self.old.id (role_in self.old))) }
        ensures stays { StaysPut self.old self.new }
    {
        let node = self.id;
        self.known.push(value, true)?;
        draft.tell(Effect::Known { node, instance })?;
        self.leave::<P>(draft)
    }

    /// A promise above the own ballot ends the node's role.
    pub(crate) fn on_nack<P: Past>(
        &mut self,
        svc: &Checked,
        draft: &mut Draft,
        promised: u64,
    ) -> Result<Going, AllocError>
        requires may { MayCall K.records K.faults svc.now P.past self.old }
        ensures { Goes K.records K.append_gives K.faults svc.now P.past (λ d. calls.on_nack self.old.id promised d d.node.role) self.old self.new
            draft.old draft.new result }
    {
        let _service = svc.declarations();
        match self.own_ballot() {
            None => {
                draft.tell(Effect::IgnoredBallot {
                    got: promised,
                    own: 0,
                })?;
                Ok(Going::On)
            }
            Some(own) => {
                if own < promised {
                    self.leave::<P>(draft)?;
                    return Ok(Going::On);
                }
                draft.tell(Effect::IgnoredBallot { got: promised, own })?;
                Ok(Going::On)
            }
        }
    }

    /// A node asks for the values that were chosen from an instance on.
    pub(crate) fn on_ask<P: Past>(
        &mut self,
        svc: &Checked,
        draft: &mut Draft,
        from: u8,
        first: u32,
    ) -> Result<Going, AllocError>
        requires may { MayCall K.records K.faults svc.now P.past self.old }
        requires past { IsPastOf K.records svc.now P.past self.old }
        ensures goes { Goes K.records K.append_gives K.faults svc.now P.past (calls.on_ask self.old.id from first) self.old self.new draft.old
            draft.new result }
        ensures tells { TellsAfter svc.now P.past draft.old draft.new result }
    {
        let _service = svc.declarations();
        if first <= self.known.offset() {
            self.tell_base::<P>(svc, draft, from)?;
            return Ok(Going::On);
        }
        if first > self.count::<P>() {
            draft.tell(Effect::Nothing)?;
            return Ok(Going::On);
        }
        self.tell_chosen::<P>(svc, draft, from, first)?;
        Ok(Going::On)
    }

    // Tells another node of the chosen values from an instance on, of as many as are told at once.
    fn tell_chosen<P: Past>(
        &self,
        svc: &Checked,
        draft: &mut Draft,
        to: u8,
        first: u32,
    ) -> Result<(), AllocError>
        requires held { self.now.offset < first }
        requires first { first ≤ length (knows P.past self.now) }
        requires few { length (knows P.past self.now) ≤ INSTANCES }
        ensures effects { OnOk result (draft.new.effects.items ≡ draft.old.effects.items) }
        ensures sends { OnOk result (map (message_in P.past) draft.new.sends.items ≡ map (message_in P.past) draft.old.sends.items ++ take TOLD_VALUES
            (calls.tell self.now.id to first 1 (knows P.past self.now))) }
        ensures tells { TellsAfter svc.now P.past draft.old draft.new result }
    {
        let _service = svc.declarations();
        let skipped = first.saturating_sub(1);
        let end = self.count::<P>().min(skipped + TOLD_VALUES);
        for place in skipped..end {
            self.tell_one::<P>(draft, to, place)?;
        }
        Ok(())
    }

    // Tells another node of the value of the instance after so many.
    fn tell_one<P: Past>(&self, draft: &mut Draft, to: u8, place: u32) -> Result<(), AllocError>
        requires held { self.now.offset ≤ place }
        requires there { place < length (knows P.past self.now) }
        requires few { length (knows P.past self.now) ≤ INSTANCES }
        ensures { OnOk result (Sends draft.old draft.new (answering self.now.id to
            (sent.Chosen (place + 1) (slice_index_or (knows P.past self.now) place [])))) }
    {
        let instance = place + 1;
        let Look::Value(value) = self.known.get(instance) else {
            unreachable!()
        };
        let value = copied(self.alloc, value)?;
        draft.send(Message {
            from: self.id,
            to,
            content: Content::Chosen { instance, value },
        })
    }

    /// The own ballot, if the node leads or asks to.
    pub(crate) fn own_ballot(&self) -> Option<u64>
        ensures { result ≡ option_map (λ (p : ProposerValue). p.ballot) self.now.proposer }
    {
        match &self.proposer {
            None => None,
            Some(proposer) => Some(proposer.ballot()),
        }
    }

    // Tells that the node leaves its role, if it leads or asks to.
    fn tell_followed(&self, draft: &mut Draft) -> Result<(), AllocError>
        ensures { OnOk result (Tells draft.old draft.new (followed self.now.id (role_in self.now))) }
    {
        if self.proposer.is_none() {
            return Ok(());
        }
        let node = self.id;
        draft.tell(Effect::Followed { node })
    }

    /// The node is a follower from here on, and tells so where it wasn't.
    pub(crate) fn leave<P: Past>(&mut self, draft: &mut Draft) -> Result<(), AllocError>
        ensures told { OnOk result (Tells draft.old draft.new (followed self.old.id (role_in self.old))) }
        ensures ok { OnOk result (whole P.past self.new ≡ leaving (whole P.past self.old)) }
        ensures err { OnErr result (whole P.past self.new ≡ (whole P.past self.old)) }
    {
        self.tell_followed(draft)?;
        self.follow::<P>();
        Ok(())
    }

    /// The node is a follower from here on.
    pub(crate) fn follow<P: Past>(&mut self)
        ensures { whole P.past self.new ≡ leaving (whole P.past self.old) }
    {
        if self.acting.is_some() {
            self.replayed = self.base;
            self.ahead = None;
        }
        self.proposer = None;
        self.acting = None;
    }
}
