//! What a node promises and accepts.

ghost use Rattle.std.specs.Prelude.{◌≡◌, ◌<◌, ◌-◌, ◌∷◌, true, OnOk};
ghost use Rattle.rex_ballot.specs.Ballot.{IsBallot, IsInstance};
ghost use Rattle.rex_ballot.specs.Proposals.{IsValue, from_instance};
ghost use Rattle.rex_paxos.specs.Acceptor.{answer_to_accept, accepting, promising};
ghost use Rattle.rex_paxos.specs.declared.answers.Asked.TheVariants as asked;
ghost use Rattle.rex_msg.specs.declared.message.Content.TheVariants as sent;
ghost use Rattle.rex_report.specs.declared.effect.Effect.TheVariants as effect;
ghost use Rattle.rex_cluster.specs.Calls as calls;
ghost use Rattle.rex_cluster.specs.Calls.{followed};
ghost use Rattle.rex_node.specs.Parts.{StaysPut, role_in, MayCall, IsPastOf, leaving, whole};
ghost use Rattle.rex_node.specs.Going.{Goes, Sends, Tells, answering};
ghost use Rattle.rex_node.specs.Telling.{TellsAfter};

use crate::going::Going;
use crate::node::Node;
use crate::step::Draft;
use crate::values::copied;
use rex_ballot::copy_all;
use rex_durable::Rec;
use rex_log::Past;
use rex_msg::{Content, Message};
use rex_paxos::Asked;
use rex_report::Effect;
use rex_syntax::checked::Checked;
use rex_traits::Keeper;
use std::alloc::AllocError;

impl<K: Keeper> Node<K> {
    /// A node asks for a promise to its ballot, and for what was accepted from an instance on.
    pub(crate) fn on_prepare<P: Past>(
        &mut self,
        svc: &Checked,
        draft: &mut Draft,
        from: u8,
        ballot: u64,
        first: u32,
    ) -> Result<Going, AllocError>
        requires may { MayCall K.records K.faults svc.now P.past self.old }
        requires ballot { IsBallot ballot }
        requires past { IsPastOf K.records svc.now P.past self.old }
        ensures goes { Goes K.records K.append_gives K.faults svc.now P.past (calls.on_prepare self.old.id from ballot first) self.old self.new
            draft.old draft.new result }
        ensures tells { TellsAfter svc.now P.past draft.old draft.new result }
    {
        let _service = svc.declarations();
        let promised = self.acceptor.promised();
        if ballot < promised {
            self.refuse(draft, from, ballot)?;
            return Ok(Going::On);
        }
        if first <= self.known.offset() {
            self.tell_base::<P>(svc, draft, from)?;
            return Ok(Going::On);
        }
        if promised < ballot {
            return self.raise::<P>(svc, draft, from, ballot, first);
        }
        self.promise(draft, from, ballot, first)?;
        Ok(Going::On)
    }

    /// A node proposes a value for an instance.
    pub(crate) fn on_accept<P: Past>(
        &mut self,
        svc: &Checked,
        draft: &mut Draft,
        from: u8,
        ballot: u64,
        instance: u32,
        value: &[u8],
    ) -> Result<Going, AllocError>
        requires may { MayCall K.records K.faults svc.now P.past self.old }
        requires ballot { IsBallot ballot }
        requires instance { IsInstance instance }
        requires value { IsValue value.now }
        requires past { IsPastOf K.records svc.now P.past self.old }
        ensures goes { Goes K.records K.append_gives K.faults svc.now P.past (calls.on_accept self.old.id from ballot instance value.now) self.old
            self.new draft.old draft.new result }
        ensures tells { TellsAfter svc.now P.past draft.old draft.new result }
    {
        let _service = svc.declarations();
        match self.acceptor.on_accept(ballot, instance) {
            Asked::Nack { .. } => {
                self.refuse(draft, from, ballot)?;
                Ok(Going::On)
            }
            Asked::Accept { fresh } => {
                if instance <= self.known.offset() {
                    self.tell_base::<P>(svc, draft, from)?;
                    return Ok(Going::On);
                }
                if fresh {
                    return self.accept::<P>(svc, draft, from, ballot, instance, value);
                }
                self.vote(draft, from, ballot, instance)?;
                Ok(Going::On)
            }
        }
    }

    // Raises the promise to a ballot, and promises it.
    fn raise<P: Past>(
        &mut self,
        svc: &Checked,
        draft: &mut Draft,
        from: u8,
        ballot: u64,
        first: u32,
    ) -> Result<Going, AllocError>
        requires may { MayCall K.records K.faults svc.now P.past self.old }
        requires ballot { IsBallot ballot }
        requires late { self.old.offset < first }
        requires above { self.old.acceptor.promised < ballot }
        ensures goes { Goes K.records K.append_gives K.faults svc.now P.past (calls.on_prepare self.old.id from ballot first) self.old self.new
            draft.old draft.new result }
        ensures tells { TellsAfter svc.now P.past draft.old draft.new result }
    {
        let _service = svc.declarations();
        let rec = Rec::Promised { ballot };
        match self.append::<P>(draft, &rec)? {
            Going::Down => Ok(Going::Down),
            Going::On => {
                self.raised::<P>(draft, ballot)?;
                self.promise(draft, from, ballot, first)?;
                Ok(Going::On)
            }
        }
    }

    // Accepts a value for an instance.
    fn accept<P: Past>(
        &mut self,
        svc: &Checked,
        draft: &mut Draft,
        from: u8,
        ballot: u64,
        instance: u32,
        value: &[u8],
    ) -> Result<Going, AllocError>
        requires may { MayCall K.records K.faults svc.now P.past self.old }
        requires ballot { IsBallot ballot }
        requires instance { IsInstance instance }
        requires value { IsValue value.now }
        requires late { self.old.offset < instance }
        requires fresh { answer_to_accept self.old.acceptor ballot instance ≡ asked.Accept true }
        ensures goes { Goes K.records K.append_gives K.faults svc.now P.past (calls.on_accept self.old.id from ballot instance value.now) self.old
            self.new draft.old draft.new result }
        ensures tells { TellsAfter svc.now P.past draft.old draft.new result }
    {
        let _service = svc.declarations();
        let rec = Rec::Accepted {
            ballot,
            instance,
            value: copied(self.alloc, value)?,
        };
        match self.append::<P>(draft, &rec)? {
            Going::Down => Ok(Going::Down),
            Going::On => {
                self.accepted::<P>(draft, ballot, instance, value)?;
                self.vote(draft, from, ballot, instance)?;
                Ok(Going::On)
            }
        }
    }

    // The promise is written down, and the node is a follower.
    fn raised<P: Past>(&mut self, draft: &mut Draft, ballot: u64) -> Result<(), AllocError>
        ensures raised { OnOk result (whole P.past self.new ≡ record (leaving (whole P.past self.old)) { acceptor = promising self.old.acceptor ballot }) }
        ensures told { OnOk result (Tells draft.old draft.new (effect.Promised self.old.id ballot ∷ followed self.old.id (role_in self.old))) }
        ensures stays { StaysPut self.old self.new }
    {
        let node = self.id;
        draft.tell(Effect::Promised { node, ballot })?;
        self.leave::<P>(draft)?;
        self.acceptor.on_prepare(ballot);
        Ok(())
    }

    // The acceptance is written down, and the node is a follower.
    fn accepted<P: Past>(
        &mut self,
        draft: &mut Draft,
        ballot: u64,
        instance: u32,
        value: &[u8],
    ) -> Result<(), AllocError>
        ensures accepted { OnOk result (whole P.past self.new ≡ record (leaving (whole P.past self.old)) {
          acceptor = accepting self.old.acceptor
              (record { instance = instance; ballot = ballot; value = value.now });
        }) }
        ensures told { OnOk result (Tells draft.old draft.new (effect.Accepted self.old.id ballot instance ∷ followed self.old.id (role_in self.old))) }
        ensures stays { StaysPut self.old self.new }
    {
        let node = self.id;
        draft.tell(Effect::Accepted {
            node,
            ballot,
            instance,
        })?;
        self.leave::<P>(draft)?;
        self.acceptor.set_accepted(ballot, instance, value)
    }

    // Refuses a ballot below the promise.
    fn refuse(&self, draft: &mut Draft, to: u8, ballot: u64) -> Result<(), AllocError>
        ensures { OnOk result (Sends draft.old draft.new (answering self.now.id to (sent.Nack ballot self.now.acceptor.promised))) }
    {
        let promised = self.acceptor.promised();
        draft.send(Message {
            from: self.id,
            to,
            content: Content::Nack { ballot, promised },
        })
    }

    // Promises a ballot, with what was accepted from an instance on.
    fn promise(&self, draft: &mut Draft, to: u8, ballot: u64, first: u32) -> Result<(), AllocError>
        ensures { OnOk result (Sends draft.old draft.new (answering self.now.id to (sent.Promise ballot (from_instance first self.now.acceptor.accepted)))) }
    {
        let accepted = copy_all(self.alloc, self.acceptor.accepted_from(first))?;
        draft.send(Message {
            from: self.id,
            to,
            content: Content::Promise { ballot, accepted },
        })
    }

    // Tells that the proposal of a ballot was accepted.
    fn vote(&self, draft: &mut Draft, to: u8, ballot: u64, instance: u32) -> Result<(), AllocError>
        ensures { OnOk result (Sends draft.old draft.new (answering self.now.id to (sent.Accepted ballot instance))) }
    {
        draft.send(Message {
            from: self.id,
            to,
            content: Content::Accepted { ballot, instance },
        })
    }
}
