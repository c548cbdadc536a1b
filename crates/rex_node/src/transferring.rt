//! How a node drops values, and how it tells and takes over the state at a base.

ghost use Rattle.std.specs.Prelude.{◌≡◌, ◌<◌, ◌≤◌, ◌-◌, ◌∷◌, length, nat_lt, true, Ok, IfOk, OnOk, OnErr, IfErr};
ghost use Rattle.rex_ballot.specs.Ballot.{IsInstance};
ghost use Rattle.rex_ballot.specs.Proposals.{IsValue};
ghost use Rattle.rex_msg.specs.declared.message.Content.TheVariants as sent;
ghost use Rattle.rex_report.specs.declared.effect.Effect.TheVariants as effect;
ghost use Rattle.rex_snapshot.specs.Allowed.{version_in};
ghost use Rattle.rex_snapshot.specs.Reading.{state_in};
ghost use Rattle.rex_snapshot.specs.Spelling.{IsLimited};
ghost use Rattle.rex_state.specs.Sound.{IsSound};
ghost use Rattle.rex_syntax.specs.declared.version.Version.TheVariants.{Two};
ghost use Rattle.rex_log.specs.Log.{first};
ghost use Rattle.rex_cluster.specs.Calls as calls;
ghost use Rattle.rex_cluster.specs.Calls.{followed};
ghost use Rattle.rex_cluster.specs.Values.{values_fit};
ghost use Rattle.rex_node.specs.Parts.{CanFail, role_in, MayCall, IsPastOf, IsNode, IsSame, StaysNode, count_of, here_of, leaving, whole, knows};
ghost use Rattle.rex_node.specs.Going.{Goes, RunsOn, Tells, TellsBase, so_far};
ghost use Rattle.rex_node.specs.Calls.{TellsDown, snapshot_call, Does, IsSpared, Leaves, Refuses, refusal_of_drop};
ghost use Rattle.rex_node.specs.Telling as spec;
ghost use Rattle.rex_node.specs.Telling.{IsRight, IsToldState, KeepsAsTold, LeadTo, RefusesState};

use crate::going::Going;
use crate::node::Node;
use crate::refusal::Refusal;
use crate::step::{Draft, Step};
use crate::values::copied;
use rex_durable::Rec;
use rex_list::List;
use rex_log::Past;
use rex_msg::{Content, Message};
use rex_report::Effect;
use rex_snapshot::{DecodeError, decode, encode};
use rex_state::state::State;
use rex_syntax::checked::Checked;
use rex_traits::Keeper;
use std::alloc::{AllocError, Global};

/// The state that another node tells.
pub(crate) fn decoded(alloc: Global, svc: &Checked, snapshot: &[u8]) -> Result<State, Refusal>
    ensures found { IfOk result (λ s. state_in svc.now snapshot.now ≡ Ok s) }
    ensures bad { IfErr result (λ e. RefusesState (state_in svc.now snapshot.now) e) }
{
    match decode(alloc, svc, snapshot) {
        Ok(state) => Ok(state),
        Err(DecodeError::Bad { at }) => Err(Refusal::BadSnapshot { at }),
        Err(DecodeError::OutOfMemory) => Err(Refusal::OutOfMemory),
    }
}

// The bytes of a state as it is told: in the new version.
fn told_bytes(alloc: Global, svc: &Checked, state: &State) -> Result<List<u8>, AllocError>
    requires sound { IsSound svc.now state.now }
    requires limited { IsLimited state.now }
    ensures spelled { IfOk result (λ bytes. state_in svc.now bytes ≡ Ok state.now) }
    ensures version { IfOk result (λ bytes. version_in bytes ≡ Two) }
    ensures short { IfOk result IsValue }
{
    let bytes = encode(alloc, svc, state)?;
    Ok(List::from_vec(bytes))
}

impl<K: Keeper> Node<K> {
    /// Forgets the values up to the base, and what was accepted for their instances. It takes memory for what is told alone.
    pub fn drop_known<P: Past>(&mut self, svc: &Checked) -> Result<Step, Refusal>
        requires node { IsNode K.records svc.now P.past self.old }
        requires past { IsPastOf K.records svc.now P.past self.old }
        requires count { CanFail K.faults self.old }
        ensures refused { Refuses (refusal_of_drop (here_of K.records svc.now P.past self.old)) result }
        ensures told { IfOk result (Does K.records K.append_gives K.faults svc.now P.past (calls.drop_known self.old.id) self.old self.new) }
        ensures down { TellsDown K.faults self.old self.new result }
        ensures left { Leaves K.records K.append_gives K.faults svc.now P.past (calls.drop_known self.old.id) result self.old self.new }
        ensures same { IsSpared result self.old self.new }
        ensures kept { StaysNode K.records svc.now P.past self.old self.new }
    {
        let _service = svc.declarations();
        if !self.up {
            return Err(Refusal::Down);
        }
        if self.base == self.known.offset() {
            return Err(Refusal::Nothing);
        }
        let before = self.keeper.len();
        let mut draft = Draft::new(self.alloc);
        let end = self.drop_to_base::<P>(svc, &mut draft);
        self.finish::<P>(before, draft, end)
    }

    // The values up to the base are dropped once that is written down.
    fn drop_to_base<P: Past>(
        &mut self,
        svc: &Checked,
        draft: &mut Draft,
    ) -> Result<Going, AllocError>
        requires may { MayCall K.records K.faults svc.now P.past self.old }
        requires held { self.old.offset < self.old.base }
        requires past { IsPastOf K.records svc.now P.past self.old }
        ensures { Goes K.records K.append_gives K.faults svc.now P.past (calls.drop_known self.old.id) self.old self.new draft.old draft.new result }
    {
        let _service = svc.declarations();
        let node = self.id;
        let deltas = self.base;
        let rec = Rec::Dropped { deltas };
        match self.append::<P>(draft, &rec)? {
            Going::Down => Ok(Going::Down),
            Going::On => {
                self.forget(deltas);
                draft.tell(Effect::Dropped { node, deltas })?;
                Ok(Going::On)
            }
        }
    }

    // The values of so many instances, and what was accepted for these, are no longer held. It takes no memory.
    fn forget(&mut self, deltas: u32)
        requires from { self.old.offset ≤ deltas }
        requires to { deltas ≤ count_of self.old }
        ensures { self.new ≡ spec.dropped self.old deltas }
    {
        self.known.drop_to(deltas);
        self.reached = None;
        self.acceptor.forget(deltas);
    }

    /// Tells another node, which asks for values that this one doesn't hold any more, the state at the base.
    pub(crate) fn tell_base<P: Past>(
        &self,
        svc: &Checked,
        draft: &mut Draft,
        to: u8,
    ) -> Result<(), AllocError>
        requires node { IsNode K.records svc.now P.past self.now }
        requires up { self.now.up ≡ true }
        ensures { OnOk result (TellsBase svc.now (whole P.past self.now) to draft.old draft.new) }
    {
        let _service = svc.declarations();
        let snapshot = told_bytes(self.alloc, svc, &self.start)?;
        let deltas = self.base;
        draft.send(Message {
            from: self.id,
            to,
            content: Content::Snapshot { deltas, snapshot },
        })
    }

    /// Another node tells the state after so many values: it is taken over where the node knows fewer, and this is it then.
    pub(crate) fn on_snapshot<P: Past>(
        &mut self,
        svc: &Checked,
        draft: &mut Draft,
        deltas: u32,
        snapshot: &[u8],
        told: Option<State>,
    ) -> Result<Going, AllocError>
        requires may { MayCall K.records K.faults svc.now P.past self.old }
        requires there { IsInstance deltas }
        requires value { IsValue snapshot.now }
        requires told { IsToldState svc.now (length (knows P.past self.old)) (sent.Snapshot deltas snapshot.now) told }
        requires right { IsRight svc.now P.past (sent.Snapshot deltas snapshot.now) }
        requires runs { RunsOn svc.now (snapshot_call svc.now P.past self.old deltas) (so_far K.records svc.now P.past self.old draft.old) }
        ensures goes { Goes K.records K.append_gives K.faults svc.now P.past (snapshot_call svc.now P.past self.old deltas) self.old self.new
            draft.old draft.new result }
        ensures taken { KeepsAsTold (sent.Snapshot deltas snapshot.now) (K.records self.old.keeper) (K.records self.new.keeper) }
    {
        let _service = svc.declarations();
        let Some(state) = told else {
            draft.tell(Effect::IgnoredInstance {
                got: deltas,
                wanted: self.count::<P>() + 1,
            })?;
            return Ok(Going::On);
        };
        self.take_over::<P>(svc, draft, deltas, snapshot, state)
    }

    // Takes over the state after so many values, of which the node knows fewer.
    fn take_over<P: Past>(
        &mut self,
        svc: &Checked,
        draft: &mut Draft,
        deltas: u32,
        snapshot: &[u8],
        state: State,
    ) -> Result<Going, AllocError>
        requires may { MayCall K.records K.faults svc.now P.past self.old }
        requires more { length (knows P.past self.old) < deltas }
        requires there { IsInstance deltas }
        requires value { IsValue snapshot.now }
        requires spelled { state_in svc.now snapshot.now ≡ Ok state }
        requires leads { LeadTo svc.now P.past deltas state }
        requires fits { values_fit svc.now (first deltas P.past) ≡ true }
        ensures goes { Goes K.records K.append_gives K.faults svc.now P.past (snapshot_call svc.now P.past self.old deltas) self.old self.new
            draft.old draft.new result }
        ensures taken { KeepsAsTold (sent.Snapshot deltas snapshot.now) (K.records self.old.keeper) (K.records self.new.keeper) }
    {
        let _service = svc.declarations();
        let snapshot = copied(self.alloc, snapshot)?;
        let rec = Rec::Transferred { deltas, snapshot };
        let before = self.keeper.len();
        match self.append::<P>(draft, &rec)? {
            Going::Down => {
                self.fall_moved::<P>(before, deltas);
                Ok(Going::Down)
            }
            Going::On => {
                self.move_to(deltas, state);
                self.tell_moved::<P>(draft, deltas)?;
                Ok(Going::On)
            }
        }
    }

    // The node is down, and its base is that of the records that the keeper has then, which had so many before.
    fn fall_moved<P: Past>(&mut self, before: usize, deltas: u32)
        ensures fallen { whole P.past self.new ≡ spec.fallen_moved (nat_lt before (length (K.records self.old.keeper))) (whole P.past self.old) deltas }
        ensures same { IsSame (whole P.past self.old) (whole P.past self.new) }
    {
        if self.keeper.len() > before {
            self.base = deltas;
            self.replayed = deltas;
        }
    }

    // The node is at the state after so many values, and holds none of them. It takes no memory.
    fn move_to(&mut self, deltas: u32, state: State)
        requires more { count_of self.old < deltas }
        requires there { IsInstance deltas }
        ensures { self.new ≡ spec.moved self.old deltas state }
    {
        self.known.jump(deltas);
        self.reached = None;
        self.acceptor.forget(deltas);
        self.base = deltas;
        self.start = state;
        self.replayed = deltas;
        self.ahead = None;
    }

    // The node has taken over the state after so many values, and is a follower.
    fn tell_moved<P: Past>(&mut self, draft: &mut Draft, deltas: u32) -> Result<(), AllocError>
        ensures ok { OnOk result (whole P.past self.new ≡ leaving (whole P.past self.old)) }
        ensures told { OnOk result (Tells draft.old draft.new (effect.Transferred self.old.id deltas ∷ followed self.old.id (role_in self.old))) }
        ensures err { OnErr result (whole P.past self.new ≡ (whole P.past self.old)) }
    {
        let node = self.id;
        draft.tell(Effect::Transferred { node, deltas })?;
        self.leave::<P>(draft)
    }
}
