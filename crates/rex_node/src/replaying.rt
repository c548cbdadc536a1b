//! How a node replays what it knows.

ghost use Rattle.std.specs.Prelude.{◌≡◌, ◌≢◌, ◌<◌, ◌≤◌, ◌-◌, true, length, take, Some, None, IfOk};
ghost use Rattle.rex_state.specs.Machine.{run};
ghost use Rattle.rex_state.specs.Start.{start_of};
ghost use Rattle.rex_cluster.specs.Calls as calls;
ghost use Rattle.rex_cluster.specs.Values.{trace_of};
ghost use Rattle.rex_node.specs.Parts as parts;
ghost use Rattle.rex_node.specs.Parts.{here_of, IsKept, IsNode, knows, whole};
ghost use Rattle.rex_node.specs.Calls.{Refuses};
ghost use Rattle.rex_node.specs.Calls.{refusal_of_replay};
ghost use Rattle.rex_node.specs.Performing.{PerformsInMemory};

use crate::checkpointing::only;
use crate::node::Node;
use crate::reached::reached_at;
use crate::refusal::Refusal;
use crate::step::Step;
use crate::values::replay_values;
use rex_list::List;
use rex_log::Past;
use rex_replay::Replayer;
use rex_report::Effect;
use rex_state::state::State;
use rex_syntax::checked::Checked;
use rex_traits::Keeper;
use std::alloc::AllocError;

impl<K: Keeper> Node<K> {
    /// Replays what the node knows and hasn't replayed yet.
    pub fn replay<P: Past, R: Replayer>(
        &mut self,
        svc: &Checked,
        replayer: &mut R,
    ) -> Result<Step, Refusal>
        requires node { IsNode K.records svc.now P.past self.old }
        ensures { PerformsInMemory K.records K.append_gives K.faults svc.now P.past (calls.replay self.old.id)
            (Refuses (refusal_of_replay (here_of K.records svc.now P.past self.old))) self.old self.new result }
    {
        if let Some(refusal) = self.replay_refusal::<P>(svc) {
            return Err(refusal);
        }
        let state = self.replayed_state::<P, R>(svc, replayer)?;
        self.take_replayed::<P>(svc, state)
    }

    /// The same, where the caller has the state after all that the node knows. It runs no event.
    pub fn take_replayed<P: Past>(&mut self, svc: &Checked, state: State) -> Result<Step, Refusal>
        requires node { IsNode K.records svc.now P.past self.old }
        requires runs { run svc.now (start_of svc.now) (trace_of (knows P.past self.old)) ≡ Some state }
        ensures { PerformsInMemory K.records K.append_gives K.faults svc.now P.past (calls.replay self.old.id)
            (Refuses (refusal_of_replay (here_of K.records svc.now P.past self.old))) self.old self.new result }
    {
        if let Some(refusal) = self.replay_refusal::<P>(svc) {
            return Err(refusal);
        }
        let node = self.id;
        let deltas = self.count::<P>();
        let effects = only(self.alloc, Effect::Replayed { node, deltas })?;
        let reached = reached_at(self.alloc, self.known.offset(), self.base, deltas, &state)?;
        self.reached = reached;
        self.ahead = Some(state);
        self.replayed = deltas;
        Ok(Step {
            effects,
            sends: List::new(self.alloc),
        })
    }

    // Why the node has nothing to replay.
    fn replay_refusal<P: Past>(&self, svc: &Checked) -> Option<Refusal>
        requires { IsNode K.records svc.now P.past self.now }
        ensures why { result ≡ refusal_of_replay (here_of K.records svc.now P.past self.now) }
        ensures up { result ≡ None → self.now.up ≡ true }
        ensures idle { result ≡ None → self.now.acting ≡ None }
        ensures behind { result ≡ None → self.now.replayed ≢ length (knows P.past self.now) }
    {
        if !self.up {
            return Some(Refusal::Down);
        }
        let known = self.count::<P>();
        if self.acting.is_some() || self.replayed == known {
            return Some(Refusal::UpToDate);
        }
        None
    }

    // The state after all that the node knows, from the one that it has replayed.
    pub(crate) fn replayed_state<P: Past, R: Replayer>(
        &self,
        svc: &Checked,
        replayer: &mut R,
    ) -> Result<State, AllocError>
        requires node { IsKept K.records svc.now P.past (whole P.past self.now) }
        requires up { self.now.up ≡ true }
        requires acting { self.now.acting ≡ None }
        ensures runs { IfOk result (λ s. run svc.now (start_of svc.now) (trace_of (knows P.past self.now)) ≡ Some s) }
    {
        match &self.reached {
            Some(reached) if reached.count >= self.replayed => {
                self.replayed_from::<P, R>(svc, replayer, reached.count, &reached.state)
            }
            _ => {
                let from = ahead_of(&self.ahead, &self.start);
                self.replayed_from::<P, R>(svc, replayer, self.replayed, from)
            }
        }
    }

    // The same, from the state after so many values.
    fn replayed_from<P: Past, R: Replayer>(
        &self,
        svc: &Checked,
        replayer: &mut R,
        count: u32,
        from: &State,
    ) -> Result<State, AllocError>
        requires node { IsKept K.records svc.now P.past (whole P.past self.now) }
        requires up { self.now.up ≡ true }
        requires held { self.now.offset ≤ count }
        requires among { count ≤ length (knows P.past self.now) }
        requires from { run svc.now (start_of svc.now) (trace_of (take count (knows P.past self.now))) ≡ Some from.now }
        ensures runs { IfOk result (λ s. run svc.now (start_of svc.now) (trace_of (knows P.past self.now)) ≡ Some s) }
    {
        let _service = svc.declarations();
        let rest = self.known.after(count);
        replay_values(self.alloc, svc, replayer, from, rest)
    }
}

/// The state that was replayed: that of the checkpoint where there is no other one.
pub(crate) fn ahead_of<'a>(ahead: &'a Option<State>, start: &'a State) -> &'a State
    ensures { result.now ≡ parts.ahead_of ahead.now start.now }
{
    match ahead {
        None => start,
        Some(state) => state,
    }
}
