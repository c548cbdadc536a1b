//! How a node writes down the state that it has replayed.

ghost use Rattle.std.specs.Prelude.{◌≡◌, ◌<◌, ◌≤◌, ◌-◌, ◌==◌, ◌∷◌, [], true, length, nat_lt, Ok, Some, None, IfOk, if◌then◌else◌};
ghost use Rattle.rex_syntax.specs.declared.version.Version.TheVariants.{One, Two};
ghost use Rattle.rex_syntax.specs.Versions.{has_old_form, has_version};
ghost use Rattle.rex_durable.specs.Spelling.{HasSpelling, record_bytes};
ghost use Rattle.rex_state.specs.Sound.{IsSound};
ghost use Rattle.rex_snapshot.specs.Allowed.{version_in};
ghost use Rattle.rex_snapshot.specs.Reading.{state_in};
ghost use Rattle.rex_snapshot.specs.Spelling.{IsLimited};
ghost use Rattle.rex_node.specs.declared.refusal.Refusal.TheVariants as why;
ghost use Rattle.rex_node.specs.Calls.{checkpoint_call, Refuses, refusal_of_checkpoint};
ghost use Rattle.rex_node.specs.Checkpointing.{IsCheckpoint, SavesOr, rebased};
ghost use Rattle.rex_cluster.specs.Records.{is_old};
ghost use Rattle.rex_node.specs.Parts.{CanFail, IsNode, here_of, whole};
ghost use Rattle.rex_node.specs.Performing.{PerformsAtOnce};

use crate::node::Node;
use crate::refusal::Refusal;
use crate::step::Step;
use rex_durable::Rec;
use rex_event::{Event, Kind};
use rex_list::List;
use rex_log::Past;
use rex_report::Effect;
use rex_snapshot::{SNAPSHOT_BYTES, encode, encode_old};
use rex_state::state::State;
use rex_syntax::checked::Checked;
use rex_syntax::version::Version;
use rex_traits::{KeepFault, Keeper};
use std::alloc::{AllocError, Global};

/// One effect.
pub(crate) fn only(alloc: Global, effect: Effect) -> Result<List<Effect>, AllocError>
    ensures { IfOk result (λ effects. effects ≡ effect ∷ []) }
{
    let _event: Option<(Event, Kind)> = None;
    let mut effects = List::new(alloc);
    effects.push(effect)?;
    Ok(effects)
}

/// Whether a version is the old one.
pub(crate) fn is_old(version: Version) -> bool
    ensures { result ≡ is_old version }
{
    match version {
        Version::One => true,
        Version::Two => false,
    }
}

// The snapshot of a state in a version.
fn snapshot_of(
    alloc: Global,
    svc: &Checked,
    version: Version,
    state: &State,
) -> Result<Vec<u8>, AllocError>
    requires has { has_version svc.now version ≡ true }
    requires sound { IsSound svc.now state.now }
    requires limited { IsLimited state.now }
    ensures spells { IfOk result (λ v. state_in svc.now v.items ≡ Ok state.now) }
    ensures version { IfOk result (λ v. version_in v.items ≡ version) }
    ensures short { IfOk result (λ v. length v.items ≤ SNAPSHOT_BYTES) }
{
    match version {
        Version::One => encode_old(alloc, svc, state),
        Version::Two => encode(alloc, svc, state),
    }
}

/// The record of a state after so many values, in a version.
pub(crate) fn record_of(
    alloc: Global,
    svc: &Checked,
    version: Version,
    deltas: u32,
    state: &State,
) -> Result<Rec, AllocError>
    requires has { has_version svc.now version ≡ true }
    requires sound { IsSound svc.now state.now }
    requires limited { IsLimited state.now }
    ensures { IfOk result (IsCheckpoint svc.now version deltas state.now) }
{
    let snapshot = List::from_vec(snapshot_of(alloc, svc, version, state)?);
    Ok(Rec::Checkpoint { deltas, snapshot })
}

// Why a node that is up, of these counts of values and events, writes down nothing.
fn due(replayed: u32, base: u32, live: u32) -> Option<Refusal>
    ensures { result ≡ (if replayed == base then Some why.Nothing else if nat_lt 0 live then Some (why.Live live) else None) }
{
    if replayed == base {
        return Some(Refusal::Nothing);
    }
    if 0 < live {
        return Some(Refusal::Live { events: live });
    }
    None
}

impl<K: Keeper> Node<K> {
    // Why the node writes down nothing.
    fn checkpoint_refusal<P: Past>(&self, svc: &Checked) -> Option<Refusal>
        requires { IsNode K.records svc.now P.past self.now }
        ensures { result ≡ refusal_of_checkpoint (here_of K.records svc.now P.past self.now) }
    {
        let _service = svc.declarations();
        if !self.up {
            return Some(Refusal::Down);
        }
        due(self.replayed, self.base, self.live())
    }

    // The last checkpoint is of what the node has replayed, which is this state, in a version.
    fn rebase<P: Past>(&mut self, version: Version, state: State)
        ensures { whole P.past self.new ≡ rebased version (whole P.past self.old) state }
    {
        self.base = self.replayed;
        self.old_base = is_old(version);
        self.start = state;
        self.ahead = None;
    }

    // Appends the record of the state that the node has replayed, in a version. Where the keeper fails the node is down, and its base is
    // that of the records that the keeper has then.
    fn save<P: Past>(&mut self, version: Version, rec: &Rec, state: State) -> Result<(), KeepFault>
        requires count { CanFail K.faults self.old }
        requires spelling { HasSpelling rec.now }
        ensures { SavesOr K.records K.faults K.append_gives version (whole P.past self.old) (whole P.past self.new) state (record_bytes rec.now) result }
    {
        let before = self.keeper.len();
        let written = rex_durable::append(self.alloc, &mut self.keeper, rec);
        match written {
            Ok(()) => self.rebase::<P>(version, state),
            Err(KeepFault::Failed) => {
                if self.keeper.len() > before {
                    self.base = self.replayed;
                }
                self.fall();
            }
            Err(KeepFault::OutOfMemory) => {}
        }
        written
    }

    /// Writes down the state that the node has replayed: with it the node starts again, and goes back to it where it doesn't lead
    /// any more. No event may be live.
    pub fn checkpoint<P: Past>(&mut self, svc: &Checked) -> Result<Step, Refusal>
        requires node { IsNode K.records svc.now P.past self.old }
        requires count { CanFail K.faults self.old }
        ensures { PerformsAtOnce K.records K.append_gives K.faults svc.now P.past (checkpoint_call Two svc.now self.old)
            (Refuses (refusal_of_checkpoint (here_of K.records svc.now P.past self.old))) self.old self.new result }
    {
        self.checkpoint_in::<P>(svc, Version::Two)
    }

    /// The same in the old version, for a service whose states have it.
    pub fn checkpoint_old<P: Past>(&mut self, svc: &Checked) -> Result<Step, Refusal>
        requires old { has_old_form svc.now ≡ true }
        requires node { IsNode K.records svc.now P.past self.old }
        requires count { CanFail K.faults self.old }
        ensures { PerformsAtOnce K.records K.append_gives K.faults svc.now P.past (checkpoint_call One svc.now self.old)
            (Refuses (refusal_of_checkpoint (here_of K.records svc.now P.past self.old))) self.old self.new result }
    {
        self.checkpoint_in::<P>(svc, Version::One)
    }

    /// The same in a version that the service's states have.
    pub fn checkpoint_in<P: Past>(
        &mut self,
        svc: &Checked,
        version: Version,
    ) -> Result<Step, Refusal>
        requires has { has_version svc.now version ≡ true }
        requires node { IsNode K.records svc.now P.past self.old }
        requires count { CanFail K.faults self.old }
        ensures { PerformsAtOnce K.records K.append_gives K.faults svc.now P.past (checkpoint_call version svc.now self.old)
            (Refuses (refusal_of_checkpoint (here_of K.records svc.now P.past self.old))) self.old self.new result }
    {
        let _service = svc.declarations();
        if let Some(refusal) = self.checkpoint_refusal::<P>(svc) {
            return Err(refusal);
        }
        let node = self.id;
        let deltas = self.replayed;
        let state = self.state().copy(self.alloc)?;
        let rec = record_of(self.alloc, svc, version, deltas, &state)?;
        let saved = only(self.alloc, Effect::Checkpointed { node, deltas })?;
        let down = only(self.alloc, Effect::Down { node })?;
        let sends = List::new(self.alloc);
        match self.save::<P>(version, &rec, state) {
            Ok(()) => Ok(Step {
                effects: saved,
                sends,
            }),
            Err(KeepFault::Failed) => Ok(Step {
                effects: down,
                sends,
            }),
            Err(KeepFault::OutOfMemory) => Err(Refusal::OutOfMemory),
        }
    }
}
