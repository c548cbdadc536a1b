//! A run whose report isn't written.

ghost use Rattle.std.specs.Prelude.{◌≡◌, ◌++◌, filter, IfOk, OnOk};
ghost use Rattle.rex_cluster.specs.World.{after_lines};
ghost use Rattle.rex_world.specs.Kept.{CanRun, IsRunning};
ghost use Rattle.rex_world.specs.Summaries as spec;
ghost use Rattle.rex_world.specs.World.{world_of};

use crate::world::World;
use rex_event::{Event, Kind};
use rex_replay::Replayer;
use rex_report::Effect;
use rex_schedule::Scenario;
use rex_syntax::checked::Checked;
use rex_traits::Store;
use std::alloc::AllocError;

// Whether an effect is the release of a reply.
fn is_release(effect: &Effect) -> bool
    ensures { result ≡ spec.is_release effect.now }
{
    match effect {
        Effect::Released { .. } => true,
        _ => false,
    }
}

// Appends the releases among effects.
fn push_releases(releases: &mut Vec<Effect>, effects: &[Effect]) -> Result<(), AllocError>
    ensures { OnOk result (releases.new.items ≡ releases.old.items ++ filter spec.is_release effects.now) }
{
    let _event: Option<(Event, Kind)> = None;
    for effect in effects {
        if is_release(effect) {
            releases.push(*effect)?;
        }
    }
    Ok(())
}

impl<S: Store> World<S> {
    /// Does the lines of a scenario's schedule from the world as it stands, and answers the releases that they report.
    pub(crate) fn follow<R: Replayer>(
        &mut self,
        svc: &Checked,
        replayer: &mut R,
        scenario: &Scenario,
    ) -> Result<Vec<Effect>, AllocError>
        requires { CanRun svc.now scenario.now self.old }
        ensures world { OnOk result (world_of svc.now self.new ≡ after_lines svc.now scenario.now.requests scenario.now.seed scenario.now.nodes
            (world_of svc.now self.old) scenario.now.schedule) }
        ensures releases { IfOk result (λ es. es.items ≡ spec.releases_from svc.now scenario.now (world_of svc.now self.old) scenario.now.schedule) }
        ensures running { OnOk result (IsRunning svc.now self.new) }
    {
        let mut releases = Vec::new(self.alloc);
        for line in scenario.schedule.as_slice() {
            let effects = self.step(svc, replayer, line)?;
            push_releases(&mut releases, effects.as_slice())?;
        }
        Ok(releases)
    }
}
