//! The agreed trace of a scenario.

ghost use Rattle.std.specs.Prelude.{◌≡◌, ◌++◌, IfOk, OnOk};
ghost use Rattle.rex_schedule.specs.Fits.{ScenarioFits};
ghost use Rattle.rex_steps.specs.Tracing.{values_text};
ghost use Rattle.rex_cluster.specs.Agreed.{agreed};
ghost use Rattle.rex_world.specs.Kept.{IsRunning};
ghost use Rattle.rex_world.specs.Tracing.{trace_text};
ghost use Rattle.rex_world.specs.World.{world_of};

use crate::world::World;
use rex_replay::Replayer;
use rex_schedule::Scenario;
use rex_steps::push_values;
use rex_syntax::checked::Checked;
use rex_traits::Store;
use std::alloc::{AllocError, Global};

impl<S: Store> World<S> {
    /// Appends the agreed trace: for each value that the nodes agreed on its delta, with its causes.
    pub fn push_trace(&self, svc: &Checked, out: &mut Vec<u8>) -> Result<(), AllocError>
        requires { IsRunning svc.now self.now }
        ensures { OnOk result (out.new.items ≡ out.old.items ++ values_text svc.now 1 (agreed (world_of svc.now self.now))) }
    {
        push_values(out, self.alloc, svc.declarations(), self.agreed())
    }
}

/// The agreed trace after the run of a scenario: for each agreed value its delta, with its causes.
pub fn trace<R: Replayer>(
    alloc: Global,
    svc: &Checked,
    replayer: &mut R,
    scenario: &Scenario,
) -> Result<Vec<u8>, AllocError>
    requires fits { ScenarioFits svc.now scenario.now }
    ensures { IfOk result (λ text. text.items ≡ trace_text svc.now scenario.now) }
{
    let _service = svc.declarations();
    let mut world = World::new(alloc, svc, scenario)?;
    world.follow(svc, replayer, scenario)?;
    let mut text = Vec::new(alloc);
    world.push_trace(svc, &mut text)?;
    Ok(text)
}
