//! What a run comes to, in numbers.

ghost use Rattle.std.specs.Prelude.{◌≡◌, IfOk};
ghost use Rattle.rex_schedule.specs.Fits.{ScenarioFits};
ghost use Rattle.rex_world.specs.Summaries as spec;

use crate::world::World;
use rex_list::List;
use rex_node::replay_values;
use rex_replay::Replayer;
use rex_safety::laws::kept_values_fit;
use rex_schedule::Scenario;
use rex_state::state::State;
use rex_syntax::checked::Checked;
use std::alloc::{AllocError, Global};

/// What a run came to.
#[derive(Drop)]
pub struct Summary {
    /// How many lines the schedule has.
    pub lines: u64,
    /// How many messages were sent.
    pub messages: u64,
    /// How many values the nodes agreed on.
    pub known: u64,
    /// How many replies were released, repeated ones too.
    pub released: u64,
    /// The values of the variables after the agreed trace, in order of declaration.
    pub variables: List<i64>,
}

// A list of these values.
fn listed(alloc: Global, values: &[i64]) -> Result<List<i64>, AllocError>
    ensures { IfOk result (λ list. list ≡ values.now) }
{
    Ok(List::from_vec(values.to_vec(alloc)?))
}

/// What the run of a scenario comes to.
pub fn summarize<R: Replayer>(
    alloc: Global,
    svc: &Checked,
    replayer: &mut R,
    scenario: &Scenario,
) -> Result<Summary, AllocError>
    requires fits { ScenarioFits svc.now scenario.now }
    ensures is { IfOk result (λ summary. summary ≡ spec.summary_of svc.now scenario.now) }
{
    kept_values_fit();
    let _service = svc.declarations();
    let mut world = World::new(alloc, svc, scenario)?;
    let releases = world.follow(svc, replayer, scenario)?;
    let values = world.agreed();
    let start = State::start(alloc, svc)?;
    let last = replay_values(alloc, svc, replayer, &start, values)?;
    let variables = listed(alloc, last.variables())?;
    Ok(Summary {
        lines: scenario.schedule.len() as u64,
        messages: world.net.count(),
        known: values.len() as u64,
        released: releases.len() as u64,
        variables,
    })
}
