//! What a world does on the way: schedule lines, and events that it is handed.

ghost use Rattle.std.specs.Prelude.{◌≡◌, ◌<◌, ◌≤◌, ◌+◌, ◌^◌, [], ◌∷◌, length, OnOk};
ghost use Rattle.std.specs.List.{All};
ghost use Rattle.rex_syntax.specs.Versions.{has_old_form};
ghost use Rattle.rex_schedule.specs.Fits.{LineFits, FormFits};
ghost use Rattle.rex_schedule.specs.declared.scenario.ScheduleLine.TheVariants.{Flush};
ghost use Rattle.rex_cluster.specs.Takes.{BeginsInRange};
ghost use Rattle.rex_cluster.specs.Takes.Doing.{Does, Takes};
ghost use Rattle.rex_steady.specs.Schedule.{takes};
ghost use Rattle.rex_world.specs.World.{nodes_of};
ghost use Rattle.rex_world.specs.Kept.{IsRunning};
ghost use Rattle.rex_lead.specs.Doing.{Did, IsNext};

use rex_event::Event;
use rex_replay::{OneThread, Replayer};
use rex_schedule::ScheduleLine;
use rex_state::state::State;
use rex_syntax::checked::Checked;
use rex_traits::MemKeeper;
use rex_world::World;
use std::alloc::AllocError;

/// Does a schedule line, and leaves aside what it reports.
pub(crate) fn do_line<R: Replayer>(
    world: &mut World<MemKeeper>,
    svc: &Checked,
    replayer: &mut R,
    line: &ScheduleLine,
) -> Result<(), AllocError>
    requires running { IsRunning svc.now world.old }
    requires fits { LineFits (nodes_of world.old) (length world.old.requests) svc.now.lanes line.now }
    requires form { FormFits (has_old_form svc.now) line.now }
    requires count { world.old.done + 1 < 2 ^ 32 }
    ensures did { OnOk result (Did svc.now world.old world.new (Does line.now ∷ [])) }
    ensures done { OnOk result (world.new.done ≡ world.old.done + 1) }
{
    world.step(svc, replayer, line)?;
    Ok(())
}

/// Hands node 1 a block of events, which lead on from the state that it executes to this one.
pub(crate) fn hand_over(
    world: &mut World<MemKeeper>,
    svc: &Checked,
    block: &[Event],
    state: State,
) -> Result<(), AllocError>
    requires running { IsRunning svc.now world.old }
    requires there { 1 ≤ nodes_of world.old }
    requires begins { All BeginsInRange block.now }
    requires next { IsNext svc.now world.old block.now state }
    ensures did { OnOk result (Did svc.now world.old world.new (takes block.now)) }
    ensures done { OnOk result (world.new.done ≡ world.old.done) }
{
    // What a node that isn't active is handed is left out, also by the model.
    let _taken = world.take_block(svc, 1, block, state);
    if world.broken() {
        return Err(AllocError);
    }
    Ok(())
}

/// What node 1 asks is handed to all others, and then what they answer to node 1.
pub(crate) fn ask_others(world: &mut World<MemKeeper>, svc: &Checked) -> Result<(), AllocError>
    requires running { IsRunning svc.now world.old }
    requires count { world.old.done + 2 < 2 ^ 32 }
    ensures did { OnOk result (Did svc.now world.old world.new (Does Flush ∷ Does Flush ∷ [])) }
    ensures done { OnOk result (world.new.done ≡ world.old.done + 2) }
{
    do_line(world, svc, &mut OneThread, &ScheduleLine::Flush)?;
    do_line(world, svc, &mut OneThread, &ScheduleLine::Flush)
}
