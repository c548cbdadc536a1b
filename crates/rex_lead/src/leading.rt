//! A world that is led through a history.

ghost use Rattle.std.specs.Prelude.{IsSome, Some, ◌≡◌, ◌<◌, ◌≤◌, ◌+◌, ◌*◌, ◌^◌, ◌++◌, length, IfOk, OnOk};
ghost use Rattle.std.specs.List.{All};
ghost use Rattle.rex_delta.specs.Spelling.{HasTypedKind};
ghost use Rattle.rex_state.specs.Start.{start_of};
ghost use Rattle.rex_state.specs.Machine.{run};
ghost use Rattle.rex_state.specs.Sound.{IsSound};
ghost use Rattle.rex_state.specs.Counts.{AreCounted};
ghost use Rattle.rex_schedule.specs.Fits.{ScenarioFits};
ghost use Rattle.rex_cluster.specs.World.{beginning};
ghost use Rattle.rex_cluster.specs.Takes.{BeginsInRange};
ghost use Rattle.rex_steady.specs.Schedule.{agreement, agreements, election, live_doings, replays, takes};
ghost use Rattle.rex_world.specs.World.{nodes_of, world_of};
ghost use Rattle.rex_world.specs.Kept.{IsRunning};
ghost use Rattle.rex_lead.specs.Doing.{Did, IsElected, IsNext};
ghost use Rattle.rex_lead.specs.Lead.{CanBeLed, blocks_of, live_text, world_text};

use crate::doing::{ask_others, do_line, hand_over};
use crate::typed::look_at_all;
use rex_event::{DELTA_EVENTS, Event, HISTORY_EVENTS};
use rex_replay::{OneThread, Replayer};
use rex_schedule::{Scenario, ScheduleLine};
use rex_state::laws::runs_count_on;
use rex_state::state::State;
use rex_steady::laws::leaders_are_steady;
use rex_syntax::checked::Checked;
use rex_threads::both;
use rex_traits::MemKeeper;
use rex_world::World;
use std::alloc::{AllocError, Global};
use std::thread::Threads;

// Node 1 asks to lead, and the answers of all others come back to it.
fn elect(world: &mut World<MemKeeper>, svc: &Checked) -> Result<(), AllocError>
    requires running { IsRunning svc.now world.old }
    requires there { 1 ≤ nodes_of world.old }
    requires count { world.old.done + 3 < 2 ^ 32 }
    ensures did { OnOk result (Did svc.now world.old world.new election) }
    ensures done { OnOk result (world.new.done ≡ world.old.done + 3) }
{
    do_line(world, svc, &mut OneThread, &ScheduleLine::Elect { node: 1 })?;
    ask_others(world, svc)
}

// Node 1 cuts its live events; all others are asked, answer, and are told.
fn agree(world: &mut World<MemKeeper>, svc: &Checked) -> Result<(), AllocError>
    requires running { IsRunning svc.now world.old }
    requires there { 1 ≤ nodes_of world.old }
    requires count { world.old.done + 4 < 2 ^ 32 }
    ensures did { OnOk result (Did svc.now world.old world.new agreement) }
    ensures done { OnOk result (world.new.done ≡ world.old.done + 4) }
{
    do_line(world, svc, &mut OneThread, &ScheduleLine::Cut { node: 1 })?;
    ask_others(world, svc)?;
    do_line(world, svc, &mut OneThread, &ScheduleLine::Flush)
}

// Node 1 is handed a block, which leads to a state, and leads it to agreement.
fn agree_on(
    world: &mut World<MemKeeper>,
    svc: &Checked,
    block: &[Event],
    state: State,
) -> Result<(), AllocError>
    requires running { IsRunning svc.now world.old }
    requires there { 1 ≤ nodes_of world.old }
    requires begins { All BeginsInRange block.now }
    requires next { IsNext svc.now world.old block.now state }
    requires count { world.old.done + 4 < 2 ^ 32 }
    ensures did { OnOk result (Did svc.now world.old world.new (takes block.now ++ agreement)) }
    ensures done { OnOk result (world.new.done ≡ world.old.done + 4) }
{
    hand_over(world, svc, block, state)?;
    agree(world, svc)
}

// The same in a world that is given away and comes back, as a thread has it.
fn agreed_on(
    mut world: World<MemKeeper>,
    svc: &Checked,
    block: &[Event],
    state: State,
) -> (World<MemKeeper>, Result<(), AllocError>)
    requires running { IsRunning svc.now world }
    requires there { 1 ≤ nodes_of world }
    requires begins { All BeginsInRange block.now }
    requires next { IsNext svc.now world block.now state }
    requires count { world.done + 4 < 2 ^ 32 }
    ensures did { OnOk result.1 (Did svc.now world result.0 (takes block.now ++ agreement)) }
    ensures done { OnOk result.1 (result.0.done ≡ world.done + 4) }
{
    let agreed = agree_on(&mut world, svc, block, state);
    (world, agreed)
}

// The state to which a block leads, by a replayer that is given away and comes back, as a thread has it.
fn replayed<R: Replayer>(
    mut replayer: R,
    alloc: Global,
    svc: &Checked,
    from: State,
    block: &[Event],
) -> (R, Result<State, AllocError>)
    requires sound { IsSound svc.now from }
    requires runs { IsSome (run svc.now from block.now) }
    requires counted { AreCounted block.now }
    ensures runs { IfOk result.1 (λ s. run svc.now from block.now ≡ Some s) }
    ensures sound { IfOk result.1 (λ s. IsSound svc.now s) }
{
    let found = replayer.replay(alloc, svc, &from, block);
    (replayer, found)
}

/// A world on its way, the replayer, and the state to which the block leads on which node 1 is to agree next.
#[derive(Drop)]
struct Leading<R: Replayer + Drop> {
    world: World<MemKeeper>,
    replayer: R,
    state: State,
}

// Node 1 leads a block to agreement, while the replayer finds to which state the next one leads: each of the two on a thread.
fn agree_beside<T: Threads + Sync, R: Replayer + Send + Drop>(
    rt: &T,
    alloc: Global,
    svc: &Checked,
    leading: Leading<R>,
    block: &[Event],
    next: &[Event],
) -> Result<Leading<R>, AllocError>
    requires running { IsRunning svc.now leading.world }
    requires there { 1 ≤ nodes_of leading.world }
    requires begins { All BeginsInRange block.now }
    requires next { IsNext svc.now leading.world block.now leading.state }
    requires count { leading.world.done + 4 < 2 ^ 32 }
    requires sound { IsSound svc.now leading.state }
    requires runs { IsSome (run svc.now leading.state next.now) }
    requires counted { AreCounted next.now }
    ensures did { IfOk result (λ l. Did svc.now leading.world l.world (takes block.now ++ agreement)) }
    ensures done { IfOk result (λ l. l.world.done ≡ leading.world.done + 4) }
    ensures runs { IfOk result (λ l. run svc.now leading.state next.now ≡ Some l.state) }
    ensures sound { IfOk result (λ l. IsSound svc.now l.state) }
{
    let Leading {
        world,
        replayer,
        state,
    } = leading;
    let from = state.copy(alloc)?;
    let (ahead, behind) = both(
        rt,
        || -> (R, Result<State, AllocError>)
            requires sound { IsSound svc.now from }
            requires runs { IsSome (run svc.now from next.now) }
            requires counted { AreCounted next.now }
            ensures runs { IfOk result.1 (λ s. run svc.entry.now from next.entry.now ≡ Some s) }
            ensures sound { IfOk result.1 (λ s. IsSound svc.entry.now s) }
        { replayed(replayer, alloc, svc, from, next) },
        || -> (World<MemKeeper>, Result<(), AllocError>)
            requires running { IsRunning svc.now world }
            requires there { 1 ≤ nodes_of world }
            requires begins { All BeginsInRange block.now }
            requires next { IsNext svc.now world block.now state }
            requires count { world.done + 4 < 2 ^ 32 }
            ensures did { OnOk result.1 (Did svc.entry.now world result.0 (takes block.entry.now ++ agreement)) }
            ensures done { OnOk result.1 (result.0.done ≡ world.done + 4) }
        { agreed_on(world, svc, block, state) },
    );
    let (replayer, found) = ahead;
    let (world, agreed) = behind;
    agreed?;
    Ok(Leading {
        world,
        replayer,
        state: found?,
    })
}

// What leads on from the start once the state is found to which the first block leads.
fn begin<R: Replayer + Drop>(
    alloc: Global,
    svc: &Checked,
    world: World<MemKeeper>,
    replayer: R,
    first: &[Event],
) -> Result<Leading<R>, AllocError>
    requires runs { IsSome (run svc.now (start_of svc.now) first.now) }
    requires counted { AreCounted first.now }
    ensures world { IfOk result (λ l. l.world ≡ world) }
    ensures runs { IfOk result (λ l. run svc.now (start_of svc.now) first.now ≡ Some l.state) }
    ensures sound { IfOk result (λ l. IsSound svc.now l.state) }
{
    let start = State::start(alloc, svc)?;
    let (replayer, found) = replayed(replayer, alloc, svc, start, first);
    Ok(Leading {
        world,
        replayer,
        state: found?,
    })
}

// The blocks of the history are handed in and agreed, one after the other. By what an undisturbed leader comes to, each of them leads
// on from the state that node 1 executes then.
fn agree_on_all<T: Threads + Sync, R: Replayer + Send + Drop>(
    rt: &T,
    alloc: Global,
    svc: &Checked,
    world: World<MemKeeper>,
    replayer: R,
    history: &[Event],
) -> Result<(World<MemKeeper>, R), AllocError>
    requires running { IsRunning svc.now world }
    requires there { 1 ≤ nodes_of world }
    requires elected { IsElected svc.now world }
    requires led { CanBeLed svc.now history.now }
    requires count { world.done + 4 * length (blocks_of history.now) < 2 ^ 32 }
    ensures did { IfOk result (λ r. Did svc.now world r.0 (agreements (blocks_of history.now))) }
    ensures done { IfOk result (λ r. r.0.done ≡ world.done + 4 * length (blocks_of history.now)) }
{
    leaders_are_steady();
    runs_count_on();
    let mut blocks = history.chunks(DELTA_EVENTS);
    let Some(first) = blocks.next() else {
        return Ok((world, replayer));
    };
    let mut leading = begin(alloc, svc, world, replayer, first)?;
    let mut block = first;
    for next in blocks {
        leading = agree_beside(rt, alloc, svc, leading, block, next)?;
        block = next;
    }
    let Leading {
        mut world,
        replayer,
        state,
    } = leading;
    agree_on(&mut world, svc, block, state)?;
    Ok((world, replayer))
}

// The nodes from 2 on replay what they know.
fn replay<R: Replayer>(
    world: &mut World<MemKeeper>,
    svc: &Checked,
    replayer: &mut R,
    nodes: u8,
) -> Result<(), AllocError>
    requires running { IsRunning svc.now world.old }
    requires some { 1 ≤ nodes }
    requires there { nodes ≤ nodes_of world.old }
    requires count { world.old.done + nodes < 2 ^ 32 }
    ensures did { OnOk result (Did svc.now world.old world.new (replays nodes)) }
{
    for others in 1..nodes {
        do_line(
            world,
            svc,
            replayer,
            &ScheduleLine::Replay { node: others + 1 },
        )?;
    }
    Ok(())
}

// Node 1 is elected, leads the history to agreement, and then the others replay it.
fn lead_world<T: Threads + Sync, R: Replayer + Send + Drop>(
    rt: &T,
    alloc: Global,
    svc: &Checked,
    mut world: World<MemKeeper>,
    replayer: R,
    nodes: u8,
    history: &[Event],
) -> Result<World<MemKeeper>, AllocError>
    requires running { IsRunning svc.now world }
    requires some { 1 ≤ nodes }
    requires nodes { nodes ≡ nodes_of world }
    requires fresh { world_of svc.now world ≡ beginning nodes }
    requires led { CanBeLed svc.now history.now }
    ensures { IfOk result (λ w. Did svc.now world w (live_doings nodes (blocks_of history.now))) }
{
    elect(&mut world, svc)?;
    let agreed = agree_on_all(rt, alloc, svc, world, replayer, history)?;
    let (mut world, mut replayer) = agreed;
    replay(&mut world, svc, &mut replayer, nodes)?;
    Ok(world)
}

// What the nodes of a world agreed on, then their end lines.
fn text_of(alloc: Global, svc: &Checked, world: &World<MemKeeper>) -> Result<Vec<u8>, AllocError>
    requires { IsRunning svc.now world.now }
    ensures { IfOk result (λ text. text.items ≡ world_text svc.now (world_of svc.now world.now)) }
{
    let mut text = Vec::new(alloc);
    world.push_trace(svc, &mut text)?;
    world.push_ends(svc, &mut text)?;
    Ok(text)
}

/// Leads a history that runs from the service's start to agreement among the nodes of a scenario, whose schedule isn't done: node 1 is
/// elected, is handed the history in blocks of `DELTA_EVENTS` events and cuts each, and the others replay what was agreed. The answer is the
/// agreed trace and the end lines. To which states the events lead is found by the replayer, for node 1 on a thread of its own, one
/// block ahead of the one that is being agreed on.
pub fn lead<T: Threads + Sync, R: Replayer + Send + Drop>(
    rt: &T,
    alloc: Global,
    svc: &Checked,
    scenario: &Scenario,
    replayer: R,
    history: &[Event],
) -> Result<Vec<u8>, AllocError>
    requires fits { ScenarioFits svc.now scenario.now }
    requires few { length history.now ≤ HISTORY_EVENTS }
    requires begins { All BeginsInRange history.now }
    requires runs { IsSome (run svc.now (start_of svc.now) history.now) }
    ensures text { IfOk result (λ text. text.items ≡ live_text svc.now scenario.now (blocks_of history.now)) }
    ensures typed { IfOk result (λ text. All HasTypedKind history.now) }
{
    look_at_all(history);
    let world = World::new(alloc, svc, scenario)?;
    let world = lead_world(rt, alloc, svc, world, replayer, scenario.nodes, history)?;
    text_of(alloc, svc, &world)
}
