//! A world whose leader comes to the last instance, and one whose leader is handed an event.

ghost use Rattle.rex_schedule.specs.Fits.{ScenarioFits};
ghost use Rattle.rex_world.specs.Kept.{IsOf, IsRunning};

use crate::node::first_begin;
use rex_lockset::check;
use rex_record::Turn;
use rex_replay::OneThread;
use rex_scenario::{Scenario, read_scenario};
use rex_syntax::checked::Checked;
use rex_traits::{MemKeeper, MemSink};
use rex_world::World;
use std::alloc::{AllocError, Global};
use std::process::Abort;
use std::test::*;

/// One lane and two requests, of which each reads the clock 48,000 times.
const HEAD: &[u8] = b"%nodes 1
%service
lanes 1
handler h
repeat 1000
repeat 48
clock t
endrepeat
endrepeat
reply 0
%requests
1 1 h
2 1 h
%schedule
elect 1
submit 1 1
submit 1 2
";

/// How the report ends where the schedule was done twice. The last instance is 65,535, and there are 65,536 cuts.
const END: &[u8] = b"131076 node 1 proposes 65535 events 1
131076 node 1 known 65535
131077 lane 1 65535 clock 131076
131078 ended
end node 1 active promised 33 known 65535 live 1
";

/// The scenario, with 32,768 cuts of one event each.
fn cuts(alloc: Global) -> Result<Vec<u8>, AllocError> {
    let mut text = HEAD.to_vec(alloc)?;
    for _ in 0..32_768 {
        text.extend_from_slice(b"lane 1 1\ncut 1\n")?;
    }
    Ok(text)
}

/// Does the schedule of a scenario, and writes the report.
fn run(
    rt: &impl Abort,
    world: &mut World<MemKeeper>,
    svc: &Checked,
    scenario: &Scenario,
    sink: &mut MemSink,
)
    requires fits { ScenarioFits svc.now scenario.now }
    requires running { IsRunning svc.now world.old }
    requires of { IsOf scenario.now world.old }
    ensures running { IsRunning svc.now world.new }
    ensures of { IsOf scenario.now world.new }
{
    assert!(rt; world.done() < 100_000);
    match world.run(svc, &mut OneThread, scenario, sink) {
        Ok(()) => {}
        Err(_) => panic!(rt; "no report"),
    }
}

/// The end of the report where the schedule is done twice.
fn twice(rt: &impl Abort, alloc: Global, svc: &Checked, scenario: &Scenario) -> MemSink
    requires fits { ScenarioFits svc.now scenario.now }
{
    let none = Vec::new(alloc);
    let mut sink = MemSink::new(alloc, none, 65_536);
    let mut world = World::new(alloc, svc, scenario).expect(rt, "memory");
    run(rt, &mut world, svc, scenario, &mut sink);
    run(rt, &mut world, svc, scenario, &mut sink);
    sink
}

#[test]
fn no_instance_comes_after_the_last(rt: HostRuntime) {
    let text = cuts(rt.alloc()).expect(&rt, "memory");
    assert!(rt; text.len() < 1_000_000);
    match read_scenario(rt.alloc(), &text) {
        Ok((scenario, service)) => {
            let svc = check(rt.alloc(), service).ok().expect(&rt, "a service");
            let sink = twice(&rt, rt.alloc(), &svc, &scenario);
            assert!(rt; sink.held().ends_with(END));
        }
        Err(_) => panic!(rt; "no scenario"),
    }
}

/// A node alone, which leads; no line hands it a request.
const ALONE: &[u8] = b"%nodes 1
%service
lanes 1
handler look
reply 1
%requests
%schedule
elect 1
";

/// Does the schedule, and hands the node an event, which it takes.
fn takes_an_event(rt: &impl Abort, alloc: Global, svc: &Checked, scenario: &Scenario)
    requires fits { ScenarioFits svc.now scenario.now }
{
    let none = Vec::new(alloc);
    let mut sink = MemSink::new(alloc, none, 65_536);
    let mut world = World::new(alloc, svc, scenario).expect(rt, "memory");
    run(rt, &mut world, svc, scenario, &mut sink);
    assert!(rt; scenario.nodes == 1);
    let event = first_begin();
    let taken = world.take_event(svc, 1, &event).ok();
    assert!(rt; taken == Some(Turn::Done(event)));
}

#[test]
fn an_active_node_takes_an_event(rt: HostRuntime) {
    match read_scenario(rt.alloc(), ALONE) {
        Ok((scenario, service)) => {
            let svc = check(rt.alloc(), service).ok().expect(&rt, "a service");
            takes_an_event(&rt, rt.alloc(), &svc, &scenario);
        }
        Err(_) => panic!(rt; "no scenario"),
    }
}
