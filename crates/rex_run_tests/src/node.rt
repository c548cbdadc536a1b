//! A node whose keeper fails, and one that writes down the state that it has replayed.

ghost use Rattle.std.specs.Prelude.{◌≡◌, ◌<◌, ◌-◌, ◌^◌, []};
ghost use Rattle.rex_event.specs.declared.event.Kind.TheVariants.{Begin};
ghost use Rattle.rex_cluster.specs.Takes.{BeginsInRange};
ghost use Rattle.rex_node.specs.Parts.{IsNode};
ghost use Rattle.rex_node.specs.Restarting.{CameUp};
ghost use Rattle.rex_traits.specs.Keeping.{armed_to, unused_keeper};

use crate::services::checked;
use rex_event::{Event, Kind};
use rex_list::Arguments;
use rex_node::{Node, Refusal, Step};
use rex_replay::OneThread;
use rex_report::Effect;
use rex_state::state::State;
use rex_syntax::checked::Checked;
use rex_syntax::version::has_old_form;
use rex_traits::{Fate, Keeper, MemKeeper, SureKeeper};
use std::alloc::{AllocGlobal, Global};
use std::marker::Brand;
use std::process::Abort;
use std::test::*;

/// One lane, which replies at once.
const SERVICE: &str = "lanes 1\nhandler look\nreply 1\n";

/// A keeper whose first append fails.
fn failing(alloc: Global, fate: Fate) -> MemKeeper
    ensures { result ≡ armed_to fate unused_keeper }
{
    let mut keeper = MemKeeper::new(alloc);
    keeper.arm(fate);
    keeper
}

/// A node of three over a keeper whose first append fails.
fn started(rt: &impl Abort, alloc: Global, svc: &Checked, fate: Fate) -> Node<MemKeeper>
    ensures up { CameUp (λ k. k.records) svc.now [] 1 3 0 (armed_to fate unused_keeper) result }
    ensures node { IsNode (λ k. k.records) svc.now [] result }
{
    match Node::restart::<Brand>(alloc, 1, 3, 0, svc, failing(alloc, fate)) {
        Ok(node) => node,
        Err(_) => panic!(rt; "no node"),
    }
}

/// Elects the node, whose keeper fails then: it is down, and sends nothing. The keeper comes back.
fn falls(rt: &impl Abort, alloc: Global, svc: &Checked, fate: Fate) -> MemKeeper {
    let mut node = started(rt, alloc, svc, fate);
    let step = node
        .elect::<Brand, OneThread>(svc, &mut OneThread)
        .ok()
        .expect(rt, "memory");
    assert!(rt; step.sends.is_empty() && step.effects.len() == 1);
    let is_down = step.effects.as_slice()[0] == Effect::Down { node: 1 };
    assert!(rt; is_down && !node.is_up());
    node.stop()
}

#[test]
fn a_node_falls_where_its_keeper_fails(rt: HostRuntime) {
    let svc = checked(&rt, rt.alloc(), SERVICE);
    let kept = falls(&rt, rt.alloc(), &svc, Fate::Kept);
    assert_eq!(rt; kept.len(), 1);
    let lost = falls(&rt, rt.alloc(), &svc, Fate::Lost);
    assert_eq!(rt; lost.len(), 0);
}

/// The first event that the lane can make: it begins the first request of a client.
pub(crate) fn first_begin() -> Event
    ensures is { result ≡ record { lane = 0; index = 0; kind = Begin 1 1 0 [] } }
    ensures range { BeginsInRange result }
{
    Event {
        lane: 0,
        index: 0,
        kind: Kind::Begin {
            client: 1,
            sequence: 1,
            handler: 0,
            arguments: Arguments::new(),
        },
    }
}

/// A record: the value of instance 1 is known, of 19 bytes. It is a delta of version 1: one lane, which has done no event before, and
/// this one event. Lane 1 begins request 1 of client 1 by handler 1, without arguments and causes.
const KNOWN: [u8; 28] = [
    3, 0, 0, 0, 1, 0, 0, 0, 19, 1, 1, 0, 0, 0, 0, 0, 1, 1, 1, 0, 1, 0, 0, 0, 1, 1, 0, 0,
];

/// A node alone over a keeper with this record.
fn knowing(rt: &impl Abort, alloc: Global, svc: &Checked) -> Node<SureKeeper>
    ensures { IsNode (λ k. k) svc.now [] result }
{
    let state = State::start(alloc, svc).expect(rt, "memory");
    assert!(rt; svc.declarations().lanes == 1);
    assert!(rt; state.done(0) == 0);
    assert!(rt; state.enabled(svc, &first_begin()));
    let mut keeper = SureKeeper::new(alloc);
    keeper.append(&KNOWN).ok().expect(rt, "memory");
    match Node::restart::<Brand>(alloc, 1, 1, 0, svc, keeper) {
        Ok(node) => node,
        Err(_) => panic!(rt; "no node"),
    }
}

/// The same, and it has replayed what it knows.
fn replayed(rt: &impl Abort, alloc: Global, svc: &Checked) -> Node<SureKeeper>
    ensures { IsNode (λ k. k) svc.now [] result }
{
    let mut node = knowing(rt, alloc, svc);
    let _step = node
        .replay::<Brand, OneThread>(svc, &mut OneThread)
        .ok()
        .expect(rt, "memory");
    node
}

/// Whether a step says that the node has written down the state after the value.
fn is_saved(step: Result<Step, Refusal>) -> bool {
    match step {
        Ok(step) => {
            let saved = [Effect::Checkpointed { node: 1, deltas: 1 }];
            step.sends.is_empty() && step.effects.as_slice() == saved.as_slice()
        }
        Err(_) => false,
    }
}

fn writes_its_state(rt: &impl Abort, alloc: Global, svc: &Checked) {
    let mut node = replayed(rt, alloc, svc);
    let saved = is_saved(node.checkpoint::<Brand>(svc));
    assert!(rt; saved && !node.has_old_base());
}

fn writes_its_state_in_the_old_version(rt: &impl Abort, alloc: Global, svc: &Checked) {
    let mut node = replayed(rt, alloc, svc);
    assert!(rt; has_old_form(svc.declarations()));
    let saved = is_saved(node.checkpoint_old::<Brand>(svc));
    assert!(rt; saved && node.has_old_base());
}

#[test]
fn a_node_writes_down_what_it_has_replayed(rt: HostRuntime) {
    let svc = checked(&rt, rt.alloc(), SERVICE);
    writes_its_state(&rt, rt.alloc(), &svc);
    writes_its_state_in_the_old_version(&rt, rt.alloc(), &svc);
}
