//! Crews of several sizes, which agree with one thread.

ghost use Rattle.std.specs.Prelude.{◌≡◌, ◌<◌, ◌≤◌, Some, IsSome, IfOk, IsTrue};
ghost use Rattle.rex_state.specs.Machine.{run};
ghost use Rattle.rex_state.specs.Sound.{IsSound};
ghost use Rattle.rex_state.specs.Counts.{AreCounted};
ghost use Rattle.rex_record.specs.Kept.{IsRecorder};

use crate::record::{queue, step};
use crate::replay::{replayed, replayed_by_call};
use crate::services::checked;
use rand_pcg::Lcg64Xsh32;
use rex_crew::Crew;
use rex_event::Event;
use rex_list::Arguments;
use rex_record::Recorder;
use rex_replay::OneThread;
use rex_state::state::State;
use rex_syntax::checked::Checked;
use rex_syntax::request::Request;
use rex_traits::{Gate, OpenGate};
use std::alloc::{AllocError, Global};
use std::process::Abort;
use std::test::*;
use std::thread::Threads;

/// Two lanes; `add x` adds x to the variable under the lock, and replies with the sum.
const ADDER: &str =
    "lanes 2\nlock L\nvar a on L = 0\nhandler add x\nacquire L\nset a = a + x\nlet r = a\nrelease L\nreply r\n";

/// Three lanes and a readers-writer lock; `get` reads the variable, and `put x` sets it.
const STORE: &str =
    "lanes 3\nrwlock M\nvar a on M = 4\nhandler get\nshare M\nlet r = a\nrelease M\nreply r\nhandler put x\nacquire M\nset a = x\nrelease M\nreply x\n";

/// The turns of the adder's lanes: lane 0 adds 5 and releases the lock before lane 1 takes it to add 7.
static ADDING: [u8; 5] = [0, 0, 1, 0, 1];

/// The turns of the store's lanes: two lanes read together, and the third takes the lock once both released it.
static STORING: [u8; 8] = [0, 0, 1, 1, 2, 0, 1, 2];

fn arguments_of(argument: Option<i64>) -> Arguments {
    let mut arguments = Arguments::new();
    if let Some(value) = argument {
        arguments.push(value);
    }
    arguments
}

/// The first request of a client, for a handler with at most one argument.
fn request(client: u16, handler: u8, argument: Option<i64>) -> Request {
    Request {
        client,
        sequence: 1,
        handler,
        arguments: arguments_of(argument),
    }
}

/// What lanes record that take their turns in this order, with these requests of clients 1, 2 and so on.
fn recorded(
    rt: &impl Abort,
    alloc: Global,
    svc: &Checked,
    requests: &[(u8, Option<i64>)],
    turns: &[u8],
) -> Recorder
    ensures { IsRecorder svc.now result.value }
{
    let state = State::start(alloc, svc).expect(rt, "memory");
    let mut recorder = Recorder::new(alloc, state).expect(rt, "memory");
    let mut client = 0;
    for (handler, argument) in requests {
        assert!(rt; client < 100);
        client += 1;
        queue(rt, &mut recorder, svc, request(client, *handler, *argument));
    }
    let mut dice = Lcg64Xsh32::new(42, 54);
    for lane in turns {
        let _turn = step(rt, &mut recorder, svc, &mut dice, *lane);
    }
    recorder
}

/// The state to which a recorder's trace runs, replayed by a crew of so many workers.
fn replayed_by_crew<R: Threads + Sync + Abort, G: Gate + Sync>(
    rt: &R,
    alloc: Global,
    svc: &Checked,
    workers: u8,
    gate: &G,
    recorder: &Recorder,
) -> State
    requires workers { (0 < workers) × (workers ≤ 16) }
    requires recorder { IsRecorder svc.now recorder.now.value }
{
    let crew = Crew::new(rt, workers, gate);
    let call = |alloc: Global, svc: &Checked, from: &State, events: &[Event]| -> Result<
        State,
        AllocError,
    >
        requires sound { IsSound svc.now from.now }
        requires runs { IsSome (run svc.now from.now events.now) }
        requires counted { AreCounted events.now }
        ensures runs { IfOk result (λ s. run svc.entry.now from.entry.now events.entry.now ≡ Some s) }
        ensures sound { IfOk result (λ s. IsSound svc.entry.now s) }
    { crew.replay(alloc, svc, from, events) };
    replayed_by_call(rt, alloc, svc, call, recorder)
}

/// Whether the variables, the clients' entries, and the counts and business of three lanes are the same.
fn are_alike(one: &State, other: &State) -> bool {
    one.variables() == other.variables()
        && one.entries() == other.entries()
        && (0..3).all(|lane| one.done(lane) == other.done(lane))
        && (0..3).all(|lane| one.frame(lane).is_some() == other.frame(lane).is_some())
}

/// Compares crews of several sizes with one thread, which ends with this value of the variable.
fn crews_agree<R: Threads + Sync + Abort>(
    rt: &R,
    alloc: Global,
    svc: &Checked,
    recorder: &Recorder,
    value: i64,
)
    requires { IsRecorder svc.now recorder.now.value }
{
    let state = replayed(rt, alloc, svc, &mut OneThread, recorder);
    assert_eq!(rt; state.variables(), [value].as_slice());
    for workers in &[1, 2, 8, 16] {
        let other = replayed_by_crew(rt, alloc, svc, *workers, &OpenGate, recorder);
        assert!(rt; are_alike(&state, &other), "{workers} workers");
    }
}

#[test]
fn crews_of_all_sizes_agree(rt: HostRuntime) {
    let alloc = rt.alloc();
    let svc = checked(&rt, alloc, ADDER);
    let requests = [(0, Some(5)), (0, Some(7))];
    let adding = recorded(&rt, alloc, &svc, &requests, &ADDING);
    crews_agree(&rt, alloc, &svc, &adding, 12);
    let svc = checked(&rt, alloc, STORE);
    let requests = [(0, None), (0, None), (1, Some(9))];
    let storing = recorded(&rt, alloc, &svc, &requests, &STORING);
    crews_agree(&rt, alloc, &svc, &storing, 9);
}
