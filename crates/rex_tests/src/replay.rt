//! A recorder's trace, replayed on one thread and by a call.

ghost use Rattle.std.specs.Prelude.{IsTrue};
ghost use Rattle.rex_record.specs.Kept.{IsRecorder};
ghost use Rattle.rex_state.specs.Counts.{AreCounted};

use crate::record::{step, two_rolls};
use crate::services::checked;
use rand_pcg::Lcg64Xsh32;
use rex_event::Event;
use rex_record::Recorder;
use rex_replay::{ByCall, OneThread, ReplayCall, Replayer};
use rex_state::state::State;
use rex_syntax::checked::Checked;
use std::alloc::Global;
use std::process::Abort;
use std::test::*;

/// Two lanes; `look` reads the clock under the lock, and replies with what it read.
const LOOKER: &str = "lanes 2\nlock L\nhandler look\nacquire L\nclock x\nrelease L\nreply x\n";

/// The lanes whose turns are taken, in this order: lane 0 serves its request to the reply, lane 1 begins its own.
static TURNS: [u8; 7] = [0, 1, 0, 0, 0, 1, 0];

/// A recorder with one request that was replied to, and one that was begun, where the clock is 70.
fn recorded(rt: &impl Abort, alloc: Global, svc: &Checked) -> Recorder
    ensures { IsRecorder svc.now result.value }
{
    let mut recorder = two_rolls(rt, alloc, svc);
    let mut dice = Lcg64Xsh32::new(42, 54);
    for lane in &TURNS {
        let _turn = step(rt, &mut recorder, svc, &mut dice, *lane);
    }
    recorder
}

/// Whether each event leaves its lane's count room for the next one.
pub(crate) fn are_counted(events: &[Event]) -> bool
    ensures { IsTrue result → AreCounted events.now }
{
    events.iter().all(|event| event.index < 100)
}

/// The state to which a recorder's trace runs.
pub(crate) fn replayed<R: Replayer>(
    rt: &impl Abort,
    alloc: Global,
    svc: &Checked,
    replayer: &mut R,
    recorder: &Recorder,
) -> State
    requires recorder { IsRecorder svc.now recorder.now.value }
{
    let events = recorder.trace();
    assert!(rt; are_counted(events));
    replayer
        .replay(alloc, svc, recorder.start(), events)
        .expect(rt, "memory")
}

/// The same by a call.
pub(crate) fn replayed_by_call<C: ReplayCall + Drop>(
    rt: &impl Abort,
    alloc: Global,
    svc: &Checked,
    call: C,
    recorder: &Recorder,
) -> State
    requires replays { C.replays call }
    requires recorder { IsRecorder svc.now recorder.now.value }
{
    replayed(rt, alloc, svc, &mut ByCall::new(call), recorder)
}

fn one_thread_replays(rt: &impl Abort, alloc: Global, svc: &Checked) {
    let recorder = recorded(rt, alloc, svc);
    let state = replayed(rt, alloc, svc, &mut OneThread, &recorder);
    assert_eq!(rt; state.entry(1).reply, Some(70));
    assert!(rt; state.done(0) == 5 && state.done(1) == 2);
}

fn a_call_replays(rt: &impl Abort, alloc: Global, svc: &Checked) {
    let recorder = recorded(rt, alloc, svc);
    let call = |alloc: Global, svc: &Checked, from: &State, events: &[Event]| {
        OneThread.replay(alloc, svc, from, events)
    };
    let state = replayed_by_call(rt, alloc, svc, call, &recorder);
    assert_eq!(rt; state.entry(1).reply, Some(70));
}

#[test]
fn traces_are_replayed(rt: HostRuntime) {
    let svc = checked(&rt, rt.alloc(), LOOKER);
    one_thread_replays(&rt, rt.alloc(), &svc);
    a_call_replays(&rt, rt.alloc(), &svc);
}
