//! Turns of a recorder, the replies that settling releases, and events and blocks that it is handed.

ghost use Rattle.std.specs.Prelude.{◌<◌, ◌≤◌, ◌+◌, IsTrue};
ghost use Rattle.rex_event.specs.Cuts.{IsConsistent};
ghost use Rattle.rex_record.specs.Kept.{CanBegin, IsRecorder};

use crate::replay::are_counted;
use crate::services::checked;
use rand_pcg::Lcg64Xsh32;
use rex_event::{Cut, Event, Kind};
use rex_list::{Arguments, List};
use rex_record::{Recorder, Release, Turn};
use rex_state::state::State;
use rex_syntax::checked::Checked;
use rex_syntax::request::Request;
use std::alloc::Global;
use std::process::Abort;
use std::test::*;

/// The first word of the reference generator, which is made of 42 and 54.
const FIRST_WORD: u32 = 0xa15c02b7;

/// Two lanes; `roll` reads the dice under the lock, and replies with what it read.
const ROLLER: &str = "lanes 2\nlock L\nhandler roll\nacquire L\nrandom x\nrelease L\nreply x\n";

/// Turns of lanes, and what comes of each.
static TURNS: [(u8, &str); 9] = [
    (0, "begin"),
    (1, "begin"),
    (0, "acquire"),
    (1, "held by 0"),
    (0, "first word"),
    (0, "release"),
    (0, "reply of the first word"),
    (0, "idle"),
    (1, "acquire"),
];

fn word_of(turn: &Turn) -> &'static str {
    match turn {
        Turn::Done(event) => match event.kind {
            Kind::Begin { .. } => "begin",
            Kind::AcqEx { .. } => "acquire",
            Kind::RelEx { .. } => "release",
            Kind::Random { value } if value == FIRST_WORD => "first word",
            Kind::Reply { value, .. } if value == FIRST_WORD as i64 => "reply of the first word",
            _ => "another event",
        },
        Turn::Held { by: 0 } => "held by 0",
        Turn::Idle => "idle",
        _ => "another turn",
    }
}

/// Whether an idle lane could begin a request.
fn can_begin(recorder: &Recorder, svc: &Checked, request: &Request) -> bool
    requires { IsRecorder svc.now recorder.now.value }
    ensures { IsTrue result → CanBegin svc.now recorder.now.value.state request.now }
{
    let event = Event {
        lane: 0,
        index: 0,
        kind: Kind::Begin {
            client: request.client,
            sequence: request.sequence,
            handler: request.handler,
            arguments: request.arguments,
        },
    };
    let _service = svc.declarations();
    recorder.state().enabled(svc, &event)
}

/// Queues a request of a client that has none, which an idle lane could begin.
pub(crate) fn queue(rt: &impl Abort, recorder: &mut Recorder, svc: &Checked, request: Request)
    requires { IsRecorder svc.now recorder.old.value }
    ensures { IsRecorder svc.now recorder.new.value }
{
    assert!(rt; can_begin(recorder, svc, &request));
    assert!(rt; recorder.queued(request.client).is_none());
    recorder.queue(svc, request).expect(rt, "memory");
}

/// The first request of a client, for the first handler.
fn first_request(client: u16) -> Request {
    Request {
        client,
        sequence: 1,
        handler: 0,
        arguments: Arguments::new(),
    }
}

/// A recorder at the start, with a request each of clients 1 and 2.
pub fn two_rolls(rt: &impl Abort, alloc: Global, svc: &Checked) -> Recorder
    ensures { IsRecorder svc.now result.value }
{
    let state = State::start(alloc, svc).expect(rt, "memory");
    let mut recorder = Recorder::new(alloc, state).expect(rt, "memory");
    queue(rt, &mut recorder, svc, first_request(1));
    queue(rt, &mut recorder, svc, first_request(2));
    recorder
}

/// Takes a lane's turn where the clock is 70.
pub fn step(
    rt: &impl Abort,
    recorder: &mut Recorder,
    svc: &Checked,
    dice: &mut Lcg64Xsh32,
    lane: u8,
) -> Turn
    requires { IsRecorder svc.now recorder.old.value }
    ensures { IsRecorder svc.now recorder.new.value }
{
    assert!(rt; lane < svc.declarations().lanes);
    assert!(rt; recorder.state().done(lane) < 100);
    recorder.lane_step(svc, lane, 70, dice).expect(rt, "memory")
}

/// Takes turns, and looks at what comes of each.
fn run(rt: &impl Abort, recorder: &mut Recorder, svc: &Checked, turns: &[(u8, &str)])
    requires { IsRecorder svc.now recorder.old.value }
    ensures { IsRecorder svc.now recorder.new.value }
{
    let mut dice = Lcg64Xsh32::new(42, 54);
    for (lane, word) in turns {
        let turn = step(rt, recorder, svc, &mut dice, *lane);
        assert!(rt; word_of(&turn) == *word);
    }
}

fn requests_run_to_their_replies(rt: &impl Abort, alloc: Global, svc: &Checked) {
    let mut recorder = two_rolls(rt, alloc, svc);
    run(rt, &mut recorder, svc, &TURNS);
    assert_eq!(rt; recorder.trace().len(), 7);
}

/// Takes a lane's turn in reserved room where the clock is 70.
fn reserved_step(
    rt: &impl Abort,
    recorder: &mut Recorder,
    svc: &Checked,
    dice: &mut Lcg64Xsh32,
    lane: u8,
) -> Turn
    requires recorder { IsRecorder svc.now recorder.old.value }
    requires spare { 0 < recorder.old.spare }
    ensures recorder { IsRecorder svc.now recorder.new.value }
    ensures spare { recorder.old.spare ≤ recorder.new.spare + 1 }
{
    assert!(rt; lane < svc.declarations().lanes);
    assert!(rt; recorder.state().done(lane) < 100);
    recorder.reserved_step(svc, lane, 70, dice)
}

fn reserved_turns_are_recorded(rt: &impl Abort, alloc: Global, svc: &Checked) {
    let mut recorder = two_rolls(rt, alloc, svc);
    let mut dice = Lcg64Xsh32::new(42, 54);
    recorder.reserve(2).expect(rt, "memory");
    let first = reserved_step(rt, &mut recorder, svc, &mut dice, 0);
    let second = reserved_step(rt, &mut recorder, svc, &mut dice, 0);
    assert!(rt; word_of(&first) == "begin" && word_of(&second) == "acquire");
    assert_eq!(rt; recorder.trace().len(), 2);
}

/// Whether the events below a cut stand before all others. The cut is consistent then.
fn stand_first(cut: &Cut, events: &[Event]) -> bool
    ensures { IsTrue result → IsConsistent events.now cut.now.counts }
{
    let mut is_front = true;
    for event in events {
        let is_below = cut.contains(event);
        if is_below && !is_front {
            return false;
        }
        is_front = is_below;
    }
    true
}

/// Settles at a cut below which the first live events are.
fn settle_front(
    rt: &impl Abort,
    alloc: Global,
    recorder: &mut Recorder,
    svc: &Checked,
    counts: [u32; 2],
) -> List<Release>
    requires { IsRecorder svc.now recorder.old.value }
    ensures { IsRecorder svc.now recorder.new.value }
{
    let counts = List::from_vec(counts.to_vec(alloc).expect(rt, "memory"));
    let cut = Cut { counts };
    assert!(rt; stand_first(&cut, recorder.trace()));
    recorder.settle(svc, alloc, &cut).expect(rt, "memory")
}

/// The turns of a whole request, and the begin of another.
static ONE_REPLY: [(u8, &str); 6] = [
    (0, "begin"),
    (0, "acquire"),
    (0, "first word"),
    (0, "release"),
    (0, "reply of the first word"),
    (1, "begin"),
];

fn settling_releases_the_replies(rt: &impl Abort, alloc: Global, svc: &Checked) {
    let mut recorder = two_rolls(rt, alloc, svc);
    run(rt, &mut recorder, svc, &ONE_REPLY);
    let released = settle_front(rt, alloc, &mut recorder, svc, [5, 0]);
    let reply = Release {
        client: 1,
        sequence: 1,
        value: FIRST_WORD as i64,
    };
    assert_eq!(rt; released.as_slice(), [reply].as_slice());
    assert!(rt; recorder.trace().len() == 1 && recorder.start().done(0) == 5);
}

/// Hands an event of the first lane to the recorder, and answers what came of it.
fn take(rt: &impl Abort, recorder: &mut Recorder, svc: &Checked, index: u32, client: u16) -> Turn
    requires { IsRecorder svc.now recorder.old.value }
    ensures { IsRecorder svc.now recorder.new.value }
{
    let kind = Kind::Begin {
        client,
        sequence: 1,
        handler: 0,
        arguments: Arguments::new(),
    };
    let event = Event {
        lane: 0,
        index,
        kind,
    };
    assert!(rt; recorder.state().done(0) < 100);
    recorder.take_event(svc, &event).expect(rt, "memory")
}

/// An event of a client that has a request queued is not taken, nor one that isn't its lane's next one.
fn events_are_taken(rt: &impl Abort, alloc: Global, svc: &Checked) {
    let mut recorder = two_rolls(rt, alloc, svc);
    assert!(rt; take(rt, &mut recorder, svc, 0, 1) == Turn::Unfit);
    assert!(rt; take(rt, &mut recorder, svc, 1, 3) == Turn::Unfit);
    let done = take(rt, &mut recorder, svc, 0, 3);
    assert!(rt; word_of(&done) == "begin");
    assert!(rt; recorder.trace().len() == 1 && recorder.queued(1) == Some(1));
}

/// What one recorder made another one takes as a block, with the state after it.
fn blocks_are_taken(rt: &impl Abort, alloc: Global, svc: &Checked) {
    let mut maker = two_rolls(rt, alloc, svc);
    run(rt, &mut maker, svc, &TURNS);
    let start = maker.start().copy(alloc).expect(rt, "memory");
    let state = maker.state().copy(alloc).expect(rt, "memory");
    let mut taker = Recorder::new(alloc, start).expect(rt, "memory");
    assert!(rt; are_counted(maker.trace()));
    taker
        .take_block(svc, maker.trace(), state)
        .expect(rt, "memory");
    assert!(rt;
        taker.trace().len() == 7 && taker.state().done(0) == 5 && taker.state().done(1) == 2
    );
}

#[test]
fn handed_events_are_taken(rt: HostRuntime) {
    let svc = checked(&rt, rt.alloc(), ROLLER);
    events_are_taken(&rt, rt.alloc(), &svc);
    blocks_are_taken(&rt, rt.alloc(), &svc);
}

#[test]
fn turns_are_recorded(rt: HostRuntime) {
    let svc = checked(&rt, rt.alloc(), ROLLER);
    requests_run_to_their_replies(&rt, rt.alloc(), &svc);
    reserved_turns_are_recorded(&rt, rt.alloc(), &svc);
    settling_releases_the_replies(&rt, rt.alloc(), &svc);
}
