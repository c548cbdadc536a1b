//! States that follow the events of a request, and a copy that goes its own way.

ghost use Rattle.rex_state.specs.Sound.{IsSound};

use crate::services::checked;
use rex_event::{Event, Kind};
use rex_list::Arguments;
use rex_state::state::State;
use rex_syntax::checked::Checked;
use std::alloc::Global;
use std::process::Abort;
use std::test::*;

/// One lane; `add x` adds x to the variable under the lock, and replies with the sum.
pub(crate) const COUNTER: &str =
    "lanes 1\nlock L\nvar a on L = 0\nhandler add x\nacquire L\nset a = a + x\nlet r = a\nrelease L\nreply r\n";

/// The events of the request `add 5` at the start: the one of this index.
pub(crate) fn event_at(index: u32) -> Event {
    let mut arguments = Arguments::new();
    arguments.push(5);
    let kind = match index {
        0 => Kind::Begin {
            client: 1,
            sequence: 1,
            handler: 0,
            arguments,
        },
        1 => Kind::AcqEx { lock: 0 },
        2 => Kind::RelEx { lock: 0 },
        _ => Kind::Reply {
            client: 1,
            value: 5,
        },
    };
    Event {
        lane: 0,
        index,
        kind,
    }
}

/// Does the next event of the request, which has to be enabled.
pub(crate) fn step(rt: &impl Abort, state: &mut State, svc: &Checked)
    requires { IsSound svc.now state.old }
    ensures { IsSound svc.now state.new }
{
    let event = event_at(state.done(0));
    assert!(rt; event.index < 4 && event.index == state.done(event.lane));
    assert!(rt; state.enabled(svc, &event));
    state.apply(svc, &event);
}

pub(crate) fn start(rt: &impl Abort, alloc: Global, svc: &Checked) -> State
    ensures { IsSound svc.now result }
{
    State::start(alloc, svc).expect(rt, "memory")
}

fn a_request_runs_to_its_reply(rt: &impl Abort, alloc: Global, svc: &Checked) {
    let mut state = start(rt, alloc, svc);
    step(rt, &mut state, svc);
    step(rt, &mut state, svc);
    step(rt, &mut state, svc);
    step(rt, &mut state, svc);
    assert_eq!(rt; state.variables(), [5].as_slice());
    assert_eq!(rt; state.entry(1).reply, Some(5));
    let counts = state.counts(alloc).expect(rt, "memory");
    assert_eq!(rt; counts.as_slice(), [4].as_slice());
}

fn a_copy_goes_its_own_way(rt: &impl Abort, alloc: Global, svc: &Checked) {
    let mut state = start(rt, alloc, svc);
    step(rt, &mut state, svc);
    let copy = state.copy(alloc).expect(rt, "memory");
    step(rt, &mut state, svc);
    assert!(rt; state.done(0) == 2 && copy.done(0) == 1);
}

fn a_reserved_event_is_applied(rt: &impl Abort, alloc: Global, svc: &Checked) {
    let mut state = start(rt, alloc, svc);
    state.reserve(1).expect(rt, "memory");
    let event = event_at(0);
    assert!(rt; event.index < 4 && event.index == state.done(event.lane));
    assert!(rt; state.enabled(svc, &event));
    state.reserved_apply(svc, &event);
    assert_eq!(rt; state.done(0), 1);
}

#[test]
fn states_follow_events(rt: HostRuntime) {
    let svc = checked(&rt, rt.alloc(), COUNTER);
    a_request_runs_to_its_reply(&rt, rt.alloc(), &svc);
    a_copy_goes_its_own_way(&rt, rt.alloc(), &svc);
    a_reserved_event_is_applied(&rt, rt.alloc(), &svc);
}
