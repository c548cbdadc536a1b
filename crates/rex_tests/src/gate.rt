//! What a client is answered before its reply is known, and once it is.

ghost use Rattle.rex_state.specs.Sound.{IsSound};

use crate::services::checked;
use crate::state::{COUNTER, event_at, start, step};
use rex_event::{Delta, Event};
use rex_gate::{Answer, Answers};
use rex_list::{Arguments, List};
use rex_state::state::State;
use rex_syntax::checked::Checked;
use rex_syntax::request::Request;
use std::alloc::{AllocError, Global};
use std::process::Abort;
use std::test::*;

/// A request of client 1, the sequence of its queued one, and the answer that it has to get.
#[derive(Clone, Copy)]
struct Expected {
    sequence: u32,
    queued: Option<u32>,
    answer: Answer,
}

fn expect(sequence: u32, queued: Option<u32>, answer: Answer) -> Expected {
    Expected {
        sequence,
        queued,
        answer,
    }
}

fn ask(rt: &impl Abort, answers: &Answers, live: &State, expected: &[Expected]) {
    for case in expected {
        let request = Request {
            client: 1,
            sequence: case.sequence,
            handler: 0,
            arguments: Arguments::new(),
        };
        assert!(rt; answers.answer(&request, case.queued, live) == case.answer);
    }
}

/// The delta of the four events of client 1's request.
fn added(alloc: Global) -> Result<Delta, AllocError> {
    let events = [event_at(0), event_at(1), event_at(2), event_at(3)];
    Ok(Delta {
        bases: List::from_vec(vec![in alloc; 0]?),
        events: List::from_vec(events.to_vec(alloc)?),
        causes: List::new(alloc),
    })
}

/// The state after the four events.
fn after_adding(rt: &impl Abort, alloc: Global, svc: &Checked) -> State
    ensures { IsSound svc.now result }
{
    let mut state = start(rt, alloc, svc);
    step(rt, &mut state, svc);
    step(rt, &mut state, svc);
    step(rt, &mut state, svc);
    step(rt, &mut state, svc);
    state
}

fn nothing_is_known(rt: &impl Abort, alloc: Global, svc: &Checked) {
    let expected = [
        expect(1, None, Answer::Queued),
        expect(2, None, Answer::Gap { expected: 1 }),
        expect(1, Some(1), Answer::Waiting),
    ];
    ask(rt, &Answers::new(alloc), &start(rt, alloc, svc), &expected);
}

fn a_reply_is_live(rt: &impl Abort, alloc: Global, svc: &Checked) {
    let expected = [
        expect(1, None, Answer::Waiting),
        expect(2, None, Answer::Queued),
    ];
    ask(
        rt,
        &Answers::new(alloc),
        &after_adding(rt, alloc, svc),
        &expected,
    );
}

fn ask_once_known(rt: &impl Abort, answers: &Answers, live: &State) {
    let expected = [
        expect(1, None, Answer::Released(5)),
        expect(3, None, Answer::Gap { expected: 2 }),
        expect(2, None, Answer::Queued),
        expect(1, Some(2), Answer::Old { last: 2 }),
    ];
    ask(rt, answers, live, &expected);
}

/// The numbers of the deltas with the last replies of clients 1 and 2.
fn stamps(rt: &impl Abort, answers: &Answers, expected: [Option<u32>; 2]) {
    assert_eq!(rt; [answers.stamp(1), answers.stamp(2)], expected);
}

fn a_reply_is_known(rt: &impl Abort, alloc: Global, svc: &Checked) {
    let mut answers = Answers::new(alloc);
    let delta = added(alloc).expect(rt, "memory");
    stamps(rt, &answers, [None, None]);
    answers.note(delta.events.as_slice()).expect(rt, "memory");
    ask_once_known(rt, &answers, &after_adding(rt, alloc, svc));
    stamps(rt, &answers, [Some(1), None]);
}

fn a_state_is_known(rt: &impl Abort, alloc: Global, svc: &Checked) {
    let state = after_adding(rt, alloc, svc);
    let mut answers = Answers::at(alloc, &state, 3).expect(rt, "memory");
    ask_once_known(rt, &answers, &state);
    stamps(rt, &answers, [Some(0), None]);
    // the fourth delta has no reply, the fifth one has
    let delta = added(alloc).expect(rt, "memory");
    answers.number(&[event_at(0)]).expect(rt, "memory");
    stamps(rt, &answers, [Some(0), None]);
    answers.number(delta.events.as_slice()).expect(rt, "memory");
    stamps(rt, &answers, [Some(5), None]);
}

#[test]
fn a_reply_is_released_once_it_is_known(rt: HostRuntime) {
    let svc = checked(&rt, rt.alloc(), COUNTER);
    nothing_is_known(&rt, rt.alloc(), &svc);
    a_reply_is_live(&rt, rt.alloc(), &svc);
    a_reply_is_known(&rt, rt.alloc(), &svc);
    a_state_is_known(&rt, rt.alloc(), &svc);
}
