//! The lines of effects, of ends and of a delta, as they are written.

use crate::delta::{HANDED_ON, delta_of};
use crate::services::service;
use rex_event::{Event, Kind};
use rex_report::{Effect, End, MessageKind, Role, UpEnd, push_delta, push_end, push_row};
use rex_syntax::service::Service;
use std::alloc::Global;
use std::process::Abort;
use std::test::*;

/// A counter, without the lines that count.
const COUNTER: &str = "lanes 2\nlock L\nvar a on L = 0\nhandler add x\nreply x\n";

/// Effects, each with its line's number and the text that it is written as.
const ROWS: [(u32, Effect, &str); 12] = [
    (
        1,
        Effect::Candidate {
            node: 1,
            ballot: 17,
        },
        "1 node 1 candidate ballot 17\n",
    ),
    (
        2,
        Effect::Delivered {
            number: 1,
            kind: MessageKind::Prepare,
            from: 1,
            to: 2,
        },
        "2 message 1 prepare 1 2\n",
    ),
    (
        4,
        Effect::Recorded {
            event: Event {
                lane: 0,
                index: 1,
                kind: Kind::AcqEx { lock: 0 },
            },
        },
        "4 lane 1 1 acquire L\n",
    ),
    (7, Effect::Held { lane: 1, by: 0 }, "7 lane 2 held by 1\n"),
    (
        7,
        Effect::WillFail {
            node: 1,
            kept: true,
        },
        "7 node 1 keepfail kept\n",
    ),
    (
        10,
        Effect::Accepted {
            node: 2,
            ballot: 17,
            instance: 1,
        },
        "10 node 2 accepted 17 1\n",
    ),
    (
        11,
        Effect::Released {
            client: 1,
            sequence: 1,
            value: -5,
        },
        "11 released 1 1 -5\n",
    ),
    (
        14,
        Effect::IgnoredInstance { got: 1, wanted: 0 },
        "14 ignored instance 1 0\n",
    ),
    (
        14,
        Effect::Adopts {
            node: 2,
            instance: 1,
            events: 4,
        },
        "14 node 2 adopts 1 events 4\n",
    ),
    (
        20,
        Effect::Sent {
            number: 14,
            kind: MessageKind::Nack,
            from: 3,
            to: 1,
        },
        "20 sent 14 nack 3 1\n",
    ),
    (
        22,
        Effect::Started {
            node: 1,
            promised: 17,
            known: 0,
            replayed: 0,
        },
        "22 node 1 started promised 17 known 0 replayed 0\n",
    ),
    (25, Effect::UpToDate { node: 1 }, "25 node 1 up to date\n"),
];

fn effects_are_written(rt: &impl Abort, alloc: Global, counter: &Service) {
    for (number, effect, text) in ROWS {
        let mut out = Vec::new(alloc);
        push_row(&mut out, counter.declarations(), number, &effect).expect(rt, "memory");
        assert_eq!(rt; out.as_slice(), text.as_bytes(), "{text}");
    }
}

fn ends_are_written(rt: &impl Abort, alloc: Global, counter: &Service) {
    let service = counter.declarations();
    let up = End::Up(UpEnd {
        node: 1,
        role: Role::Active,
        promised: 17,
        known: 1,
        count: 0,
    });
    let mut out = Vec::new(alloc);
    push_end(&mut out, &up, service, &[5], &[]).expect(rt, "memory");
    push_end(&mut out, &End::Down { node: 2 }, service, &[5], &[]).expect(rt, "memory");
    let text = b"end node 1 active promised 17 known 1 live 0 a=5\nend node 2 down\n".as_slice();
    assert_eq!(rt; out.as_slice(), text);
}

fn a_delta_is_written(rt: &impl Abort, alloc: Global, counter: &Service) {
    let delta = delta_of(alloc, &HANDED_ON).expect(rt, "a delta");
    let mut out = Vec::new(alloc);
    push_delta(&mut out, counter.declarations(), 1, &delta).expect(rt, "memory");
    let text =
        b"delta 1 events 5\n1.0 begin 1 1 add 5\n1.1 acquire L\n2.0 begin 2 1 add 7\n1.2 release L\n2.1 acquire L after 1.2\n".as_slice();
    assert_eq!(rt; out.as_slice(), text);
}

#[test]
fn reports_are_written(rt: HostRuntime) {
    let counter = service(&rt, rt.alloc(), COUNTER);
    effects_are_written(&rt, rt.alloc(), &counter);
    ends_are_written(&rt, rt.alloc(), &counter);
    a_delta_is_written(&rt, rt.alloc(), &counter);
}
