//! Runs of whole scenarios over memory, and their reports.

use crate::gates::HoldingGate;
use rex_cli::rex_main;
use rex_traits::{Gate, MemSink, MemSource, OpenGate, Source};
use std::alloc::AllocGlobal;
use std::process::Abort;
use std::test::*;
use std::thread::Threads;

/// A scenario of one request.
pub const COUNTER: &[u8] = b"%nodes 1
%service
lanes 2
lock L
var a on L = 0
handler add x
acquire L
set a = a + x
let r = a
release L
reply r
%requests
1 1 add 5
%schedule
elect 1
submit 1 1
lane 1 1
lane 1 1
lane 1 1
lane 1 1
cut 1
";

/// Its report.
pub const REPORT: &[u8] = b"1 node 1 candidate ballot 17
1 node 1 active ballot 17
2 queued
3 lane 1 0 begin 1 1 add 5
4 lane 1 1 acquire L
5 lane 1 2 release L
6 lane 1 3 reply 1 5
7 node 1 proposes 1 events 4
7 node 1 known 1
7 released 1 1 5
end node 1 active promised 17 known 1 live 0 a=5
";

/// Three nodes: the leader is stopped before anyone has accepted what it proposed, and catches up with the next one.
const CATCHING_UP: &[u8] = b"%nodes 3
%service
lanes 2
lock L
var a on L = 0
handler add x
acquire L
set a = a + x
let r = a
release L
reply r
%requests
1 1 add 5
2 1 add 7
%schedule
elect 1
deliver 1
deliver 3
submit 1 1
lane 1 1
lane 1 1
lane 1 1
lane 1 1
cut 1
stop 1
elect 2
deliver 7
deliver 8
submit 2 2
lane 2 1
lane 2 1
lane 2 1
lane 2 1
cut 2
deliver 10
deliver 11
start 1
ask 1 2
deliver 14
deliver 15
replay 1
ask 1 2
deliver 16
start 1
";

/// Its report.
const CAUGHT_UP: &[u8] = b"1 node 1 candidate ballot 17
1 sent 1 prepare 1 2
1 sent 2 prepare 1 3
2 message 1 prepare 1 2
2 node 2 promised 17
2 sent 3 promise 2 1
3 message 3 promise 2 1
3 node 1 active ballot 17
4 queued
5 lane 1 0 begin 1 1 add 5
6 lane 1 1 acquire L
7 lane 1 2 release L
8 lane 1 3 reply 1 5
9 node 1 proposes 1 events 4
9 sent 4 accept 1 2
9 sent 5 accept 1 3
10 node 1 stopped
11 node 2 candidate ballot 18
11 sent 6 prepare 2 1
11 sent 7 prepare 2 3
12 message 7 prepare 2 3
12 node 3 promised 18
12 sent 8 promise 3 2
13 message 8 promise 3 2
13 node 2 active ballot 18
14 queued
15 lane 1 0 begin 2 1 add 7
16 lane 1 1 acquire L
17 lane 1 2 release L
18 lane 1 3 reply 2 7
19 node 2 proposes 1 events 4
19 sent 9 accept 2 1
19 sent 10 accept 2 3
20 message 10 accept 2 3
20 node 3 accepted 18 1
20 sent 11 accepted 3 2
21 message 11 accepted 3 2
21 node 2 known 1
21 released 2 1 7
21 sent 12 chosen 2 1
21 sent 13 chosen 2 3
22 node 1 started promised 17 known 0 replayed 0
23 sent 14 ask 1 2
24 message 14 ask 1 2
24 sent 15 chosen 2 1
25 message 15 chosen 2 1
25 node 1 known 1
26 node 1 replayed 1
27 sent 16 ask 1 2
28 message 16 ask 1 2
28 nothing
29 node 1 is up
end node 1 follower promised 17 known 1 replayed 1 a=7
end node 2 active promised 18 known 1 live 0 a=7
end node 3 follower promised 18 known 0 replayed 0 a=0
";

/// The status, and what was written.
#[derive(Drop)]
pub(crate) struct Outcome {
    pub status: u8,
    pub written: Vec<u8>,
}

/// Runs the program with these words, with a space between, over these devices and behind a gate, and answers its status.
pub(crate) fn status_over<R: Threads + Sync + AllocGlobal, S: Source, G: Gate + Sync>(
    rt: &R,
    line: &str,
    source: &mut S,
    sink: &mut MemSink,
    gate: &G,
) -> Result<u8, Fail> {
    let alloc = rt.alloc();
    let mut words = vec![in alloc; "rex".to_string(alloc)?]?;
    for word in line.split(' ') {
        words.push(word.to_string(alloc)?)?;
    }
    Ok(rex_main(rt, alloc, &words, source, sink, gate))
}

/// Runs the program with these words over memory. The read and the write of these numbers, from 1, fail; 0 is none.
pub(crate) fn run<R: Threads + Sync + AllocGlobal>(
    rt: &R,
    line: &str,
    input: &[u8],
    read: u64,
    write: u64,
) -> Result<Outcome, Fail> {
    let alloc = rt.alloc();
    let bytes = Vec::from_slice(alloc, input)?;
    let mut source = MemSource::new(bytes, vec![in alloc; read]?);
    let mut sink = MemSink::new(alloc, vec![in alloc; write]?, 100);
    let status = status_over(rt, line, &mut source, &mut sink, &OpenGate)?;
    let written = Vec::from_slice(alloc, sink.held())?;
    Ok(Outcome { status, written })
}

#[test]
fn a_request_is_served(rt: HostRuntime) -> Result<(), Fail> {
    let outcome = run(&rt, "run", COUNTER, 0, 0)?;
    assert_eq!(rt; outcome.status, 0);
    assert_eq!(rt; outcome.written.as_slice(), REPORT);
    Ok(())
}

#[test]
fn a_stopped_leader_catches_up(rt: HostRuntime) -> Result<(), Fail> {
    for line in ["run", "run --workers 2", "run --workers 8"] {
        let outcome = run(&rt, line, CATCHING_UP, 0, 0)?;
        assert_eq!(rt; outcome.status, 0);
        assert_eq!(rt; outcome.written.as_slice(), CAUGHT_UP);
    }
    Ok(())
}

/// Two lanes that take one lock in turn; the node that led starts anew, and replays what they did.
const REPLAYED: &[u8] = b"%nodes 1
%service
lanes 2
lock L
var a on L = 0
handler add x
acquire L
set a = a + x
let r = a
release L
reply r
%requests
1 1 add 5
2 1 add 7
%schedule
elect 1
submit 1 1
submit 1 2
lane 1 1
lane 1 1
lane 1 2
lane 1 2
lane 1 1
lane 1 2
cut 1
stop 1
start 1
replay 1
";

/// How its report ends.
const REPLAYED_END: &[u8] =
    b"13 node 1 replayed 1\nend node 1 follower promised 17 known 1 replayed 1 a=12\n";

/// Two workers replay while one of them is held until the other one tries its second event.
fn replay_held<R: Threads + Sync + AllocGlobal + Abort>(
    rt: &R,
    held: u8,
    until: u8,
) -> Result<(), Fail> {
    let gate = HoldingGate::new(held, until);
    let bytes = Vec::from_slice(rt.alloc(), REPLAYED)?;
    let mut source = MemSource::new(bytes, vec![in rt.alloc(); 0]?);
    let mut sink = MemSink::new(rt.alloc(), vec![in rt.alloc(); 0]?, 4096);
    let status = status_over(rt, "run --workers 2", &mut source, &mut sink, &gate)?;
    assert!(rt; status == 0 && sink.held().ends_with(REPLAYED_END));
    assert!(rt; gate.is_kept(), "{held} was held");
    assert!(rt; gate.entered_once(), "{held} was held");
    Ok(())
}

#[test]
fn workers_replay_beside_each_other(rt: HostRuntime) -> Result<(), Fail> {
    replay_held(&rt, 0, 1)?;
    replay_held(&rt, 1, 0)
}
