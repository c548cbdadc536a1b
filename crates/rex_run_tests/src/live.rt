//! Runs of the program `rexlive` over memory: their statuses, and lanes that run beside each other and are woken.

use crate::gates::{CountingGate, HoldingGate, SleepingGate};
use crate::runs::Outcome;
use rex_threads::{both, processors};
use rex_traits::{Gate, MemSink, MemSource, OpenGate};
use rexlive_cli::live_main;
use std::alloc::AllocGlobal;
use std::process::Abort;
use std::sync::Wait;
use std::sync::atomic::{AtomicU64, Ordering};
use std::test::*;
use std::thread::{Threads, sleep};
use std::time::{Clock, Duration};

/// Two lanes that add to a variable under its lock, and two requests.
const BOTH: &[u8] = b"%nodes 1
%service
lanes 2
lock L
var a on L = 0
handler add x
acquire L
set a = a + x
let r = a
release L
reply r
%requests
1 1 add 5
2 1 add 7
%schedule
";

/// How its output ends, whatever the trace.
const BOTH_END: &[u8] = b"\nend node 1 active promised 17 known 1 live 0 a=12\n";

/// One lane, and one request, among three nodes.
const ONE: &[u8] = b"%nodes 3
%service
lanes 1
lock L
var a on L = 0
handler add x
acquire L
set a = a + x
let r = a
release L
reply r
%requests
1 1 add 5
%schedule
";

/// Its output.
const ONE_TOLD: &[u8] = b"delta 1 events 4
1.0 begin 1 1 add 5
1.1 acquire L
1.2 release L
1.3 reply 1 5
end node 1 active promised 17 known 1 live 0 a=5
end node 2 follower promised 17 known 1 replayed 1 a=5
end node 3 follower promised 17 known 1 replayed 1 a=5
";

/// A request of 18 events, with no line to run between two of them.
const LONG: &[u8] = b"%nodes 1
%service
lanes 1
lock L
handler many
acquire L
release L
acquire L
release L
acquire L
release L
acquire L
release L
acquire L
release L
acquire L
release L
acquire L
release L
acquire L
release L
reply 0
%requests
1 1 many
%schedule
";

/// Lane 1 waits for the share that lane 0 gives up at its event 2.
const SHARING: &[u8] = b"%nodes 1
%service
lanes 2
rwlock M
var a on M = 4
handler get
share M
let r = a
release M
reply r
handler put x
acquire M
set a = x
release M
reply x
%requests
1 1 get
2 1 put 9
%schedule
";

/// Lane 1 waits for the lock that lane 0 gives up at its event 2 to wait for a signal of lane 1.
const SIGNALLING: &[u8] = b"%nodes 1
%service
lanes 2
lock L
var a on L = 0
cond C on L
handler take
acquire L
let r = a
wait C while a == 0
release L
reply r
handler put
acquire L
set a = 1
signal C
release L
reply 0
%requests
1 1 take
2 1 put
%schedule
";

/// Lane 1 waits for the semaphore that lane 0 raises at its event 1.
const RAISING: &[u8] = b"%nodes 1
%service
lanes 2
sem S = 0
handler raise
let r = 1
up S
reply r
handler lower
down S
reply 0
%requests
1 1 raise
2 1 lower
%schedule
";

/// Services and requests of two lanes of which one waits for the other, and the index of the event by which that one ends the wait.
static WAITS: [(&[u8], u32); 4] = [(BOTH, 2), (SHARING, 2), (SIGNALLING, 2), (RAISING, 1)];

/// A service with a condition, at line 6.
const WAITING: &[u8] = b"%nodes 1
%service
lanes 2
lock L
var a on L = 0
cond C on L
handler put
acquire L
set a = 1
signal C
release L
reply 0
%requests
%schedule
";

/// Runs the program with these words over memory, behind a gate. The read and the write of these numbers, from 1, fail; 0
/// is none.
fn run<R: Threads + Wait + Sync + AllocGlobal, G: Gate + Sync>(
    rt: &R,
    line: &str,
    input: &[u8],
    faults: (u64, u64),
    gate: &G,
) -> Result<Outcome, Fail> {
    let alloc = rt.alloc();
    let mut words = vec![in alloc; String::new(alloc); 0]?;
    for word in line.split(' ') {
        words.push(word.to_string(alloc)?)?;
    }
    let bytes = Vec::from_slice(alloc, input)?;
    let mut source = MemSource::new(bytes, vec![in alloc; faults.0]?);
    let mut sink = MemSink::new(alloc, vec![in alloc; faults.1]?, 100);
    let status = live_main(rt, rt, alloc, &words, &mut source, &mut sink, gate);
    let written = Vec::from_slice(alloc, sink.held())?;
    Ok(Outcome { status, written })
}

/// How often it is looked at most whether a run has ended: for some twenty seconds, where a run takes a few milliseconds.
const LOOKS: u32 = 20_000;

/// Waits until a run has ended. One that doesn't, since all its lanes sleep, ends the test.
fn watch<R: Abort + Clock>(rt: &R, ended: &AtomicU64) {
    for _ in 0..LOOKS {
        if ended.load(Ordering::SeqCst) > 0 {
            return;
        }
        sleep(rt, Duration::from_millis(1));
    }
    panic!(rt; "the run doesn't end");
}

/// Runs it so, while another thread looks whether it ends.
fn live<R: Threads + Wait + Sync + AllocGlobal + Abort + Clock, G: Gate + Sync>(
    rt: &R,
    line: &str,
    input: &[u8],
    faults: (u64, u64),
    gate: &G,
) -> Result<Outcome, Fail> {
    let ended = AtomicU64::new(0);
    let watched = || -> Result<Outcome, Fail> {
        let outcome = run(rt, line, input, faults, gate);
        ended.store(1, Ordering::SeqCst);
        outcome
    };
    let (outcome, ()) = both(rt, watched, || watch(rt, &ended));
    outcome
}

/// Words, an input, the read and the write that fail, the status, and the output.
type Case = (&'static str, &'static [u8], (u64, u64), u8, &'static [u8]);

static CASES: [Case; 13] = [
    ("rexlive", ONE, (0, 0), 0, ONE_TOLD),
    ("rexlive", b"", (0, 0), 1, b"refused line 1 S3\n"),
    (
        "rexlive",
        b"%nodes 1\n%service\nlanes 1\nhandler h\nreply 0\n%requests\n%schedule\nelect 1\n",
        (0, 0),
        1,
        b"refused line 8 S8\n",
    ),
    (
        "rexlive",
        b"%nodes 1\n%service\nlanes 1\nlock L\nhandler h\nacquire L\nreply 0\n%requests\n%schedule\n",
        (0, 0),
        3,
        b"refused handler h line 7 C7\n",
    ),
    (
        "rexlive",
        b"%nodes 1\n%service\nlanes 1\nhandler h\nreply 0\n%requests\n%schedule\n",
        (0, 0),
        0,
        b"end node 1 active promised 17 known 0 live 0\n",
    ),
    ("rexlive --words", ONE, (0, 0), 0, ONE_TOLD),
    (
        "rexlive --words",
        b"%nodes 1\n%service\nlanes 1\nlock L\nhandler h\nacquire L\nreply 0\n%requests\n%schedule\n",
        (0, 0),
        3,
        b"refused handler h line 7 C7\n",
    ),
    (
        "rexlive --words",
        WAITING,
        (0, 0),
        1,
        b"refused line 6 W1\n",
    ),
    ("rexlive run", ONE, (0, 0), 2, b"usage: rexlive [--words]\n"),
    (
        "rexlive --words --words",
        ONE,
        (0, 0),
        2,
        b"usage: rexlive [--words]\n",
    ),
    (
        "rexlive --word",
        ONE,
        (0, 0),
        2,
        b"usage: rexlive [--words]\n",
    ),
    ("rexlive", ONE, (1, 0), 4, b""),
    ("rexlive", ONE, (0, 1), 5, b""),
];

#[test]
fn each_status_has_its_cause(rt: HostRuntime) -> Result<(), Fail> {
    for (line, input, faults, status, written) in &CASES {
        let outcome = live(&rt, line, input, *faults, &OpenGate)?;
        assert_eq!(rt; outcome.status, *status, "{line}");
        assert_eq!(rt; outcome.written.as_slice(), *written, "{line}");
    }
    Ok(())
}

/// The two ways in which lanes record.
const WAYS: [&str; 2] = ["rexlive", "rexlive --words"];

#[test]
fn two_lanes_end_alike(rt: HostRuntime) -> Result<(), Fail> {
    for way in WAYS {
        for _ in 0..10 {
            let outcome = live(&rt, way, BOTH, (0, 0), &OpenGate)?;
            assert!(rt;
                outcome.status == 0 && outcome.written.ends_with(BOTH_END),
                "{way}"
            );
        }
    }
    Ok(())
}

/// Two lanes, of which one's thread is held by this gate until the other one tries its second event.
fn live_held<R: Threads + Wait + Sync + AllocGlobal + Abort + Clock>(
    rt: &R,
    way: &str,
    gate: &HoldingGate,
) -> Result<(), Fail> {
    let outcome = live(rt, way, BOTH, (0, 0), gate)?;
    assert!(rt;
        outcome.status == 0 && outcome.written.ends_with(BOTH_END),
        "{way}"
    );
    assert!(rt; gate.is_kept(), "{way}: a lane was held");
    Ok(())
}

/// Gates that nobody passed say so: no lane was held, and no event entered.
#[test]
fn gates_say_when_nobody_passed(rt: HostRuntime) -> Result<(), Fail> {
    let holding = HoldingGate::new(0, 1);
    let counting = CountingGate::new();
    assert!(rt; !holding.is_kept() && !holding.entered_once() && counting.entries() == 0);
    Ok(())
}

#[test]
fn lanes_run_beside_each_other(rt: HostRuntime) -> Result<(), Fail> {
    for way in WAYS {
        live_held(&rt, way, &HoldingGate::new(0, 1))?;
        live_held(&rt, way, &HoldingGate::new(1, 0))?;
    }
    Ok(())
}

/// Behind an open gate, too, a lane makes its events while another one's thread is held, where there are two processors.
#[test]
fn lanes_run_beside_each_other_behind_an_open_gate(rt: HostRuntime) -> Result<(), Fail> {
    if processors(&rt) < 2 {
        return Ok(());
    }
    for (held, until) in [(0, 1), (1, 0)] {
        live_held(&rt, "rexlive", &HoldingGate::open(held, until))?;
    }
    Ok(())
}

/// Behind an open gate a lane makes no more than 16 tries between two passages.
#[test]
fn an_open_gate_is_passed_again_and_again(rt: HostRuntime) -> Result<(), Fail> {
    let gate = CountingGate::new();
    let outcome = live(&rt, "rexlive", LONG, (0, 0), &gate)?;
    assert!(rt; outcome.status == 0 && gate.entries() >= 2);
    Ok(())
}

/// A lane that sleeps is woken by the event of another one that lets it go on.
#[test]
fn lanes_that_sleep_are_woken(rt: HostRuntime) -> Result<(), Fail> {
    for (input, index) in &WAITS {
        for open in [false, true] {
            let gate = SleepingGate::new(*index, open);
            let outcome = live(&rt, "rexlive", input, (0, 0), &gate)?;
            assert_eq!(rt; outcome.status, 0);
        }
    }
    Ok(())
}
