//! Words, inputs and failing devices, and what the program `rex` answers to each.

use crate::runs::{COUNTER, REPORT, run};
use std::alloc::AllocGlobal;
use std::process::Abort;
use std::test::*;
use std::thread::Threads;

/// The program's words, its input, and the status and the text that are wanted.
type Case = (&'static str, &'static str, u8, &'static str);

const USAGE: &str = "usage: rex run|trace|check|gen|soak\n";

static TEXTS: [Case; 12] = [
    ("run", "", 1, "refused line 1 S3\n"),
    ("trace", "", 1, "refused line 1 S3\n"),
    ("check", "", 1, "refused line 1 P14\n"),
    ("run", "%nodes 4\n", 1, "refused line 1 S4\n"),
    (
        "run",
        "%nodes 1\n%service\nlanes 0\n",
        1,
        "refused line 3 P5\n",
    ),
    ("check", "%nodes 1\n", 1, "refused line 1 P2\n"),
    ("fly", "", 2, USAGE),
    ("runs", "", 2, USAGE),
    ("gen 7", "", 2, USAGE),
    ("run --workers 17", "", 2, USAGE),
    (
        "soak 7 1",
        "",
        0,
        "soak 7 1 lines 40 messages 11 known 1 released 3 a=17\n",
    ),
    (
        "soak 7 10 --workers 2",
        "",
        0,
        "soak 7 10 lines 379 messages 72 known 10 released 30 a=305\n",
    ),
];

/// A service whose handler adds its argument, up to what it replies.
const SERVICE: &str =
    "lanes 2\nlock L\nvar a on L = 0\nhandler add x\nacquire L\nset a = a + x\nlet r = a\nrelease L\nreply ";

/// Services that begin so.
static SERVICES: [Case; 3] = [
    (
        "check",
        "r\n",
        0,
        "checked handlers 1 locks 1 conditions 0 variables 1\n",
    ),
    ("check", "a\n", 3, "refused handler add line 9 C1\n"),
    ("check", "r\nreply r\n", 1, "refused line 10 P2\n"),
];

/// Scenarios of such a service, which begins at line 5.
static SCENARIOS: [Case; 6] = [
    (
        "run",
        "r\n%requests\n%schedule\n",
        0,
        "end node 1 follower promised 0 known 0 replayed 0 a=0\n",
    ),
    (
        "run",
        "a\n%requests\n%schedule\n",
        3,
        "refused handler add line 13 C1\n",
    ),
    ("trace", "r\n%requests\n%schedule\n", 0, ""),
    (
        "trace",
        "r\n%requests\n1 1 add 5\n%schedule\nelect 1\nsubmit 1 1\nlane 1 2\nlane 1 2\ncut 1\n",
        0,
        "delta 1 events 2\n2.0 begin 1 1 add 5\n2.1 acquire L\n",
    ),
    (
        "trace",
        "a\n%requests\n%schedule\n",
        3,
        "refused handler add line 13 C1\n",
    ),
    (
        "run",
        "a\n%requests\n1 1 sub 5\n",
        1,
        "refused line 15 S6\n",
    ),
];

/// Runs the program on each case's input, which begins with these texts.
fn all_answer<R: Threads + Sync + AllocGlobal + Abort>(
    rt: &R,
    head: &str,
    service: &str,
    cases: &[Case],
) -> Result<(), Fail> {
    for (word, rest, status, written) in cases {
        let input = format!(in rt.alloc(); "{head}{service}{rest}")?;
        let outcome = run(rt, word, input.as_bytes(), 0, 0)?;
        assert_eq!(rt; outcome.status, *status, "{word} {rest}");
        assert_eq!(rt;
            outcome.written.as_slice(),
            written.as_bytes(),
            "{word} {rest}"
        );
    }
    Ok(())
}

#[test]
fn texts_and_words_are_refused(rt: HostRuntime) -> Result<(), Fail> {
    all_answer(&rt, "", "", &TEXTS)
}

#[test]
fn services_are_checked(rt: HostRuntime) -> Result<(), Fail> {
    all_answer(&rt, "", SERVICE, &SERVICES)
}

#[test]
fn scenarios_are_checked(rt: HostRuntime) -> Result<(), Fail> {
    all_answer(&rt, "%nodes 1\n%seed 7\n\n%service\n", SERVICE, &SCENARIOS)
}

/// The number of the read that fails and that of the write, from 1, with 0 for none; the status that is wanted, and how
/// many bytes of the counter's report are written.
static FAULTS: [(u64, u64, u8, usize); 4] = [
    (1, 0, 4, 0),
    (2, 0, 4, 0),
    (0, 1, 5, 0),
    (0, 2, 5, 100),
];

#[test]
fn faults_are_answered(rt: HostRuntime) -> Result<(), Fail> {
    for (read, write, status, count) in &FAULTS {
        let outcome = run(&rt, "run", COUNTER, *read, *write)?;
        assert!(rt; outcome.status == *status && *count <= REPORT.len());
        assert_eq!(rt; outcome.written.as_slice(), &REPORT[..*count]);
    }
    Ok(())
}
