//! Devices that fail at each of their calls in turn, while three nodes agree.

ghost use Rattle.std.specs.Prelude.{Some};
ghost use Rattle.rex_traits.specs.Memory.{mem_ended, mem_given, mem_left, reads};

use crate::runs::status_over;
use rex_traits::{Failed, MemSink, MemSource, OpenGate, Source};
use std::alloc::AllocGlobal;
use std::test::*;
use std::thread::Threads;

/// Three nodes, of which the third is silent: the leader's proposal is agreed once the second node accepts it.
const COMMIT: &[u8] = b"%nodes 3
%service
lanes 2
lock L
var a on L = 0
handler add x
acquire L
set a = a + x
let r = a
release L
reply r
%requests
1 1 add 5
2 1 add 7
%schedule
elect 1
deliver 1
deliver 3
submit 1 1
lane 1 1
lane 1 1
lane 1 1
lane 1 1
cut 1
deliver 4
deliver 6
";

/// Its report.
const COMMITTED: &[u8] = b"1 node 1 candidate ballot 17
1 sent 1 prepare 1 2
1 sent 2 prepare 1 3
2 message 1 prepare 1 2
2 node 2 promised 17
2 sent 3 promise 2 1
3 message 3 promise 2 1
3 node 1 active ballot 17
4 queued
5 lane 1 0 begin 1 1 add 5
6 lane 1 1 acquire L
7 lane 1 2 release L
8 lane 1 3 reply 1 5
9 node 1 proposes 1 events 4
9 sent 4 accept 1 2
9 sent 5 accept 1 3
10 message 4 accept 1 2
10 node 2 accepted 17 1
10 sent 6 accepted 2 1
11 message 6 accepted 2 1
11 node 1 known 1
11 released 1 1 5
11 sent 7 chosen 1 2
11 sent 8 chosen 1 3
end node 1 active promised 17 known 1 live 0 a=5
end node 2 follower promised 17 known 0 replayed 0 a=0
end node 3 follower promised 0 known 0 replayed 0 a=0
";

/// More than the bytes of either.
const WHOLE: usize = 65_536;

/// A source in memory that gives a few bytes at a time.
#[derive(Drop)]
struct Slow {
    source: MemSource,
    most: usize,
}

impl Source for Slow {
    ghost given = { λ s. mem_given s.source };

    ghost ended = { λ s. mem_ended s.source };

    ghost left = { λ s. Some (mem_left s.source) };

    ghost faults = { λ s. (reads s.source).faults };

    ghost calls = { λ s. (reads s.source).calls };

    fn read(&mut self, buf: &mut [u8]) -> Result<usize, Failed> {
        let count = self.most.max(1).min(buf.len());
        self.source.read(&mut buf[..count])
    }
}

/// Runs the program over devices that move at most this many bytes a call. The read and the write of these numbers, from
/// 1, fail; 0 is none. Whether the status is this one, and what was written the report's first `count` bytes.
fn gives<R: Threads + Sync + AllocGlobal>(
    rt: &R,
    most: usize,
    (read, write): (u64, u64),
    status: u8,
    count: usize,
) -> Result<bool, Fail> {
    let alloc = rt.alloc();
    let source = MemSource::new(Vec::from_slice(alloc, COMMIT)?, vec![in alloc; read]?);
    let mut source = Slow { source, most };
    let mut sink = MemSink::new(alloc, vec![in alloc; write]?, most);
    let answer = status_over(rt, "run", &mut source, &mut sink, &OpenGate)?;
    let written = sink.held();
    Ok(answer == status && written.len() == count && COMMITTED.starts_with(written))
}

/// The greatest piece, the number of the read that fails and that of the write, the status, and how much is written.
type Case = (usize, u64, u64, u8, usize);

static CASES: [Case; 6] = [
    (WHOLE, 1, 0, 4, 0),
    (WHOLE, 2, 0, 4, 0),
    (WHOLE, 3, 0, 0, COMMITTED.len()),
    (WHOLE, 0, 1, 5, 0),
    (WHOLE, 0, 2, 0, COMMITTED.len()),
    (1, 0, 0, 0, COMMITTED.len()),
];

#[test]
fn whole_and_small_pieces(rt: HostRuntime) -> Result<(), Fail> {
    for (most, read, write, status, count) in &CASES {
        assert!(rt;
            gives(&rt, *most, (*read, *write), *status, *count)?,
            "{most} {read} {write}"
        );
    }
    Ok(())
}

#[test]
fn each_read_fails_in_turn(rt: HostRuntime) -> Result<(), Fail> {
    for done in 0..COMMIT.len() + 1 {
        assert!(rt;
            gives(&rt, 1, (done as u64 + 1, 0), 4, 0)?,
            "after {done} reads"
        );
    }
    Ok(())
}

#[test]
fn each_write_fails_in_turn(rt: HostRuntime) -> Result<(), Fail> {
    for done in 0..COMMITTED.len() {
        assert!(rt;
            gives(&rt, 1, (0, done as u64 + 1), 5, done)?,
            "after {done} writes"
        );
    }
    Ok(())
}
