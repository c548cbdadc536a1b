//! Scenarios, and the lines of their schedules.

use rex_list::List;
use rex_syntax::request::Request;
use rex_syntax::version::Version;

/// The most requests of a scenario.
pub const REQUESTS: usize = 65_536;

/// The most lines of a schedule.
pub const SCHEDULE_LINES: usize = 100_000;

/// A line of a schedule. Nodes and messages are numbered from 1, lanes and requests from 0.
#[derive(Drop)]
pub enum ScheduleLine {
    /// The node asks to lead.
    Elect {
        node: u8,
    },
    /// A client hands a request to the node.
    Submit {
        node: u8,
        request: u32,
    },
    /// A lane of the node makes its next event.
    Lane {
        node: u8,
        lane: u8,
    },
    /// The node proposes all its live events.
    Cut {
        node: u8,
    },
    /// The node proposes the greatest consistent cut of its live events with at most so many of each lane.
    CutBelow {
        node: u8,
        limits: List<u32>,
    },
    /// A message is handed over. Messages are numbered as they are sent; as many need not have been sent.
    Deliver {
        message: u64,
    },
    /// Each message that was sent before this line, and that no line handed over yet, is handed over.
    Flush,
    /// The node runs what it knows and has not run yet.
    Replay {
        node: u8,
    },
    /// The node asks another one for what it doesn't know yet.
    Ask {
        node: u8,
        other: u8,
    },
    /// The node is stopped. What it has recorded is left.
    Stop {
        node: u8,
    },
    /// The node is started from what it has recorded.
    Start {
        node: u8,
    },
    /// The node records the state that it has come to, in this version.
    Checkpoint {
        node: u8,
        version: Version,
    },
    /// The node forgets the values of the deltas up to its base.
    DropKnown {
        node: u8,
    },
    /// The next record that the node appends will fail, and be kept or lost.
    KeepFail {
        node: u8,
        kept: bool,
    },
    /// A client reads a variable at the node.
    ReadVariable {
        node: u8,
        client: u16,
        variable: u16,
    },
}

/// The requests and the schedule of a scenario, which its service is read beside.
#[derive(Drop)]
pub struct Scenario {
    /// The number of nodes: 1, 3, 5, 7 or 9.
    pub nodes: u8,
    /// The seed of the random reads.
    pub seed: u32,
    pub requests: List<Request>,
    pub schedule: List<ScheduleLine>,
    /// The line of the first `rwlock`, `cond` or `sem`.
    pub beyond: Option<u32>,
}

impl Scenario {
    ghost use Rattle.std.specs.Prelude.{◌≡◌};

    /// The line, counted over the whole input, of the service's first readers-writer lock, condition or semaphore: what its
    /// lanes can't record by lock words.
    pub fn beyond_words(&self) -> Option<u32>
        ensures { result ≡ self.now.beyond }
    {
        self.beyond
    }
}
