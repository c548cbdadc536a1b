//! Gates that watch the workers of a crew, and hold one of them.

use rex_traits::Gate;
use std::hint::spin_loop;
use std::sync::atomic::{AtomicU64, Ordering};

/// How often a worker that is held looks at most whether it may go on. One that looked so often goes on, and that is noted.
const LOOKS: u64 = 1 << 30;

/// How many turns of a loop a worker stays before it gives up what others wait for, so that they are asleep by then: some ten
/// milliseconds.
const TURNS: u32 = 1 << 19;

/// A gate for two lanes that begin with no events done. It holds one worker until another one enters with index 1: the
/// second event of its lane. There the other one stays until the first one has entered, so that it is held.
#[derive(Drop)]
pub(crate) struct HoldingGate {
    held: u8,
    until: u8,
    /// Whether it says that it is open, so that a worker may make several tries between two of its entries.
    open: bool,
    /// Whether the worker that is held entered: 1, or else 0.
    entered: AtomicU64,
    /// Whether the other worker came: 1, or else 0.
    came: AtomicU64,
    /// How many holds ended with no sight of the other worker.
    gave_up: AtomicU64,
    /// For each lane one more than the index that was entered last; 0 before.
    last: [AtomicU64; 2],
    /// How often an index was entered that is neither its lane's last one nor the next, or another lane.
    astray: AtomicU64,
    /// How often worker 0 entered the events 0, 1 and 2 of lane 0.
    first: [AtomicU64; 3],
}

fn zero() -> AtomicU64 {
    AtomicU64::new(0)
}

/// Looks until a word isn't 0, up to a bound, and whether it then isn't.
fn is_seen(word: &AtomicU64) -> bool {
    for _ in 0..LOOKS {
        if word.load(Ordering::SeqCst) > 0 {
            return true;
        }
    }
    false
}

impl HoldingGate {
    /// A gate that holds worker `held` until worker `until` enters with index 1.
    pub(crate) fn new(held: u8, until: u8) -> HoldingGate {
        HoldingGate::that(held, until, false)
    }

    /// The same of a gate that says that it is open, and holds worker `held` until worker `until` enters with index 1 or a
    /// later one.
    pub(crate) fn open(held: u8, until: u8) -> HoldingGate {
        HoldingGate::that(held, until, true)
    }

    fn that(held: u8, until: u8, open: bool) -> HoldingGate {
        HoldingGate {
            held,
            until,
            open,
            entered: zero(),
            came: zero(),
            gave_up: zero(),
            last: [zero(), zero()],
            astray: zero(),
            first: [zero(), zero(), zero()],
        }
    }

    /// Waits until another worker was seen, up to a bound.
    fn hold(&self, seen: &AtomicU64) {
        if self.gave_up.load(Ordering::SeqCst) == 0 && !is_seen(seen) {
            self.gave_up.fetch_add(1, Ordering::SeqCst);
        }
    }

    /// Notes that an event of a lane was entered.
    fn note(&self, lane: u8, index: u32) {
        let next = u64::from(index) + 1;
        let is_near = match self.last.get(lane as usize) {
            Some(last) => {
                let before = last.swap(next, Ordering::SeqCst);
                before == next || before == u64::from(index) || (self.open && before < next)
            }
            None => false,
        };
        if !is_near {
            self.astray.fetch_add(1, Ordering::SeqCst);
        }
    }

    /// Whether both workers came, the one that was held before the other one went on from its lane's second event; each
    /// hold ended as the other worker came; and no lane's entered index fell or skipped.
    pub(crate) fn is_kept(&self) -> bool {
        self.entered.load(Ordering::SeqCst) == 1
            && self.came.load(Ordering::SeqCst) == 1
            && self.gave_up.load(Ordering::SeqCst) == 0
            && self.astray.load(Ordering::SeqCst) == 0
    }

    /// Whether worker 0 entered each of the events 0, 1 and 2 of lane 0 once.
    pub(crate) fn entered_once(&self) -> bool {
        self.first
            .iter()
            .all(|count| count.load(Ordering::SeqCst) == 1)
    }
}

impl Gate for HoldingGate {
    fn enter(&self, worker: u8, lane: u8, index: u32) {
        self.note(lane, index);
        if worker == 0 && lane == 0 {
            if let Some(count) = self.first.get(index as usize) {
                count.fetch_add(1, Ordering::SeqCst);
            }
        }
        if worker == self.until && (index == 1 || (self.open && index > 1)) {
            self.hold(&self.entered);
            self.came.store(1, Ordering::SeqCst);
        }
        if worker == self.held {
            self.entered.store(1, Ordering::SeqCst);
            self.hold(&self.came);
        }
    }

    fn is_open(&self) -> bool {
        self.open
    }
}

/// A gate that lets every worker pass at once, says so, and counts how often one did.
#[derive(Drop)]
pub(crate) struct CountingGate {
    entries: AtomicU64,
}

impl CountingGate {
    /// A gate that nobody passed yet.
    pub(crate) fn new() -> CountingGate {
        CountingGate { entries: zero() }
    }

    /// How often a worker passed.
    pub(crate) fn entries(&self) -> u64 {
        self.entries.load(Ordering::SeqCst)
    }
}

impl Gate for CountingGate {
    fn enter(&self, _worker: u8, _lane: u8, _index: u32) {
        self.entries.fetch_add(1, Ordering::SeqCst);
    }

    fn is_open(&self) -> bool {
        true
    }
}

/// A gate at which lanes that wait for what lane 0 gives up fall asleep. The other workers stay at it until worker 0 enters with
/// an index, up to a bound; there worker 0 stays for a while.
#[derive(Drop)]
pub(crate) struct SleepingGate {
    index: u32,
    /// Whether it says that it is open.
    open: bool,
    /// Whether worker 0 entered with the index, or another one looked for that as often as it may: 1, or else 0.
    came: AtomicU64,
}

impl SleepingGate {
    /// A gate at which worker 0 stays for a while before its event of this index.
    pub(crate) fn new(index: u32, open: bool) -> SleepingGate {
        SleepingGate {
            index,
            open,
            came: zero(),
        }
    }
}

impl Gate for SleepingGate {
    fn enter(&self, worker: u8, _lane: u8, index: u32) {
        if worker > 0 {
            if !is_seen(&self.came) {
                self.came.store(1, Ordering::SeqCst);
            }
        } else if index == self.index {
            self.came.store(1, Ordering::SeqCst);
            for _ in 0..TURNS {
                spin_loop();
            }
        }
    }

    fn is_open(&self) -> bool {
        self.open
    }
}
