//! Events of lanes: what a lane did, and how many events it did before.

use rex_list::Arguments;

/// The most lanes of a trace.
pub const LANES: usize = 64;

/// The most clients. They are numbered from 1.
pub const CLIENTS: u16 = 256;

/// How many entries a table has that is indexed by a client's number. The first is nobody's.
pub const CLIENT_ENTRIES: usize = CLIENTS as usize + 1;

/// The most requests of a client: their sequence numbers are from 1 on.
pub const SEQUENCES: u32 = 1_000_000;

/// What a lane did. Lanes, handlers, locks, conditions and semaphores are numbered from 0.
#[derive(Clone, Copy, PartialEq, Eq)]
pub enum Kind {
    /// An idle lane began a client's request.
    Begin {
        client: u16,
        sequence: u32,
        handler: u8,
        arguments: Arguments,
    },
    /// A lock was taken exclusively.
    AcqEx {
        lock: u8,
    },
    /// A share of a readers-writer lock was taken.
    AcqSh {
        lock: u8,
    },
    /// An exclusive hold was given up.
    RelEx {
        lock: u8,
    },
    /// A shared hold was given up.
    RelSh {
        lock: u8,
    },
    /// A `try` got its lock.
    TryOk {
        lock: u8,
    },
    /// A `try` went on at its `busy` branch.
    TryBusy {
        lock: u8,
    },
    /// The lane gave up its lock and waits.
    Wait {
        condition: u8,
        lock: u8,
    },
    /// A signalled lane took its lock again.
    Wake {
        condition: u8,
        lock: u8,
    },
    /// The lane that had waited longest was signalled, if any waited.
    Signal {
        condition: u8,
        woken: Option<u8>,
    },
    /// All waiting lanes were signalled: lane `l` is bit `l`.
    Broadcast {
        condition: u8,
        woken: u64,
    },
    /// A read of the clock.
    Clock {
        value: i64,
    },
    /// A read of the random generator.
    Random {
        value: u32,
    },
    /// The request was replied to, and the lane is idle.
    Reply {
        client: u16,
        value: i64,
    },
    /// One was taken off a semaphore's value.
    Down {
        semaphore: u8,
    },
    /// One was added to a semaphore's value.
    Up {
        semaphore: u8,
    },
}

/// An event of a lane. The index is how many events the lane did before.
#[derive(Clone, Copy, PartialEq, Eq)]
pub struct Event {
    pub lane: u8,
    pub index: u32,
    pub kind: Kind,
}
