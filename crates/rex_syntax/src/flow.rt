//! Where a line leads, and why it is refused.

use crate::locks::Lockset;

/// Why the check refuses a line or a handler.
#[derive(Clone, Copy, PartialEq, Eq, Debug)]
pub enum CheckCode {
    /// C1: an expression reads a variable whose guard isn't held.
    UnguardedRead,
    /// C2: a variable is set whose guard isn't held exclusively.
    UnguardedWrite,
    /// C3: a lock is released that isn't held.
    NotHeld,
    /// C4: a lock is taken whose number isn't above all held ones, or tried while it is held.
    OutOfOrder,
    /// C5: the branches of an `if` or a `try` end with different locksets.
    BranchesDiffer,
    /// C6: a loop's body ends with another lockset than it began with.
    LoopDiffers,
    /// C7: a lock is held at a reply.
    HeldAtReply,
    /// C8: a wait while not exactly its lock is held, or a signal without its lock.
    ConditionLock,
    /// C9: the bound on steps is above the most.
    TooLong,
    /// C10: a lock is held where a semaphore is taken down.
    HeldAtDown,
}

/// A line other than the next one, and what is held there, where a line leads there.
#[derive(Clone, Copy, PartialEq, Eq)]
pub struct Target {
    pub line: u16,
    pub held: Option<Lockset>,
}

/// What is held at the next line and at another one, where a line leads there.
#[derive(Clone, Copy, PartialEq, Eq)]
pub struct Leads {
    pub next: Option<Lockset>,
    pub other: Target,
}
