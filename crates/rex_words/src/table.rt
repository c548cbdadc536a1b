//! The words that lanes share.
use crate::assignment::Assignment;
use crate::view::{Rule, View};
use atomic_table::{Seat, Table};
use rex_event::Event;
use rex_syntax::checked::Checked;
use std::alloc::Global;

/// What lanes that record side by side share: for each lock a word with the stamp of its last acquisition or release and
/// its holder, and for each variable a word with its value. Lanes step on it without a lock.
#[derive(Drop)]
pub struct Words<'a> {
    pub svc: &'a Checked,
    /// The words: one for each lock, then one for each variable, and one more that none looks at.
    pub table: Table<(), View, Assignment, Rule, Global>,
}

/// The seat of whoever made the words. It takes in the lanes' seats in the end.
pub type Host = Seat<(), View>;

/// What came of a step.
#[derive(Clone, Copy, PartialEq, Eq)]
pub enum WordTurn {
    /// The lane did its next event.
    Done(Event),
    /// The lane is to acquire a lock in whose word a load found an owner: lane `by`, numbered from 1.
    Held { by: u8, seen: u64 },
    /// A load found `had` in the lock's word, without an owner, and then the lane's exchange found `seen` there.
    Again { had: u64, seen: u64 },
    /// The lane is idle, and has no request that may begin.
    Idle,
    /// The lane is idle, and has more than `IDLE_EVENTS` events, too many to begin its next request.
    Full,
}
