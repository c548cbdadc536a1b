//! The board.
use crate::recording::Recording;
use crate::view::{Rule, View};
use atomic_table::{Seat, Table};
use rex_event::{Cause, Event};
use rex_list::List;
use rex_state::state::State;
use rex_syntax::checked::Checked;
use std::alloc::Global;

/// Events that run from a state, and what lanes that replay them share: for each lane a word with how many events it did,
/// and for each variable a word with its value. Lanes step on it side by side, and take no lock.
#[derive(Drop)]
pub struct Board<'a> {
    pub svc: &'a Checked,
    /// The state before the events.
    pub state: State,
    pub events: &'a [Event],
    /// The lane of each event.
    pub event_lanes: Vec<u8>,
    /// The causes of each event.
    pub causes: &'a [List<Cause>],
    /// The words: one for each of the most lanes, then one for each variable.
    pub table: Table<(), View, Recording, Rule, Global>,
}

/// The seat of whoever made the board. It takes in the lanes' seats in the end.
pub type Host = Seat<(), View>;

/// What came of a step.
#[derive(Clone, Copy, PartialEq, Eq)]
pub enum BoardTurn {
    /// The lane did its next event.
    Done(Event),
    /// A cause of the lane's next event wasn't done yet: a load found only `seen` events of its lane.
    Blocked { lane: u8, index: u32, seen: u64 },
    /// The lane has no event left.
    Finished,
}
