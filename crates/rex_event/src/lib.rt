//! Events of a trace, which two of them conflict, and pieces of a trace.
#![tactic(auto)]

mod conflicts;
mod delta;
mod event;

pub use conflicts::{conflict, is_waker, named_condition, woke};
pub use delta::{Cause, Cut, DELTA_EVENTS, Delta, HISTORY_EVENTS};
pub use event::{CLIENT_ENTRIES, CLIENTS, Event, Kind, LANES, SEQUENCES};
