//! Causes of events, cuts of a trace, and deltas, which are its pieces.

ghost use Rattle.std.specs.Prelude.{◌≡◌};
ghost use Rattle.rex_event.specs.Cuts.{is_below};

use crate::Event;
use rex_list::List;

/// The most events of a delta.
pub const DELTA_EVENTS: usize = 4096;

/// The most events of a history: those of as many deltas of the most events as there may be instances of agreement.
pub const HISTORY_EVENTS: usize = 268_431_360;

/// An event on which another one rests, by its lane and its index.
#[derive(Clone, Copy, Debug, PartialEq, Eq)]
pub struct Cause {
    pub lane: u8,
    pub index: u32,
}

/// A moment of a trace: for each lane, from the first on, how many events it did before. Where no event below a cut has a
/// cause above it the cut is consistent (Chandy and Lamport, 1985).
#[derive(Drop)]
pub struct Cut {
    pub counts: List<u32>,
}

impl Cut {
    /// Whether an event is below the cut.
    pub fn contains(&self, event: &Event) -> bool
        ensures { result ≡ is_below self.now.counts event.now }
    {
        match self.counts.as_slice().get(event.lane as usize) {
            Some(count) => event.index < *count,
            None => false,
        }
    }
}

/// A piece of a trace: for each lane how many events it did before the piece, the events, and for each event its causes
/// in the piece, rising by lane.
#[derive(Drop)]
pub struct Delta {
    pub bases: List<u32>,
    pub events: List<Event>,
    pub causes: List<List<Cause>>,
}
