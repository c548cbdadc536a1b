//! The seat of a lane.
ghost use Rattle.rex_board.specs.Seated.{IsSeated};

use crate::recording::Recording;
use crate::view::{Rule, View};
use atomic_table::{Seat, Shared};
use rex_event::LANES;
use rex_frame::frame::Frame;

/// The words that lanes share.
pub type Words = Shared<(), View, Recording, Rule>;

/// The seat of one lane: how far the lane came, and what it needs to go on. It can be handed to any thread.
#[derive(Drop)]
pub struct LaneSeat {
    /// The right to step on the words, and what clauses know of the lane.
    pub seat: Seat<(), View>,
    pub lane: u8,
    /// How many events the lane did.
    pub done: u32,
    /// The place of the lane's next event among all events; behind the last if it has none.
    pub place: usize,
    /// For each lane a number of events that it is known to have done.
    pub bounds: [u64; LANES],
    pub frame: Option<Frame>,
    /// Copies of all variables, of which those count whose guards the lane holds.
    pub copies: Vec<i64>,
    ghost seated: { IsSeated seat lane done bounds frame copies.items },
}
