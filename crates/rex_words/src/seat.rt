//! The seat of a lane.
use crate::assignment::Assignment;
use crate::stamped::Stamped;
use crate::view::{Rule, View};
use atomic_table::{Seat, Shared};
use rand_pcg::Lcg64Xsh32;
use rex_state::state::State;
use rex_syntax::request::Request;

/// The words that lanes share.
pub type LockWords = Shared<(), View, Assignment, Rule>;

/// The seat of one lane: what it did, and what it needs to go on. It can be handed to any thread.
#[derive(Drop)]
pub struct WordSeat {
    /// The right to step on the words, and what clauses know of the lane.
    pub seat: Seat<(), View>,
    pub lane: u8,
    /// A state in which the lane runs by itself: the others are idle there, and only the variables that it guards count.
    pub state: State,
    /// The lane's events, with their stamps.
    pub events: Vec<Stamped>,
    /// The stamp of the last; 0 where there is none.
    pub stamp: u64,
    /// The requests that the lane serves, and how many of them it began.
    pub requests: Vec<Request>,
    pub begun: usize,
    /// The lane's next random number, and the generator behind it.
    pub random: u32,
    pub dice: Lcg64Xsh32,
}
