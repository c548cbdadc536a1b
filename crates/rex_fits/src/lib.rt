//! Whether values fit, one after another: each spells a delta of the service, with the least causes, whose events run from the state
//! after those before it.
#![tactic(auto)]

mod applied;
mod causes;
mod clocks;
mod pieces;
mod running;

pub use applied::Applied;
pub use clocks::clock_after;
