//! Consistent cuts of a trace, and the deltas that they cut off.
#![tactic(auto)]

mod cuts;
mod delta;
pub mod laws;

pub use cuts::greatest;
pub use delta::delta_of;
