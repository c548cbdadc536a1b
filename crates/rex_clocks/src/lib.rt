//! Vector clocks: which events of a trace an event comes after.
#![tactic(auto)]

mod clock;
pub mod laws;

pub use clock::Clock;
