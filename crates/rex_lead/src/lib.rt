//! A world that is led through a history: one node leads it to agreement in blocks, and the others replay it.
#![tactic(auto)]

mod doing;
pub mod laws;
mod leading;
mod typed;

pub use leading::lead;
