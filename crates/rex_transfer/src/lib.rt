//! The values of the agreed list that a node holds: those past an offset, which it forgot or never had.
#![tactic(auto)]

pub mod laws;
mod window;

pub use window::{Look, Window};
