//! The loop that answers the frames of a process.
#![tactic(auto)]

mod acting;
mod answering;
mod asking;
pub mod laws;
mod serving;

pub use serving::{Ended, serve};
