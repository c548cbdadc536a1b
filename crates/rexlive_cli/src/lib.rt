//! What the program `rexlive` does, from its words and a source's bytes to a sink's bytes and a status.
#![tactic(auto)]

mod answers;
mod histories;
mod recording;
mod running;

pub use recording::Recording;
pub use running::live_main;
