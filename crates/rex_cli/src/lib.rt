//! What the program `rex` does, from its words and a source's bytes to a sink's bytes and a status.
#![tactic(auto)]

mod answers;
mod generated;
mod running;
mod worlds;

pub use running::rex_main;
