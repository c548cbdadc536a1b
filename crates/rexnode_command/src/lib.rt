//! The command line of the program `rexnode`, read by one `clap` command without help or version.
#![tactic(auto)]

mod application;
mod command;
pub mod laws;
mod reading;

pub use command::Command;
pub use reading::command_of;
