//! The command line of the program `rex`, read by one `clap` command without help or version.
#![tactic(auto)]

mod application;
mod commands;
pub mod laws;
mod reading;

pub use commands::Command;
pub use reading::{command_of, number_in};
