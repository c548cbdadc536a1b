//! Scenarios of three nodes that are made up from two numbers, for long runs.
#![tactic(auto)]

mod commands;
mod rounds;
mod texts;

pub use texts::scenario;
