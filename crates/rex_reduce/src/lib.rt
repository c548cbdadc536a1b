//! The least causes that are right for the events of a trace.
#![tactic(auto)]

pub mod laws;
mod names;
mod reduction;
mod row;
mod rows;
mod summary;
mod tables;
mod uses;

pub use reduction::{Causes, reduce};
