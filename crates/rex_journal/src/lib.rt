//! A keeper of records on a disk whose writes may tear.
//!
//! A journal is a list of records, each behind a gate byte that is 1, and then a gate byte that isn't. A record is its
//! length, as four bytes, the most significant first, and its bytes.
#![tactic(auto)]

mod fault;
mod file;
mod keeper;
pub mod laws;
mod parse;
mod store;

pub use fault::{OpenFault, Refused};
pub use keeper::JournalKeeper;
