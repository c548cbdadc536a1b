//! Records in groups: what is appended waits in memory, and a flush hands it to a keeper below as one record, so that a stop leaves
//! all of a group or nothing of it.
#![tactic(auto)]

mod keeper;
pub mod laws;
mod reading;

pub use keeper::{GroupKeeper, NotRead};

/// The first byte of a record that holds others, each behind its length. No record of another kind begins so.
pub const GROUP: u8 = 8;
