//! A write-ahead log: a keeper of records on a disk whose writes tear between bytes only. An append takes one write and one sync.
//!
//! A journal begins with its head, and then has its records, each spelled without any byte 0 and with an end mark behind it. Behind the last
//! one all bytes are 0. So a record whose write was torn, of which some byte is still 0, isn't taken for a whole one.
#![tactic(auto)]

mod file;
mod keeper;
pub mod laws;
mod parse;
mod spell;

pub use keeper::WalKeeper;
pub use rex_journal::{OpenFault, Refused};
