//! Reads of variables at nodes that don't lead: how far into the agreed list a client has seen, and what it is told.
#![tactic(auto)]

mod seen;

pub use seen::{Read, Seen, admitted};
