//! Keepers that put records off: what is appended waits for a flush, which keeps all of it for good at once.
#![tactic(auto)]

mod flush;

pub use flush::Flush;
