//! What a leader that nothing disturbs comes to: it is elected, gets events in blocks, and each node knows them and has replayed them.
#![tactic(auto)]

pub mod laws;
