//! The three parts of Paxos (Lamport, Paxos Made Simple, 2001): acceptor, proposer and learner. Each is the bookkeeping of
//! one node, and says what the node has to answer; sending, and keeping what must outlive the node, are for the layers above.
#![tactic(auto)]

mod acceptor;
mod answers;
pub mod laws;
mod learner;
mod proposer;

pub use acceptor::Acceptor;
pub use answers::{Asked, Choice, Count, Prepared, Vote, Why};
pub use learner::Learner;
pub use proposer::Proposer;
