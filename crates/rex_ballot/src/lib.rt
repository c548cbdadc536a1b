//! What nodes agree on and how they number it: values, nodes, ballots, instances, proposals.
#![tactic(auto)]

mod ballots;
pub mod laws;
mod proposal;
mod proposals;

pub use ballots::{
    INSTANCES, NODES, ROUND_BALLOTS, ROUNDS, TOLD_VALUES, ballot_above, is_ballot, is_instance,
    is_node, node_of,
};
pub use proposal::{Proposal, VALUE_BYTES, Value, copy_all};
pub use proposals::Proposals;
