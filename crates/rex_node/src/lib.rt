//! One node of a cluster: what it answers to clients, lanes, messages of other nodes and its own schedule, each call the same
//! as in the cluster's model.
#![tactic(auto)]

mod acting;
mod arming;
mod bounds;
mod checkpointing;
mod choosing;
mod contents;
mod counting;
mod cutting;
mod decoded;
mod electing;
mod flushing;
mod going;
mod leading;
mod messages;
mod migrating;
mod node;
mod pieces;
mod promising;
mod reached;
mod refusal;
mod replaying;
mod replies;
mod restart;
mod step;
mod telling;
mod transferring;
mod values;
mod writing;

pub use acting::release_effect;
pub use node::Node;
pub use refusal::Refusal;
pub use restart::{NotStarted, RestartFault};
pub use step::Step;
pub use values::{events_in, replay_values};
