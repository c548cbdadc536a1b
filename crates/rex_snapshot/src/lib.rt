//! The bytes of a state in two versions, both ways.
#![tactic(auto)]

mod ahead;
mod allowed;
pub mod laws;
mod limits;
mod locksets;
mod loops;
mod parts;
mod read_clients;
mod read_lanes;
mod read_queues;
mod read_state;
mod read_variables;
mod semaphores;
mod write_lanes;
mod write_state;
mod write_variables;

pub use allowed::version_in;
pub use limits::SNAPSHOT_BYTES;
pub use read_state::decode;
pub use rex_wire::DecodeError;
pub use write_state::{encode, encode_old};
