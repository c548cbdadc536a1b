//! The bytes of a delta, both ways.
#![tactic(auto)]

mod check_delta;
mod events_alone;
mod lane_counts;
mod laws;
mod limits;
mod pass_events;
mod pass_kinds;
mod read_delta;
mod read_events;
mod read_kinds;
mod replying;
mod write_delta;
mod write_events;
mod write_kinds;

pub use check_delta::check;
pub use events_alone::{append_events, decode_events};
pub use laws::no_spelling_begins_another;
pub use read_delta::decode;
pub use replying::may_reply;
pub use rex_wire::DecodeError;
pub use write_delta::encode;
