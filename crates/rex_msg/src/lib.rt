//! Messages between nodes, and their bytes, both ways.
#![tactic(auto)]

mod fields;
mod laws;
mod limits;
mod message;
mod read_content;
mod read_message;
mod read_proposals;
mod write_content;
mod write_message;
mod write_proposals;

pub use laws::no_spelling_begins_another;
pub use message::{Content, Message};
pub use read_message::decode;
pub use rex_wire::DecodeError;
pub use write_message::encode;
