//! The frames by which a node as a process is called, and those by which it answers.
#![tactic(auto)]

mod answering;
mod asking;
mod frames;
mod hearing;
mod laws;
pub mod letters;
mod requests;

pub use answering::{Status, push_count, push_effect, push_letter, push_message, push_status};
pub use asking::{Asked, asked_in};
pub use frames::{FRAME_BYTES, Front, front_of};
pub use laws::frames_are_read_back;
