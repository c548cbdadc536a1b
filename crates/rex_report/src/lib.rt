//! What a run reports: the effects of each schedule line, and the texts that they and the agreed trace are written as.
#![tactic(auto)]

mod effect;
mod ends;
mod events;
mod pieces;
mod rows;
mod texts;
mod trace;
mod words;

pub use effect::{Effect, MessageKind, Role};
pub use ends::{End, UpEnd, push_end, push_semaphores, push_variables};
pub use events::push_event;
pub use pieces::{Piece, push_pieces};
pub use rows::push_row;
pub use trace::push_delta;
