//! The answers that clients get to their requests.
#![tactic(auto)]

mod answer;
mod answers;
mod clients;
pub mod laws;
mod numbers;

pub use answer::Answer;
pub use answers::Answers;
pub use clients::{entry_of, note_kind};
