//! A board on which lanes replay recorded events side by side, each event as soon as its causes are done.
#![tactic(auto)]

mod board;
mod causes;
mod finish;
pub mod laws;
mod perform;
mod places;
mod plays;
mod recording;
mod seat;
mod start;
mod step;
mod variables;
mod view;

pub use board::{Board, BoardTurn, Host};
pub use recording::Recording;
pub use seat::{LaneSeat, Words};
pub use view::{Gathered, Knowledge, Role, Rule, View};
