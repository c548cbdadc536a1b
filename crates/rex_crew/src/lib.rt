//! A crew of threads that replays events side by side on a board.
#![tactic(auto)]

mod alone;
mod complete;
mod crew;
mod dealing;
mod replay;
mod rounds;
mod together;
mod work;
mod workers;

pub use crew::Crew;
