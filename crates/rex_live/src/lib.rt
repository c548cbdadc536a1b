//! A floor, on which each lane of a service is a thread: the lanes' events under one lock are one history. The lines between
//! two events of a lane run outside the lock, on copies of what the lane may read.
#![tactic(auto)]

mod desk;
mod events;
mod floor;
pub mod laws;
mod lending;
mod needs;
mod permits;
mod places;
mod segment;
mod setting;
mod tries;
mod wakers;

pub use floor::{Floor, run_lanes};
pub use setting::Setting;
