//! The states that a service comes to, and the events that lead from one to the next.
#![tactic(auto)]

mod apply;
mod can;
pub mod lane;
pub mod laws;
mod own;
mod parts;
pub mod state;

pub use apply::MOST_VALUE;
pub use can::{can_begin, client_allows, semaphores_allow};
pub use own::{do_own, run_on, start_lane};
pub use parts::new_entries;
