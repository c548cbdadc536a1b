//! What a scenario has, and what it may name.
#![tactic(auto)]

mod scenario;

pub use scenario::{REQUESTS, SCHEDULE_LINES, Scenario, ScheduleLine};
