//! Scenarios: a service, requests, and a schedule of steps, read from a text.
#![tactic(auto)]

mod beyond;
mod headings;
pub mod laws;
mod reader;
mod reading;
mod request_list;
mod requests;
mod scenario;
mod schedule;
mod words;

pub use reading::{
    SCENARIO_BYTES, first_bad_line, no_schedule_lines, read_scenario, read_unscheduled,
    scenarios_are_typed,
};
pub use scenario::{Scenario, ScenarioCode, ScenarioError, ScheduleLine, Sections, Stage};
