//! What is reported of what a node answers, as effects and as steps.
#![tactic(auto)]

mod effects;
mod serving;
mod steps;
mod tracing;

pub use effects::{effect_of, read_effect};
pub use serving::{Call, serve, told};
pub use steps::{answered, joined, step_of, turned};
pub use tracing::push_values;
