//! Jobs on threads of their own.
#![tactic(auto)]

mod jobs;
mod pair;
mod parallelism;

pub use jobs::map_vec;
pub use pair::both;
pub use parallelism::{WORKERS, processors};
