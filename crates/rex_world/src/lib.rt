//! A world of nodes: what each schedule line does to it, and the report of a whole scenario.
#![tactic(auto)]

mod agreed;
mod calling;
mod calls;
mod delivering;
mod ends;
mod finding;
mod following;
pub mod laws;
mod report;
mod run;
mod seeing;
mod starting;
mod summary;
mod taking;
mod told;
mod tracing;
mod world;

pub use run::RunFault;
pub use summary::{Summary, summarize};
pub use tracing::trace;
pub use world::World;
