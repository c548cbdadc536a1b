//! Lists that contracts see as lists: one on the heap, and one of a few numbers that takes no memory.
#![tactic(auto)]

mod arguments;
mod list;

pub use arguments::{ARGUMENTS, Arguments};
pub use list::List;
