//! A node as a process of its own has it. Nobody tells a process that a value runs which it is handed, so it replays each value
//! before it takes it as known; and it sees to it that no lane reads an earlier clock than any that an event shows which it knows.
#![tactic(auto)]

mod answers;
mod flushing;
mod foretelling;
mod hearing;
mod leading;
mod process;
mod running;
mod serving;
mod settling;
mod starting;
mod testing;
mod tracing;

pub use answers::Answer;
pub use process::Process;
pub use running::Ran;
pub use starting::{NotStarted, StartFault};
