//! What the program `rexnode` does: how it reads the text of its service, and how its node runs on a disk, from a source's bytes to a
//! sink's bytes and a status; and how it writes the trace of a journal.
#![tactic(auto)]

mod answers;
mod handed_back;
mod loading;
mod owning;
mod running;
mod statuses;
mod tracing;

pub use answers::usage;
pub use handed_back::HandedBack;
pub use loading::{Loaded, NotLoaded, load_service};
pub use running::node_main;
pub use statuses::{DISK_FAILED, JOURNAL_LOCKED, OUT_OF_MEMORY, READ_FAILED};
pub use tracing::trace_main;
