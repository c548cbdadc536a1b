//! A disk whose writes may tear when the machine stops: what its calls do, and which bytes a stop may leave. A disk in
//! memory keeps a record of its writes and syncs, from which both follow, and fails the calls that are named.
#![tactic(auto)]

mod disk;
mod entry;
mod fill;
mod image;
pub mod laws;
mod mem_disk;
mod plan;

pub use disk::Disk;
pub use fill::Fill;
pub use mem_disk::MemDisk;
pub use plan::Plan;
