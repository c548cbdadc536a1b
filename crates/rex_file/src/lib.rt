//! A disk that is a file of the operating system.
//!
//! No clause can say what a file gives or what a stop leaves of it. So [`FileDisk`] keeps, for clauses alone, the bytes that it
//! was opened with and a record of its writes and syncs, and what a disk says of its bytes and of stops is said of that record.
//! What is trusted is that a stop leaves of the file one of the images that the record allows.
#![tactic(auto)]

mod byte_atomic;
mod call_trail;
mod file_disk;
mod file_fault;
mod opening;

pub use byte_atomic::ByteAtomic;
pub use file_disk::FileDisk;
pub use file_fault::FileFault;
pub use opening::open_path;
