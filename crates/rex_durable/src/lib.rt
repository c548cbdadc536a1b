//! The records of a node: how they are spelled, how one is appended to a keeper, and what they say of the node when it
//! comes back.
#![tactic(auto)]

mod fault;
mod fields;
mod keeping;
mod latest;
pub mod laws;
pub mod layout;
mod read;
mod records;
mod recovery;
mod write;

pub use fault::RecoverFault;
pub use keeping::append;
pub use records::{Rec, Standing};
pub use recovery::{Recovered, recover};
