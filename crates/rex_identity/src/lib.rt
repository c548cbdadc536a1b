//! Whose a journal is.
//!
//! Two processes with one node's number, or a node that comes up with another one's records, break what nodes agree on. So the first record
//! of a journal says whose it is: [`Identity`]. [`Owned`] is a keeper that begins with such a record, seen without it.
#![tactic(auto)]

mod digest;
mod fault;
mod identity;
pub mod laws;
mod owned;

pub use digest::digest_of;
pub use fault::{ClaimFault, NotOwned};
pub use identity::{CLUSTER_BYTES, IDENTITY_KIND, IDENTITY_VERSION, Identity};
pub use owned::Owned;
