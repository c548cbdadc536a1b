//! What the bytes of a node's records and messages say to the cluster's model, where a state that was taken over stands for values
//! that the bytes don't hold: these are the first ones of a list that is named beside the bytes, the past.
#![tactic(auto)]

pub mod laws;
mod past;

pub use past::Past;
