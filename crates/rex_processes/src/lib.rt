//! A cluster whose nodes are processes of their own: what may happen to them, and what holds of every run of them, since what each does
//! is what its node does in the model of the cluster.
#![tactic(auto)]

pub mod laws;
