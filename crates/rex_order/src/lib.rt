//! Which orders of a trace's events lead to the same state: replay in any order that the recorded edges allow (traces as
//! partial orders: Mazurkiewicz, Concurrent Program Schemes and their Interpretations, 1977).
#![tactic(auto)]

pub mod laws;
