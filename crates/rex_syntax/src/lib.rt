//! The service language: what a service declares, its lines, expressions and locks, and what its check says.
#![tactic(auto)]

pub mod checked;
pub mod expr;
pub mod flow;
mod held;
pub mod line;
pub mod locks;
pub mod names;
pub mod request;
pub mod service;
pub mod version;
