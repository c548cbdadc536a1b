//! The tests of the libraries below a node and beside it, by their public calls alone: a file for each library. There is nothing
//! here for a program to use.
//!
//! A crate that has tests is proved once more with them, so they stand in this one, in `rex_format_tests` and in `rex_run_tests`.
#![tactic(auto)]

#[cfg(test)]
mod ballot;
#[cfg(test)]
mod board;
#[cfg(test)]
mod clocks;
#[cfg(test)]
mod command;
#[cfg(test)]
mod crew;
#[cfg(test)]
mod cut;
#[cfg(test)]
mod event;
#[cfg(test)]
mod gate;
#[cfg(test)]
mod generator;
#[cfg(test)]
mod identity;
#[cfg(test)]
mod list;
#[cfg(test)]
mod lockset;
#[cfg(test)]
mod net;
#[cfg(test)]
mod node_command;
#[cfg(test)]
mod parse;
#[cfg(test)]
mod paxos;
#[cfg(test)]
mod reads;
#[cfg(test)]
mod record;
#[cfg(test)]
mod reduce;
#[cfg(test)]
mod replay;
#[cfg(test)]
mod scenario;
#[cfg(test)]
mod services;
#[cfg(test)]
mod state;
#[cfg(test)]
mod streams;
#[cfg(test)]
mod syntax;
#[cfg(test)]
mod text;
#[cfg(test)]
mod threads;
#[cfg(test)]
mod traits;
#[cfg(test)]
mod transfer;
