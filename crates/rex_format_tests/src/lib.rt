//! The tests of formats: of what is written and read to the byte, by the public calls of the libraries that do it. There is nothing here
//! for a program to use.
//!
//! A crate that has tests is proved once more with them, so they stand apart, as those of `rex_tests` and `rex_run_tests` do.
#![tactic(auto)]

#[cfg(test)]
mod delta;
#[cfg(test)]
mod durable;
#[cfg(test)]
mod frames;
#[cfg(test)]
mod journal;
#[cfg(test)]
mod msg;
#[cfg(test)]
mod plain;
#[cfg(test)]
mod plain_deltas;
#[cfg(test)]
mod plain_journals;
#[cfg(test)]
mod plain_messages;
#[cfg(test)]
mod plain_records;
#[cfg(test)]
mod plain_snapshots;
#[cfg(test)]
mod report;
#[cfg(test)]
mod services;
#[cfg(test)]
mod snapshot;
#[cfg(test)]
mod wire;
