//! The tests of nodes, worlds and programs, over memory: calls of a node, the runs of whole scenarios, lanes as threads, the
//! words by which they lock, and failing devices; and of journals in files. There is nothing here for a program to use.
//!
//! They stand apart from `rex_tests` and `rex_format_tests`, so that those are proved while nodes and worlds still are.
#![tactic(auto)]

#[cfg(test)]
mod cli;
#[cfg(test)]
mod devices;
#[cfg(test)]
mod files;
#[cfg(test)]
mod gates;
#[cfg(test)]
mod live;
#[cfg(test)]
mod node;
#[cfg(test)]
mod runs;
#[cfg(test)]
mod services;
#[cfg(test)]
mod words;
#[cfg(test)]
mod world;
