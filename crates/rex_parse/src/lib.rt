//! The service language: its grammar, and a reader that answers the first bad line with the least code that fits.
#![tactic(auto)]

mod block_forms;
mod block_lines;
mod blocks;
mod codes;
mod copying;
mod exprs;
mod forms;
mod language;
pub mod laws;
mod least;
mod line_forms;
mod lines;
mod name_table;
mod names;
mod parser;
mod placing;
mod reading;
mod taking;
mod targets;
mod words;

pub use blocks::{BlockKind, Blocks, OpenBlock};
pub use language::{Above, Entry, Fault, Form, Meaning, OpenHandler, ReadError, ServiceCode};
pub use name_table::NameTable;
pub use parser::Parser;
pub use reading::{first_bad_line, read_service, services_are_typed};
pub use words::is_name;
