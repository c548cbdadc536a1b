//! Numbers and values as bytes: reading and writing them, and what all codecs share.
#![tactic(auto)]

mod allowed;
mod fault;
mod reader;
mod value;
mod writer;

pub use allowed::{u8_at_most, u8_between, u8_wanted, u16_between, u32_at_most, u32_between};
pub use fault::{DecodeError, Over, Short};
pub use reader::Reader;
pub use value::{read_value, write_value};
pub use writer::Writer;
