//! Lines, words and numbers of a text.
//!
//! A text is bytes. [`raw_lines`] gives its lines as they stand, [`lines`] gives those that are not
//! skipped as [`Words`], and [`words`] splits one line. [`find_words`] puts the words of a line into a
//! list, which may take memory. [`read_u64`] and [`read_i64`] read a word as a number. Splitting by
//! iterators and reading need no memory.
#![tactic(auto)]

mod cuts;
mod iterators;
mod line_words;
mod numbers;
mod starts;

pub use iterators::{Lines, RawLines, Words};
pub use line_words::{find_words, is_clean};
pub use numbers::{read_i64, read_u64};
pub use starts::{lines, raw_lines, words};
