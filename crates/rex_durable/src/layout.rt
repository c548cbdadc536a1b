//! Where the parts of a record's bytes stand.

/// The number of the kind, in the first byte.
pub const PROMISED: u8 = 1;

pub const ACCEPTED: u8 = 2;

pub const KNOWN: u8 = 3;

pub const CHECKPOINT: u8 = 4;

pub const DROPPED: u8 = 5;

pub const TRANSFERRED: u8 = 6;

/// How many bytes stand before a known value, or a state of a checkpoint or one that was taken over: the kind, of 1 byte, the instance or the
/// number of values, of 4 bytes, and the length, of 4 bytes.
pub const HEAD: usize = 9;

/// The most bytes that stand before a value: those of [`HEAD`], and the ballot of an accepted one, of 8 bytes.
pub const LONGEST_HEAD: usize = HEAD + 8;
