//! The greatest numbers of a message's fields.

use rex_ballot::INSTANCES;

/// The version of the spelling.
pub const VERSION: u8 = 1;

/// How many kinds of messages there are.
pub const KINDS: u8 = 8;

/// The greatest first instance that is asked for: the one after the last.
pub const GREATEST_FIRST: u32 = INSTANCES + 1;
