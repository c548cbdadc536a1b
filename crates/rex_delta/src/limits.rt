//! The greatest numbers of a delta's fields.

use rex_event::DELTA_EVENTS;

/// The version of the spelling of events without semaphores.
pub const PLAIN: u8 = 1;

/// The version of the spelling of events of which some is on a semaphore.
pub const COUNTING: u8 = 2;

/// The number of a reply's kind.
pub const REPLY: u8 = 14;

/// The greatest number of a kind in version 1, and in version 2.
pub const PLAIN_KINDS: u8 = REPLY;

pub const KINDS: u8 = 16;

/// The greatest base of a lane: its count stays below 2^32 - 1 with as many events more as a delta has at most.
pub const GREATEST_BASE: u32 = u32::MAX - DELTA_EVENTS as u32;

/// The most handlers, and as many locks, semaphores and conditions.
pub const PLACES: u8 = 64;
