//! Processors.

ghost use Rattle.std.specs.Prelude.{◌<◌};

use std::thread::{Threads, available_parallelism};

/// The most workers of a replay.
pub const WORKERS: u8 = 16;

/// How many threads can run beside each other: as many as there are processors, or one where that isn't known.
pub fn processors<R: Threads>(rt: &R) -> usize
    ensures { 0 < result }
{
    match available_parallelism(rt) {
        Ok(count) => count.get(),
        Err(_) => 1,
    }
}
