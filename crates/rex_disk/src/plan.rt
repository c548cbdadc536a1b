//! Failures that can be planned on a disk in memory: of the next write, or of a sync after so many writes.

/// A failure that is planned for one of the next calls of a disk in memory.
#[derive(Clone, Copy, Debug, PartialEq, Eq)]
pub enum Plan {
    /// The next write fails.
    Write,
    /// The first sync after so many writes more fails.
    Sync {
        /// How many writes are made before.
        writes: u64,
    },
}
