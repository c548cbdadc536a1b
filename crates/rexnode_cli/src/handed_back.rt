//! What a run hands back.

/// How a run ended, and what it ran on.
#[derive(Drop)]
pub struct HandedBack<T> {
    /// The status with which the program ends.
    pub status: u8,
    /// The keeper or the disk that the run was given.
    pub back: T,
}
