//! What a disk in memory records of each write and sync.

/// A write of so many bytes at a place, or a sync; and whether it failed.
#[derive(Clone, Copy, Debug)]
pub(crate) enum Entry {
    Write { at: u64, len: u64, failed: bool },
    Sync { failed: bool },
}
