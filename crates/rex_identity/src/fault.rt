//! Why a keeper isn't claimed, and the keeper that a refusal hands back.

/// Why a keeper was not claimed.
#[derive(Clone, Copy, Debug, PartialEq, Eq)]
pub enum ClaimFault {
    /// Its first record isn't the identity's. The keeper is as it was.
    Foreign,
    /// It had no records, and failed as the identity's was appended. It may have kept that record or lost it.
    Failed,
    /// No memory was left, and its records are as they were.
    OutOfMemory,
}

/// A keeper that was not claimed, and why.
#[derive(Drop)]
pub struct NotOwned<K> {
    /// The keeper, handed back.
    pub keeper: K,
    /// Why it was not claimed.
    pub fault: ClaimFault,
}
