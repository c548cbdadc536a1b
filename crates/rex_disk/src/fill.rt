//! With what an image of a stop fills the writes since the last sync that went well.

/// What a stop leaves in the range of each write since the last sync that went well, also of one that failed.
#[derive(Clone, Copy, Debug, PartialEq, Eq)]
pub enum Fill {
    /// What stood there before.
    Old,
    /// What was written.
    New,
    /// This byte throughout.
    Byte(u8),
}
