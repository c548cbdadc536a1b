//! What parts of a call come to.

/// What a part of a call came to.
#[derive(Clone, Copy, PartialEq, Eq)]
pub enum Going {
    /// The call goes on.
    On,
    /// An append failed, and the node is down.
    Down,
}

/// What a round came to in which a node that leads, or asks to, goes on.
#[derive(Clone, Copy, PartialEq, Eq)]
pub enum Round {
    /// The node knows one value more, and goes on.
    Again,
    /// It doesn't go on from here, or an append failed.
    Done(Going),
}
