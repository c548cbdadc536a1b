//! What comes of a task.

use rex_node::Step;

/// What comes of a task that a value may keep from being done.
#[derive(Drop)]
pub enum Answer {
    /// It was done: what is reported of it, and the messages that it sends.
    Did(Step),
    /// Nothing was done, since a value doesn't fit after those that the node knows.
    Unfit,
}
