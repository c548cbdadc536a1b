//! The letters that frames begin with: a capital one asks, and a small one answers.

/// Asks to lead.
pub const ELECT: u8 = b'E';

/// Hands in a request.
pub const SUBMIT: u8 = b'S';

/// Lets the lanes go on.
pub const RUN: u8 = b'R';

/// Lets one lane go on.
pub const TURN: u8 = b'L';

/// Proposes the live events.
pub const CUT: u8 = b'C';

/// Hands over a message of another node.
pub const HEAR: u8 = b'M';

/// Asks which replies hearing a message of another node would release.
pub const FORETELL: u8 = b'W';

/// Asks another node for what this one doesn't know.
pub const ASK: u8 = b'A';

/// Reads a variable.
pub const READ: u8 = b'Q';

/// Asks what the node is.
pub const LOOK: u8 = b'T';

/// Tells an effect.
pub const EFFECT: u8 = b'e';

/// Sends a message to another node.
pub const SEND: u8 = b't';

/// Tells how many events the lanes made.
pub const MADE: u8 = b'r';

/// Tells what the node is.
pub const STATUS: u8 = b'z';

/// Tells that a frame asks for nothing that there is.
pub const NOTHING: u8 = b'f';

/// Tells that a value doesn't fit after those that the node knows.
pub const UNFIT: u8 = b'v';
