//! Requests.

use rex_list::Arguments;

/// A client's request: the number of its client, its place among that client's requests, the handler's number from 0,
/// and the handler's arguments.
#[derive(Clone, Copy, PartialEq, Eq)]
pub struct Request {
    /// 1 to `CLIENTS`.
    pub client: u16,
    /// 1 to `SEQUENCES`.
    pub sequence: u32,
    pub handler: u8,
    pub arguments: Arguments,
}
