//! The lanes' clients above one that was read, so that clients that no lane serves are read without a look at all lanes.

ghost use Rattle.std.specs.Prelude.{◌≡◌, ◌≤◌, false};
ghost use Rattle.std.specs.List.{list_any};
ghost use Rattle.rex_snapshot.specs.Allowed as spec;
ghost use Rattle.rex_snapshot.specs.Allowed.{IsAhead};

use crate::allowed::{beyond, may_be_client, may_be_replied, may_be_sequence};
use crate::parts::Seat;
use rex_event::{CLIENTS, SEQUENCES};
use rex_frame::frame::Frame;

/// What lanes serve above a client.
#[derive(Clone, Copy)]
pub(crate) struct Ahead {
    /// A client that is at most the least one, or past all.
    next: u16,
    /// How many lanes' clients there are.
    count: usize,
}

// The less of these: a client, or that of a lane, if it is above another.
fn nearer(above: u16, next: u16, frame: &Option<Frame>) -> u16
    ensures here { spec.is_skipped above result frame.now ≡ false }
    ensures less { result ≤ next }
{
    match frame {
        Some(frame) if above < frame.client && frame.client < next => frame.client,
        _ => next,
    }
}

// The least client above this one that a lane serves, or else one past all.
fn next_above(seats: &[Seat], above: u16) -> u16
    ensures { list_any (λ s. spec.is_skipped above result s.lane.frame) seats.now ≡ false }
{
    let mut next = CLIENTS + 1;
    for seat in seats {
        next = nearer(above, next, &seat.lane.frame);
    }
    next
}

/// What lanes serve above this client.
pub(crate) fn ahead_of(seats: &[Seat], above: u16) -> Ahead
    ensures { IsAhead seats.now above result }
{
    Ahead {
        next: next_above(seats, above),
        count: beyond(seats, above),
    }
}

impl Ahead {
    // Whether a client is above the one before, and below all of the lanes that are above that.
    fn frees(self, above: u16, client: u16) -> bool
        ensures { result ≡ spec.is_unserved above self client }
    {
        above < client && client < self.next
    }

    /// Whether a client may follow the one before, with so many more after it.
    pub(crate) fn may_be_client(self, seats: &[Seat], above: u16, left: u16, n: u16) -> bool
        requires { IsAhead seats.now above self }
        ensures { result ≡ spec.may_be_client seats.now above left n }
    {
        if self.frees(above, n) {
            return n <= CLIENTS && self.count <= left as usize;
        }
        may_be_client(seats, above, left, n)
    }

    /// Whether it may be the client's sequence.
    pub(crate) fn may_be_sequence(self, seats: &[Seat], above: u16, client: u16, n: u32) -> bool
        requires { IsAhead seats.now above self }
        ensures { result ≡ spec.may_be_sequence seats.now client n }
    {
        if self.frees(above, client) {
            return 1 <= n && n <= SEQUENCES;
        }
        may_be_sequence(seats, client, n)
    }

    /// Whether it says rightly if the client was replied to.
    pub(crate) fn may_be_replied(self, seats: &[Seat], above: u16, client: u16, n: u8) -> bool
        requires { IsAhead seats.now above self }
        ensures { result ≡ spec.may_be_replied seats.now client n }
    {
        if self.frees(above, client) {
            return n == 1;
        }
        may_be_replied(seats, client, n)
    }

    /// What lanes serve above the client that follows.
    pub(crate) fn past(self, seats: &[Seat], above: u16, client: u16) -> Ahead
        requires { IsAhead seats.now above self }
        ensures { IsAhead seats.now client result }
    {
        if self.frees(above, client) {
            return self;
        }
        ahead_of(seats, client)
    }
}
