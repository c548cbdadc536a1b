//! How far a client has seen, and the answer to a read.

ghost use Rattle.std.specs.Prelude.{◌≡◌, max};
ghost use Rattle.rex_reads.specs.Reads as spec;

use std::marker::Model;

/// What a client is told that reads a variable at a node.
#[derive(Clone, Copy, Debug, PartialEq, Eq)]
pub enum Read {
    /// The node is down.
    Down,
    /// The node leads: the client submits a request there instead.
    Primary,
    /// The node has replayed `have` deltas, and the client has seen more of them, `seen`.
    Behind { have: u32, seen: u32 },
    /// The variable's value after the first `at` agreed deltas.
    Value { value: i64, at: u32 },
}

/// Of how many agreed deltas a client has seen something: a reply, or a value that it read.
#[derive(Drop)]
pub struct Seen {
    number: u32,
}

impl Model for Seen {
    ghost use Rattle.std.specs.Prelude.{ℕ};

    ghost Value = { ℕ };

    ghost view = { λ s. s.number };
}

impl Seen {
    /// A client that has seen nothing.
    pub fn new() -> Seen
        ensures { result ≡ 0 }
    {
        Seen { number: 0 }
    }

    /// The client has seen something of so many deltas: the number rises to theirs, and never falls.
    pub fn raise(&mut self, number: u32)
        ensures { self.new ≡ max self.old number }
    {
        if self.number < number {
            self.number = number;
        }
    }

    /// So many.
    pub fn at(&self) -> u32
        ensures { result ≡ self.now }
    {
        self.number
    }
}

/// The answer of a node that is up or down, leads or not, has replayed so many deltas, and has this value of the variable
/// after them. Where the client is told the value it has seen as many deltas.
pub fn admitted(up: bool, leads: bool, replayed: u32, value: i64, seen: &mut Seen) -> Read
    ensures answer { result ≡ spec.answered up leads replayed value seen.old }
    ensures seen { seen.new ≡ spec.seen_after seen.old (spec.answered up leads replayed value seen.old) }
{
    if !up {
        return Read::Down;
    }
    if leads {
        return Read::Primary;
    }
    if replayed < seen.at() {
        return Read::Behind {
            have: replayed,
            seen: seen.at(),
        };
    }
    seen.raise(replayed);
    Read::Value {
        value,
        at: replayed,
    }
}
