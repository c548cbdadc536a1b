//! The numbers of nodes, ballots and instances.

ghost use Rattle.std.specs.Prelude.{◌≡◌, ◌↔◌, IsTrue, IfSome, IfNone};
ghost use Rattle.rex_ballot.specs.Ballot as spec;
ghost use Rattle.rex_ballot.specs.Ballot.{IsNode, IsBallot, IsInstance, IsLeastAbove, NoneAbove};

/// The most nodes that there can be. They are numbered from 1.
pub const NODES: u8 = 9;

/// The most rounds of ballots. They are numbered from 1.
pub const ROUNDS: u64 = 4_294_967_296;

/// How many numbers a round has for its ballots. A ballot is so many times its round, and a node.
pub const ROUND_BALLOTS: u64 = 16;

/// The most instances of agreement. They are numbered from 1.
pub const INSTANCES: u32 = 65_535;

/// The most values of which a node tells another one that asks for what is chosen.
pub const TOLD_VALUES: u32 = 64;

/// Whether a number is a node's.
pub fn is_node(n: u8) -> bool
    ensures is { result ≡ spec.is_node n }
    ensures node { IsTrue result ↔ IsNode n }
{
    1 <= n && n <= NODES
}

/// Whether a number is a ballot.
pub fn is_ballot(n: u64) -> bool
    ensures is { result ≡ spec.is_ballot n }
    ensures ballot { IsTrue result ↔ IsBallot n }
{
    1 <= n / ROUND_BALLOTS && n / ROUND_BALLOTS <= ROUNDS && is_node(node_of(n))
}

/// Whether a number is an instance of agreement.
pub fn is_instance(n: u32) -> bool
    ensures is { result ≡ spec.is_instance n }
    ensures instance { IsTrue result ↔ IsInstance n }
{
    1 <= n && n <= INSTANCES
}

/// The node that a ballot is of.
pub fn node_of(ballot: u64) -> u8
    ensures { result ≡ spec.node_of ballot }
{
    (ballot % ROUND_BALLOTS) as u8
}

/// The least ballot of a node above a promise, or none where no round is left (Lamport, Paxos Made Simple, 2001: each
/// proposer has ballots of its own).
pub fn ballot_above(node: u8, promised: u64) -> Option<u64>
    requires { IsNode node }
    ensures is { result ≡ spec.ballot_left node promised }
    ensures least { IfSome result (IsLeastAbove node promised) }
    ensures spent { IfNone result (NoneAbove node promised) }
{
    let node = node as u64;
    let round = promised.saturating_sub(node) / ROUND_BALLOTS + 1;
    if round <= ROUNDS {
        Some(ROUND_BALLOTS * round + node)
    } else {
        None
    }
}
