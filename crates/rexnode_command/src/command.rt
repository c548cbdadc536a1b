//! What the program can be asked to do.

use std::marker::Model;

/// What a command line asks for: to run a node of a cluster.
#[derive(Drop)]
pub struct Command<'a> {
    /// The node's number, from 1 to `nodes`.
    pub id: u8,
    /// How many nodes the cluster has: 1, 3, 5, 7 or 9.
    pub nodes: u8,
    /// The path of the service's text.
    pub service: &'a str,
    /// The path of the node's journal.
    pub journal: &'a str,
    /// The seed of the dice.
    pub seed: u32,
    /// The cluster's name, which is empty by default, and has at most `CLUSTER_BYTES` bytes.
    pub cluster: &'a str,
}

impl<'a> Model for Command<'a> {
    ghost use Rattle.rexnode_command.specs.Command.{CommandValue};

    ghost Value = { CommandValue };

    ghost view = { λ c. record { id = c.id; nodes = c.nodes; service = c.service.now; journal = c.journal.now; seed = c.seed; cluster = c.cluster.now } };
}
