//! A process, and what needs no test.

ghost use Rattle.std.specs.Prelude.{◌≡◌, ◌<◌, IfOk, OnOk, OnErr, true};
ghost use Rattle.rex_schedule.specs.Fits.{RequestFits};
ghost use Rattle.rex_cluster.specs.Reading as reading;
ghost use Rattle.rex_cluster.specs.Reading.{read_at};
ghost use Rattle.rex_processes.specs.Processes.Task.{Submit, Ask};
ghost use Rattle.rex_process.specs.Process.{ComesTo, IsLeft, IsProcess, IsSame, here};
ghost use Rattle.std.specs.List.{All};
ghost use Rattle.rex_msg.specs.Spelling.{IsMessage};
ghost use Rattle.rex_process.specs.Sending.{MayBeTold};
ghost use Rattle.rex_process.specs.Status.{status_of};

use rex_frames::Status;
use rex_node::{Node, Step};
use rex_reads::Seen;
use rex_report::Effect;
use rex_steps::{Call, read_effect};
use rex_syntax::checked::Checked;
use rex_syntax::request::Request;
use rex_traits::Keeper;
use std::alloc::{AllocError, Global};
use std::marker::{Brand, Model};

/// A node of a checked service, as a process has it. While it is up and not active it has replayed all that it knows.
#[derive(Drop)]
pub struct Process<'a, K: Keeper> {
    pub(crate) alloc: Global,
    pub(crate) svc: &'a Checked,
    pub(crate) node: Node<K>,
    /// The greatest clock that it was handed since it came up, or that the events of the values show that it knows; 0 before any.
    pub(crate) clock: i64,
}

impl<'a, K: Keeper> Model for Process<'a, K> {
    ghost use Rattle.rex_process.specs.Process.{ProcessValue};

    ghost Value = { ProcessValue K };

    ghost view = { λ p. record { service = p.svc.now; node = p.node; clock = p.clock } };
}

impl<'a, K: Keeper> Process<'a, K> {
    /// The node's number, from 1.
    pub fn id(&self) -> u8
        ensures { result ≡ self.now.node.id }
    {
        self.node.id()
    }

    /// Whether the node is up. Once a record was not kept it is down, and stays so.
    pub fn is_up(&self) -> bool
        ensures { result ≡ self.now.node.up }
    {
        self.node.is_up()
    }

    /// Stops the process, and gives its keeper back.
    pub fn stop(self) -> K
        ensures { result ≡ self.entry.node.keeper }
    {
        self.node.stop()
    }

    /// The service.
    pub fn service(&self) -> &'a Checked
        ensures { result.now ≡ self.now.service }
    {
        self.svc
    }

    /// How many nodes there are.
    pub fn nodes(&self) -> u8
        ensures { result ≡ self.now.node.nodes }
    {
        self.node.nodes()
    }

    /// What the node is.
    pub fn status(&self) -> Status
        requires process { IsProcess K.records K.faults self.now }
        requires up { self.now.node.up ≡ true }
        ensures { result ≡ status_of (here K.records self.now) }
    {
        Status {
            role: self.node.role(),
            promised: self.node.promised(),
            known: self.node.known(),
            live: self.node.live(),
        }
    }

    /// What a client is told that reads a variable, and has seen something of so many agreed values.
    pub fn read(&self, client: u16, variable: u16, seen: u32) -> Effect
        requires process { IsProcess K.records K.faults self.now }
        ensures { result ≡ reading.read_effect self.now.node.id client variable (read_at self.now.service (here K.records self.now) variable seen) }
    {
        let mut before = Seen::new();
        before.raise(seen);
        let read = self.node.read::<Brand>(self.svc, variable, &mut before);
        read_effect(self.node.id(), client, variable, read)
    }

    /// Asks another node for what this one doesn't know.
    pub fn ask(&mut self, to: u8) -> Result<Step, AllocError>
        requires process { IsProcess K.records K.faults self.old }
        requires up { self.old.node.up ≡ true }
        requires to { MayBeTold self.old.node.nodes self.old.node.id (Ask to) }
        ensures comes { IfOk result (ComesTo K.records K.faults self.old self.new (Ask to)) }
        ensures sends { IfOk result (λ step. All IsMessage step.sends) }
        ensures process { OnOk result (IsProcess K.records K.faults self.new) }
        ensures same { IsSame self.old self.new }
        ensures left { OnErr result (self.new ≡ self.old) }
        ensures keeper { self.new.node.keeper ≡ self.old.node.keeper }
    {
        self.served(&Call::Ask { other: to }, None)
    }

    /// Answers a client's request, and queues it where it is due.
    pub fn submit(&mut self, request: &Request) -> Result<Step, AllocError>
        requires process { IsProcess K.records K.faults self.old }
        requires up { self.old.node.up ≡ true }
        requires request { RequestFits self.old.service request.now }
        ensures comes { IfOk result (ComesTo K.records K.faults self.old self.new (Submit request.now)) }
        ensures sends { IfOk result (λ step. All IsMessage step.sends) }
        ensures process { OnOk result (IsProcess K.records K.faults self.new) }
        ensures same { IsSame self.old self.new }
        ensures left { OnErr result (IsLeft K.records self.old self.new (Submit request.now)) }
        ensures keeper { self.new.node.keeper ≡ self.old.node.keeper }
    {
        self.served(&Call::Submit { request }, None)
    }
}
