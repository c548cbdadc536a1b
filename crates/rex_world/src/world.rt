//! The world.

ghost use Rattle.std.specs.Prelude.{◌≡◌, ◌<◌, ◌≤◌, ◌+◌, ◌^◌, [], length, IfOk, OnOk, if◌then◌else◌};
ghost use Rattle.rex_ballot.specs.Limits.{most_nodes};
ghost use Rattle.rex_syntax.specs.Versions.{has_old_form};
ghost use Rattle.rex_schedule.specs.Fits.{FormFits, LineFits, ScenarioFits};
ghost use Rattle.rex_traits.specs.StoreLaws.{memory_value};
ghost use Rattle.rex_traits.specs.Stores.{value_by};
ghost use Rattle.rex_traits.specs.declared.mem_keeper.Fate.TheVariants as fate;
ghost use Rattle.rex_cluster.specs.Node as model;
ghost use Rattle.rex_schedule.specs.declared.scenario.ScheduleLine.TheVariants as line;
ghost use Rattle.rex_world.specs.Calls.{ArmsNone, DidLine, EndsRow, GoesOn};
ghost use Rattle.rex_world.specs.Members.{AreFresh, AreNew, IsFresh, IsMember, faults_of, here_at};
ghost use Rattle.rex_world.specs.World.{nodes_of};
ghost use Rattle.rex_world.specs.Kept.{CanDo, IsFirst, IsRunning};

use crate::calls::tell_all;
use crate::seeing::unseen;
use crate::told::Told;
use rex_ballot::Value;
use rex_event::{CLIENT_ENTRIES, Event, Kind};
use rex_list::List;
use rex_net::Net;
use rex_node::{Node, RestartFault};
use rex_reads::Seen;
use rex_replay::Replayer;
use rex_report::Effect;
use rex_schedule::{Scenario, ScheduleLine};
use rex_steps::Call;
use rex_syntax::checked::Checked;
use rex_syntax::request::Request;
use rex_traits::{Fate, MemKeeper, Obedient, Store};
use std::alloc::{AllocError, Global};
use std::marker::Brand;

/// The nodes of a cluster, the messages between them, and the values that they agreed on. After an `Err` of a step or a run it is
/// broken, and given up.
#[derive(Drop)]
pub struct World<S: Store> {
    pub(crate) alloc: Global,
    pub(crate) seed: u32,
    pub(crate) requests: List<Request>,
    pub(crate) nodes: Vec<Node<Obedient<S>>>,
    /// The values that the nodes agreed on.
    pub(crate) agreed: List<Value>,
    /// The messages that were sent, as bytes.
    pub(crate) net: Net,
    /// For each of them whether a line handed it over.
    pub(crate) handed: Vec<bool>,
    /// So many of them, the first ones, were all handed over.
    pub(crate) flushed: usize,
    pub(crate) done: u32,
    /// For each client's number, of how many agreed values it has seen something.
    pub(crate) seen: Vec<Seen>,
    pub(crate) broken: bool,
}

// A node before the first line, over a fresh keeper.
fn new_node<S: Store>(
    alloc: Global,
    svc: &Checked,
    seed: u32,
    nodes: u8,
    number: u8,
    keeper: S,
) -> Result<Node<Obedient<S>>, AllocError>
    requires there { (0 < number) × (number ≤ nodes) }
    requires few { nodes ≤ most_nodes }
    requires fresh { IsFresh (value_by S.records S.faults S.armed S.broken S.as_armed) keeper }
    ensures here { IfOk result (λ node. here_at svc.now [] node ≡ model.new_node) }
    ensures member { IfOk result (IsMember svc.now [] seed nodes number) }
    ensures within { IfOk result (λ node. faults_of node.keeper ≡ 0) }
{
    match Node::restart::<Brand>(alloc, number, nodes, seed, svc, Obedient::new(keeper)) {
        Ok(node) => Ok(node),
        Err(not_started) => match not_started.fault {
            RestartFault::OutOfMemory => Err(AllocError),
            RestartFault::BadRecord { .. } => unreachable!(),
        },
    }
}

// The nodes before the first line, each over its keeper.
fn new_nodes<S: Store>(
    alloc: Global,
    svc: &Checked,
    seed: u32,
    nodes: u8,
    keepers: Vec<S>,
) -> Result<Vec<Node<Obedient<S>>>, AllocError>
    requires few { nodes ≤ most_nodes }
    requires keepers { AreFresh (value_by S.records S.faults S.armed S.broken S.as_armed) nodes keepers.items }
    ensures { IfOk result (λ made. AreNew svc.now seed nodes nodes made.items) }
{
    let mut made = Vec::new(alloc);
    let mut number = 0;
    for keeper in keepers {
        number += 1;
        let node = new_node(alloc, svc, seed, nodes, number, keeper)?;
        made.push(node)?;
    }
    Ok(made)
}

// A copy of requests.
fn copied(alloc: Global, requests: &List<Request>) -> Result<List<Request>, AllocError>
    ensures { IfOk result (λ copy. copy ≡ requests.now) }
{
    Ok(List::from_vec(requests.as_slice().to_vec(alloc)?))
}

// A keeper in memory for each node.
fn memory_keepers(alloc: Global, nodes: u8) -> Result<Vec<MemKeeper>, AllocError>
    ensures { IfOk result (λ keepers. AreFresh memory_value nodes keepers.items) }
{
    let mut keepers = Vec::new(alloc);
    for _ in 0..nodes {
        keepers.push(MemKeeper::new(alloc))?;
    }
    Ok(keepers)
}

// What becomes of the record of an append that fails.
fn fate_of(kept: bool) -> Fate
    ensures { result ≡ (if kept then fate.Kept else fate.Lost) }
{
    if kept { Fate::Kept } else { Fate::Lost }
}

impl World<MemKeeper> {
    /// Before the first line of a schedule, with the nodes' records in memory: each node follows, and knows nothing.
    pub fn new(
        alloc: Global,
        svc: &Checked,
        scenario: &Scenario,
    ) -> Result<World<MemKeeper>, AllocError>
        requires { ScenarioFits svc.now scenario.now }
        ensures { IfOk result (IsFirst svc.now scenario.now) }
    {
        let keepers = memory_keepers(alloc, scenario.nodes)?;
        World::with_keepers(alloc, svc, scenario, keepers)
    }
}

impl<S: Store> World<S> {
    /// Before the first line of a schedule, with each node's records in one of these keepers, in the order of the nodes: each
    /// node follows, and knows nothing. The keepers are fresh: one for each node, without records, unarmed, and none of their
    /// appends failed. Each fails only as it is armed.
    pub fn with_keepers(
        alloc: Global,
        svc: &Checked,
        scenario: &Scenario,
        keepers: Vec<S>,
    ) -> Result<World<S>, AllocError>
        requires fits { ScenarioFits svc.now scenario.now }
        requires keepers { AreFresh (value_by S.records S.faults S.armed S.broken S.as_armed) scenario.now.nodes keepers.items }
        ensures { IfOk result (IsFirst svc.now scenario.now) }
    {
        let _service = svc.declarations();
        let requests = copied(alloc, &scenario.requests)?;
        let nodes = new_nodes(alloc, svc, scenario.seed, scenario.nodes, keepers)?;
        let seen = unseen(alloc, CLIENT_ENTRIES)?;
        Ok(World {
            alloc,
            seed: scenario.seed,
            requests,
            nodes,
            agreed: List::new(alloc),
            net: Net::new(alloc),
            handed: Vec::new(alloc),
            flushed: 0,
            done: 0,
            seen,
            broken: false,
        })
    }
}

impl<S: Store> World<S> {
    /// How many schedule lines were done.
    pub fn done(&self) -> u32
        ensures { result ≡ self.now.done }
    {
        self.done
    }

    /// Whether memory was short in a call, or a report was not written to its end: then no other call may be made.
    pub fn broken(&self) -> bool
        ensures { result ≡ self.now.broken }
    {
        self.broken
    }

    // Does the steps of a schedule line, of any but one that arms a keeper.
    fn act<R: Replayer>(
        &mut self,
        svc: &Checked,
        replayer: &mut R,
        told: &mut Told,
        line: &ScheduleLine,
    ) -> Result<(), AllocError>
        requires can { CanDo svc.now self.old line.now }
        requires kind { ArmsNone line.now }
        ensures did { OnOk result (DidLine svc.now self.old self.new told.old told.new line.now) }
        ensures goes { OnOk result (GoesOn svc.now self.old self.new) }
    {
        match line {
            ScheduleLine::Elect { node } => self.call(svc, replayer, told, *node, &Call::Elect),
            ScheduleLine::Submit { node, request } => {
                let request = self.requests.as_slice()[*request as usize];
                let call = Call::Submit { request: &request };
                self.call(svc, replayer, told, *node, &call)
            }
            ScheduleLine::Lane { node, lane } => {
                let clock = self.done as i64;
                let call = Call::Lane { lane: *lane, clock };
                self.call(svc, replayer, told, *node, &call)
            }
            ScheduleLine::Cut { node } => {
                self.call(svc, replayer, told, *node, &Call::Cut { limits: None })
            }
            ScheduleLine::CutBelow { node, limits } => {
                let limits = Some(limits.as_slice());
                self.call(svc, replayer, told, *node, &Call::Cut { limits })
            }
            ScheduleLine::Deliver { message } => self.deliver(svc, replayer, told, *message),
            ScheduleLine::Flush => self.flush(svc, replayer, told),
            ScheduleLine::Replay { node } => self.call(svc, replayer, told, *node, &Call::Replay),
            ScheduleLine::Ask { node, other } => {
                self.call(svc, replayer, told, *node, &Call::Ask { other: *other })
            }
            ScheduleLine::Stop { node } => self.stop(svc, told, *node),
            ScheduleLine::Start { node } => self.start(svc, told, *node),
            ScheduleLine::Checkpoint { node, version } => {
                let call = Call::Checkpoint { version: *version };
                self.call(svc, replayer, told, *node, &call)
            }
            ScheduleLine::DropKnown { node } => {
                self.call(svc, replayer, told, *node, &Call::DropKnown)
            }
            ScheduleLine::ReadVariable {
                node,
                client,
                variable,
            } => self.read(svc, told, *node, *client, *variable),
            ScheduleLine::KeepFail { .. } => unreachable!(),
        }
    }

    // Lets the next append of a node's keeper fail, and counts the line: a keeper fails no more often than lines were done.
    fn keep_fail(&mut self, svc: &Checked, node: u8, kept: bool) -> Result<List<Effect>, AllocError>
        requires { CanDo svc.now self.old (line.KeepFail node kept) }
        ensures { EndsRow svc.now self.old self.new (line.KeepFail node kept) result }
    {
        let _event: Option<(Event, Kind)> = None;
        let mut effects = List::new(self.alloc);
        if effects.push(Effect::WillFail { node, kept }).is_err() {
            self.broken = true;
            return Err(AllocError);
        }
        self.nodes[node as usize - 1].arm(fate_of(kept));
        self.done += 1;
        Ok(effects)
    }

    /// Does a schedule line, and answers what it reports: what it did first, and then the messages that it sent.
    pub fn step<R: Replayer>(
        &mut self,
        svc: &Checked,
        replayer: &mut R,
        line: &ScheduleLine,
    ) -> Result<List<Effect>, AllocError>
        requires running { IsRunning svc.now self.old }
        requires fits { LineFits (nodes_of self.old) (length self.old.requests) svc.now.lanes line.now }
        requires form { FormFits (has_old_form svc.now) line.now }
        requires count { self.old.done + 1 < 2 ^ 32 }
        ensures { EndsRow svc.now self.old self.new line.now result }
    {
        if let ScheduleLine::KeepFail { node, kept } = line {
            return self.keep_fail(svc, *node, *kept);
        }
        let mut told = Told::new(self.alloc);
        if self.act(svc, replayer, &mut told, line).is_err() {
            self.broken = true;
            return Err(AllocError);
        }
        let Told { mut effects, sent } = told;
        if tell_all(&mut effects, List::from_vec(sent)).is_err() {
            self.broken = true;
            return Err(AllocError);
        }
        self.done += 1;
        Ok(List::from_vec(effects))
    }
}
