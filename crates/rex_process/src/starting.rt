//! How a process comes up.

ghost use Rattle.std.specs.Prelude.{◌≡◌, ◌<◌, ◌≤◌, ◌-◌, ◌^◌, length, IfErr, IfOk};
ghost use Rattle.rex_ballot.specs.Limits.{most_nodes};
ghost use Rattle.rex_ballot.specs.declared.ballots.TheConstants.{INSTANCES};
ghost use Rattle.rex_process.specs.Process.{IsProcess};
ghost use Rattle.rex_process.specs.Starting as spec;
ghost use Rattle.rex_process.specs.Starting.{AreApplied, HasComeUp, HasStarted, IsFirstOther, IsStartFault, IsUnfit};
ghost use Rattle.rex_process.specs.declared.starting.StartFault.TheVariants.{OutOfMemory};

use crate::process::Process;
use rex_ballot::Value;
use rex_durable::layout::{ACCEPTED, KNOWN, PROMISED};
use rex_fits::Applied;
use rex_node::{Node, RestartFault};
use rex_syntax::checked::Checked;
use rex_traits::Keeper;
use std::alloc::{AllocError, Global};
use std::marker::Brand;

/// Why a process doesn't come up.
#[derive(Clone, Copy, Debug, PartialEq, Eq)]
pub enum StartFault {
    /// This record, counted from 1, is none that a process writes: its bytes spell none, it has a state, or it says that values
    /// were forgotten.
    BadRecord { number: usize },
    /// The known value of this instance doesn't fit after those before it.
    Unfit { instance: u32 },
    /// Memory is short.
    OutOfMemory,
}

impl From<AllocError> for StartFault {
    ghost from_gives = { λ _ e. e ≡ OutOfMemory };

    fn from(_e: AllocError) -> StartFault {
        StartFault::OutOfMemory
    }
}

// Why a process doesn't come up where its node doesn't.
fn fault_of(fault: RestartFault) -> StartFault
    ensures { result ≡ spec.fault_of fault }
{
    match fault {
        RestartFault::BadRecord { number, .. } => StartFault::BadRecord { number },
        RestartFault::OutOfMemory => StartFault::OutOfMemory,
    }
}

/// A process that didn't come up: its keeper, as it was.
#[derive(Drop)]
pub struct NotStarted<K> {
    pub keeper: K,
    pub fault: StartFault,
}

impl<'a, K: Keeper> Process<'a, K> {
    /// A process comes up with what its keeper has. Each value that it knows is tested and replayed.
    pub fn start(
        alloc: Global,
        id: u8,
        nodes: u8,
        seed: u32,
        svc: &'a Checked,
        keeper: K,
    ) -> Result<Process<'a, K>, NotStarted<K>>
        requires there { (0 < id) × (id ≤ nodes) }
        requires few { nodes ≤ most_nodes }
        requires count { K.faults keeper < 2 ^ 64 - 1 }
        ensures process { IfOk result (IsProcess K.records K.faults) }
        ensures started { IfOk result (HasStarted K.records svc.now id nodes seed keeper) }
        ensures back { IfErr result (λ e. e.keeper ≡ keeper) }
        ensures fault { IfErr result (λ e. IsStartFault svc.now (K.records keeper) e.fault) }
    {
        if let Some(number) = first_other(&keeper) {
            let fault = StartFault::BadRecord { number };
            return Err(NotStarted { keeper, fault });
        }
        match Node::restart::<Brand>(alloc, id, nodes, seed, svc, keeper) {
            Ok(node) => Process::replayed(alloc, svc, node),
            Err(not_started) => Err(NotStarted {
                keeper: not_started.keeper,
                fault: fault_of(not_started.fault),
            }),
        }
    }

    // The process of a node that came up with plain records: each value that it knows is tested and replayed.
    fn replayed(
        alloc: Global,
        svc: &'a Checked,
        node: Node<K>,
    ) -> Result<Process<'a, K>, NotStarted<K>>
        requires { HasComeUp K.records K.faults svc.now node }
        ensures process { IfOk result (IsProcess K.records K.faults) }
        ensures started { IfOk result (HasStarted K.records svc.now node.id node.nodes node.seed node.keeper) }
        ensures back { IfErr result (λ e. e.keeper ≡ node.keeper) }
        ensures fault { IfErr result (λ e. IsStartFault svc.now (K.records node.keeper) e.fault) }
    {
        match applied_all(alloc, svc, node.window().values()) {
            Ok(applied) => Process::tested_all(alloc, svc, node, applied),
            Err(fault) => Err(NotStarted {
                keeper: node.stop(),
                fault,
            }),
        }
    }

    // All that the node knows was tested, and came to this.
    fn tested_all(
        alloc: Global,
        svc: &'a Checked,
        mut node: Node<K>,
        applied: Applied,
    ) -> Result<Process<'a, K>, NotStarted<K>>
        requires come { HasComeUp K.records K.faults svc.now node }
        requires applied { AreApplied svc.now node.known applied }
        ensures process { IfOk result (IsProcess K.records K.faults) }
        ensures started { IfOk result (HasStarted K.records svc.now node.id node.nodes node.seed node.keeper) }
        ensures back { IfErr result (λ e. e.keeper ≡ node.keeper) }
        ensures memory { IfErr result (λ e. e.fault ≡ OutOfMemory) }
    {
        let clock = applied.clock();
        if node.known() == 0 {
            return Ok(Process {
                alloc,
                svc,
                node,
                clock,
            });
        }
        match node.take_replayed::<Brand>(svc, applied.into_state()) {
            Ok(_) => Ok(Process {
                alloc,
                svc,
                node,
                clock,
            }),
            Err(_) => Err(NotStarted {
                keeper: node.stop(),
                fault: StartFault::OutOfMemory,
            }),
        }
    }
}

// Whether a record's bytes begin as those of a promise, an acceptance or a known value: with its kind.
fn begins_plain(bytes: &[u8]) -> bool
    ensures { result ≡ spec.begins_plain bytes.now }
{
    match bytes.first() {
        Some(kind) => *kind == PROMISED || *kind == ACCEPTED || *kind == KNOWN,
        None => false,
    }
}

// The number, counted from 1, of the first record that doesn't begin so.
fn first_other<K: Keeper>(keeper: &K) -> Option<usize>
    ensures { IsFirstOther (K.records keeper.now) result }
{
    for place in 0..keeper.len() {
        if !begins_plain(keeper.get(place)) {
            return Some(place + 1);
        }
    }
    None
}

// What there is after values that fit, one after another; or the number, counted from 1, of the first one that doesn't.
fn applied_all(alloc: Global, svc: &Checked, values: &[Value]) -> Result<Applied, StartFault>
    requires { length values.now ≤ INSTANCES }
    ensures applied { IfOk result (AreApplied svc.now values.now) }
    ensures unfit { IfErr result (IsUnfit svc.now values.now) }
{
    let mut applied = Applied::start(alloc, svc)?;
    for (place, value) in values.iter().enumerate() {
        if !applied.take(alloc, svc, value.as_slice())? {
            return Err(StartFault::Unfit {
                instance: place as u32 + 1,
            });
        }
    }
    Ok(applied)
}
