//! How a node comes up.

ghost use Rattle.std.specs.Prelude.{◌≡◌, ◌<◌, ◌≤◌, length, take, true, Ok, Some, IfOk, IfErr, IfSome, OnErr, OnOk};
ghost use Rattle.std.specs.List.{All};
ghost use Rattle.std.specs.Option.{option_copied};
ghost use Rattle.rex_ballot.specs.Limits.{most_nodes};
ghost use Rattle.rex_durable.specs.Laws.{IsRecovered};
ghost use Rattle.rex_transfer.specs.Window.{SpellsDelta};
ghost use Rattle.rex_node.specs.Parts.{HasDecoded, HasReached, IsNode, knows};
ghost use Rattle.rex_node.specs.declared.restart.RestartFault.TheVariants.{OutOfMemory};
ghost use Rattle.rex_node.specs.Restarting.{BeginAlike, CameUp, IsRead, IsRecalled, IsRestartFault, KeepsReached, WhereRead, WhereRight};
ghost use Rattle.rex_node.specs.Restarting.{decoded_last, down_with, risen, state_at};

use crate::contents::{Place, bad_at, bad_place, ends_old};
use crate::decoded::{Decoded, decoded_anew, known_state, remember};
use crate::node::Node;
use rex_ballot::{Proposals, Value};
use rex_durable::{RecoverFault, Recovered, recover};
use rex_log::Past;
use rex_paxos::Acceptor;
use rex_snapshot::{DecodeError, decode};
use rex_state::state::State;
use rex_syntax::checked::Checked;
use rex_traits::Keeper;
use rex_transfer::Window;
use std::alloc::{AllocError, Global};

/// Why a node doesn't come up.
#[derive(Clone, Copy, Debug, PartialEq, Eq)]
pub enum RestartFault {
    /// The first bad record has this number, counted from 1, and its first bad field begins at this offset.
    BadRecord { number: usize, at: usize },
    /// Memory is short.
    OutOfMemory,
}

impl From<AllocError> for RestartFault {
    ghost from_gives = { λ _ e. e ≡ OutOfMemory };

    fn from(_e: AllocError) -> RestartFault {
        RestartFault::OutOfMemory
    }
}

/// A node that didn't come up: its keeper, as it was.
#[derive(Drop)]
pub struct NotStarted<K> {
    pub keeper: K,
    pub fault: RestartFault,
}

// What a node's records say of it, and its state at its base.
#[derive(Drop)]
struct Recalled {
    recovered: Recovered,
    start: State,
    /// Whether the last checkpoint is in the old version.
    old_base: bool,
    /// The snapshot of the state at the base, where it wasn't decoded before.
    decoded: Option<Decoded>,
}

impl<K: Keeper> Node<K> {
    /// A node comes up with what its keeper has, and with nothing else: as a follower that has replayed the values up to its base,
    /// that of its last checkpoint or of the state that it took over last, whose snapshot alone of all is read. The nodes are
    /// numbered from 1. A record is bad whose bytes spell none, that holds a known value above the offset which spells no delta,
    /// or that is the last one with a snapshot, which spells no state of the service.
    pub fn restart<P: Past>(
        alloc: Global,
        id: u8,
        nodes: u8,
        seed: u32,
        svc: &Checked,
        keeper: K,
    ) -> Result<Node<K>, NotStarted<K>>
        requires there { (0 < id) × (id ≤ nodes) }
        requires few { nodes ≤ most_nodes }
        ensures up { IfOk result (CameUp K.records svc.now P.past id nodes seed keeper) }
        ensures kept { WhereRight svc.now P.past (K.records keeper) (IfOk result (IsNode K.records svc.now P.past)) }
        ensures back { IfErr result (λ e. e.keeper ≡ keeper) }
        ensures fault { IfErr result (λ e. IsRestartFault svc.now (K.records keeper) e.fault) }
        ensures read { WhereRead svc.now P.past (K.records keeper) (IfErr result (λ e. e.fault ≡ OutOfMemory)) }
    {
        let Ok(start) = State::start(alloc, svc) else {
            return Err(NotStarted {
                keeper,
                fault: RestartFault::OutOfMemory,
            });
        };
        let mut node = Node::down(alloc, id, nodes, seed, start, keeper);
        match node.start::<P>(svc) {
            Ok(()) => Ok(node),
            Err(fault) => Err(NotStarted {
                keeper: node.stop(),
                fault,
            }),
        }
    }

    /// The node comes up again with what its keeper has, as a restarted one does. Of what it had before it went down it has a state
    /// that it came to by replaying, where its records say the same values up to there, and the snapshot that it decoded, which isn't
    /// decoded again. After an error it is as it was.
    pub fn start<P: Past>(&mut self, svc: &Checked) -> Result<(), RestartFault>
        requires there { (0 < self.old.id) × (self.old.id ≤ self.old.nodes) }
        requires few { self.old.nodes ≤ most_nodes }
        requires decoded { HasDecoded svc.now self.old.decoded }
        ensures up { OnOk result (CameUp K.records svc.now P.past self.old.id self.old.nodes self.old.seed self.old.keeper self.new) }
        ensures kept { HasReached svc.now self.old.offset (knows P.past self.old) self.old.reached → WhereRight svc.now P.past
            (K.records self.old.keeper) (OnOk result (IsNode K.records svc.now P.past self.new)) }
        ensures back { OnErr result (self.new ≡ self.old) }
        ensures fault { IfErr result (IsRestartFault svc.now (K.records self.old.keeper)) }
        ensures read { WhereRead svc.now P.past (K.records self.old.keeper) (IfErr result (λ e. e ≡ OutOfMemory)) }
    {
        let recalled = recall(self.alloc, svc, &self.keeper, &self.known, &self.decoded)?;
        self.rise(recalled);
        Ok(())
    }

    // A node that is down, and has the keeper and nothing else that counts.
    fn down(alloc: Global, id: u8, nodes: u8, seed: u32, start: State, keeper: K) -> Node<K>
        ensures { result ≡ down_with id nodes seed start keeper }
    {
        Node {
            alloc,
            id,
            nodes,
            seed,
            keeper,
            up: false,
            acceptor: Acceptor::new(alloc, 0),
            known: Window::new(alloc),
            base: 0,
            start,
            old_base: false,
            replayed: 0,
            ahead: None,
            reached: None,
            decoded: None,
            proposer: None,
            acting: None,
        }
    }

    // Whether these values past so many are all, and begin with those by which the node came to the state that it keeps.
    fn begins_alike(&self, offset: u32, values: &[Value]) -> bool
        ensures { result ≡ true → BeginAlike self.now.reached self.now.known offset values.now }
    {
        match &self.reached {
            None => true,
            Some(reached) => offset == 0 && begin_alike(reached.count, values, self.known.values()),
        }
    }

    // The node is up, and is what its records say of it.
    fn rise(&mut self, recalled: Recalled)
        requires fits { IsRecovered recalled.recovered }
        requires deltas { All SpellsDelta recalled.recovered.known }
        ensures risen { self.new ≡ risen self.old recalled.recovered recalled.start recalled.old_base self.new.reached
            (decoded_last recalled.decoded self.old.decoded) }
        ensures reached { KeepsReached self.old recalled.recovered self.new.reached }
    {
        let Recalled {
            recovered,
            start,
            old_base,
            decoded,
        } = recalled;
        if !self.begins_alike(recovered.offset, recovered.known.as_slice()) {
            self.reached = None;
        }
        self.up = true;
        self.acceptor = Acceptor::with_accepted(
            recovered.promised,
            Proposals::from_list(recovered.accepted),
        );
        self.known = Window::from_list(recovered.offset, recovered.known);
        self.base = recovered.base;
        self.start = start;
        self.old_base = old_base;
        self.replayed = recovered.base;
        self.ahead = None;
        self.proposer = None;
        self.acting = None;
        remember(&mut self.decoded, decoded);
    }
}

// Whether the first so many of these values are the first of those.
fn begin_alike(count: u32, these: &[Value], those: &[Value]) -> bool
    ensures { result ≡ true → (count ≤ length these.now) × (take count these.now ≡ take count those.now) }
{
    let count = count as usize;
    if these.len() < count || those.len() < count {
        return false;
    }
    for index in 0..count {
        if !is_same(these[index].as_slice(), those[index].as_slice()) {
            return false;
        }
    }
    true
}

fn is_same(this: &[u8], that: &[u8]) -> bool
    ensures { result ≡ true → this.now ≡ that.now }
{
    this == that
}

// What a keeper's records say of its node, with the state at its base. Values that the window knows to spell deltas aren't read
// again, nor is a snapshot that was decoded.
fn recall<K: Keeper>(
    alloc: Global,
    svc: &Checked,
    keeper: &K,
    window: &Window,
    decoded: &Option<Decoded>,
) -> Result<Recalled, RestartFault>
    requires { HasDecoded svc.now decoded.now }
    ensures recalled { IfOk result (λ r. IsRecalled svc.now (K.records keeper.now) r.recovered r.start r.old_base) }
    ensures decoded { IfOk result (λ r. HasDecoded svc.now r.decoded) }
    ensures fault { IfErr result (IsRestartFault svc.now (K.records keeper.now)) }
{
    match recover(alloc, keeper) {
        Ok(recovered) => recall_with(alloc, svc, keeper, window, decoded, recovered),
        Err(RecoverFault::BadRecord { number, at }) => Err(RestartFault::BadRecord { number, at }),
        Err(RecoverFault::OutOfMemory) => Err(RestartFault::OutOfMemory),
    }
}

// The same, where each record is read.
fn recall_with<K: Keeper>(
    alloc: Global,
    svc: &Checked,
    keeper: &K,
    window: &Window,
    decoded: &Option<Decoded>,
    recovered: Recovered,
) -> Result<Recalled, RestartFault>
    requires read { IsRead (K.records keeper.now) recovered }
    requires decoded { HasDecoded svc.now decoded.now }
    ensures recalled { IfOk result (λ r. IsRecalled svc.now (K.records keeper.now) r.recovered r.start r.old_base) }
    ensures decoded { IfOk result (λ r. HasDecoded svc.now r.decoded) }
    ensures fault { IfErr result (IsRestartFault svc.now (K.records keeper.now)) }
{
    let known = known_state(decoded, &recovered.snapshot);
    let is_known = known.is_some();
    let saved = saved_state(alloc, svc, known, &recovered)?;
    if let Some(Place { number, at }) = bad_place(keeper, &recovered, window, bad_at(&saved)) {
        return Err(RestartFault::BadRecord { number, at });
    }
    let Ok(start) = saved else { unreachable!() };
    let old_base = ends_old(keeper);
    let anew = decoded_anew(alloc, is_known, &recovered.snapshot, &start)?;
    Ok(Recalled {
        recovered,
        start,
        old_base,
        decoded: anew,
    })
}

// The state at the base, or where its snapshot is bad; without one, the start. It is this one, where it is known.
fn saved_state(
    alloc: Global,
    svc: &Checked,
    known: Option<&State>,
    recovered: &Recovered,
) -> Result<Result<State, usize>, AllocError>
    requires { IfSome (option_copied known) (λ s. state_at svc.now recovered.now.snapshot ≡ Ok s) }
    ensures { IfOk result (λ saved. saved ≡ state_at svc.now recovered.now.snapshot) }
{
    match known {
        Some(state) => Ok(Ok(state.copy(alloc)?)),
        None => decoded_state(alloc, svc, recovered),
    }
}

fn decoded_state(
    alloc: Global,
    svc: &Checked,
    recovered: &Recovered,
) -> Result<Result<State, usize>, AllocError>
    ensures { IfOk result (λ saved. saved ≡ state_at svc.now recovered.now.snapshot) }
{
    match &recovered.snapshot {
        None => Ok(Ok(State::start(alloc, svc)?)),
        Some(snapshot) => match decode(alloc, svc, snapshot.as_slice()) {
            Ok(state) => Ok(Ok(state)),
            Err(DecodeError::Bad { at }) => Ok(Err(at)),
            Err(DecodeError::OutOfMemory) => Err(AllocError),
        },
    }
}
