//! Events that were made elsewhere, and are handed to a node.

ghost use Rattle.std.specs.Prelude.{◌≡◌, Err, false, true, IfOk, OnOk};
ghost use Rattle.std.specs.List.{All};
ghost use Rattle.rex_state.specs.Counts.{AreCounted};
ghost use Rattle.rex_schedule.specs.Fits.{IsNode};
ghost use Rattle.rex_cluster.specs.Takes.{BeginsInRange, after_doings, take, taken_in};
ghost use Rattle.rex_node.specs.declared.refusal.Refusal.TheVariants as why;
ghost use Rattle.rex_world.specs.Taking.{CanTake, CanTakeBlock, HandsBlock, HandsEvent, LeadsOn, WasHanded, takes_at};
ghost use Rattle.rex_world.specs.Calls.{IsWhole};
ghost use Rattle.rex_world.specs.World.{node_in, nodes_of, world_of};
ghost use Rattle.rex_world.specs.Kept.{IsRunning};

use crate::world::World;
use rex_ballot::Value;
use rex_event::Event;
use rex_list::List;
use rex_log::Past;
use rex_node::{Node, Refusal};
use rex_record::Turn;
use rex_state::state::State;
use rex_syntax::checked::Checked;
use rex_traits::{Obedient, Store};
use std::marker::Brand;

// The node is handed an event.
fn take_event_at<P: Past, S: Store>(
    node: &mut Node<Obedient<S>>,
    _agreed: &List<Value>,
    svc: &Checked,
    event: &Event,
) -> Result<Turn, Refusal>
    requires { CanTake svc.now P.past node.old event.now }
    ensures { HandsEvent svc.now P.past event.now node.old node.new result }
{
    if !node.is_up() {
        return Err(Refusal::Down);
    }
    node.take_event::<P>(svc, event)
}

// The node is handed a block of events.
fn take_block_at<P: Past, S: Store>(
    node: &mut Node<Obedient<S>>,
    _agreed: &List<Value>,
    svc: &Checked,
    events: &[Event],
    state: State,
) -> Result<(), Refusal>
    requires { CanTakeBlock svc.now P.past node.old events.now state }
    ensures { HandsBlock svc.now P.past events.now node.old node.new result }
{
    if !node.is_up() {
        return Err(Refusal::Down);
    }
    node.take_block::<P>(svc, events, state)
}

// Whether memory was short where a node was handed events.
fn is_short<T>(outcome: &Result<T, Refusal>) -> bool
    ensures whole { IsWhole outcome.now → result ≡ false }
    ensures short { outcome.now ≡ Err why.OutOfMemory → result ≡ true }
{
    matches!(outcome, Err(Refusal::OutOfMemory))
}

impl<S: Store> World<S> {
    /// Hands a node an event that was made elsewhere: an active node takes it among its live ones where it is the next one of
    /// its lane (`Done`; else `Full` or `Unfit`). No schedule line spells this, and none is counted.
    pub fn take_event(&mut self, svc: &Checked, node: u8, event: &Event) -> Result<Turn, Refusal>
        requires running { IsRunning svc.now self.old }
        requires there { IsNode (nodes_of self.old) node }
        requires begins { BeginsInRange event.now }
        ensures handed { WasHanded svc.now self.old self.new node result }
        ensures told { IfOk result (λ turn. turn ≡ taken_in svc.now (node_in svc.now self.old node) event.now) }
        ensures world { OnOk result (world_of svc.now self.new ≡ take svc.now (world_of svc.now self.old) node event.now) }
    {
        let member = &mut self.nodes[node as usize - 1];
        let turn = take_event_at::<Brand, S>(member, &self.agreed, svc, event);
        self.broken = is_short(&turn);
        turn
    }

    /// Hands a node a block of events that were made elsewhere and lead from its live state to this one: an active node takes them
    /// among its live ones, one after the other, as far as they can be taken. No schedule line spells this, and none is counted.
    pub fn take_block(
        &mut self,
        svc: &Checked,
        node: u8,
        events: &[Event],
        state: State,
    ) -> Result<(), Refusal>
        requires running { IsRunning svc.now self.old }
        requires there { IsNode (nodes_of self.old) node }
        requires begins { All BeginsInRange events.now }
        requires runs { LeadsOn svc.now (node_in svc.now self.old node) events.now state }
        requires counted { AreCounted events.now }
        ensures handed { WasHanded svc.now self.old self.new node result }
        ensures world { OnOk result (world_of svc.now self.new ≡ after_doings svc.now self.old.requests self.old.seed (nodes_of self.old)
            (world_of svc.now self.old) (takes_at node events.now)) }
    {
        let member = &mut self.nodes[node as usize - 1];
        let taken = take_block_at::<Brand, S>(member, &self.agreed, svc, events, state);
        self.broken = is_short(&taken);
        taken
    }
}
