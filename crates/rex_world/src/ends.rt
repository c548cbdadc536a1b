//! The end lines of a report.

ghost use Rattle.std.specs.Prelude.{◌≡◌, ◌++◌, OnOk};
ghost use Rattle.rex_node.specs.Parts.{IsNode, here_of};
ghost use Rattle.rex_world.specs.Kept.{IsRunning};
ghost use Rattle.rex_world.specs.Report as specs;
ghost use Rattle.rex_world.specs.Report.{EndFits, ends_text, node_text};
ghost use Rattle.rex_world.specs.Members.{records_of};
ghost use Rattle.rex_world.specs.World.{world_of};

use crate::world::World;
use rex_ballot::Value;
use rex_list::List;
use rex_node::Node;
use rex_report::{End, Role, UpEnd, push_end};
use rex_syntax::checked::Checked;
use rex_traits::{Obedient, Store};
use std::alloc::AllocError;

// How many events are live at an active node; how many deltas another one has replayed.
fn count_of<S: Store>(node: &Node<Obedient<S>>) -> u32
    requires { EndFits node.now }
    ensures { result ≡ specs.count_of node.now }
{
    match node.role() {
        Role::Active => node.live(),
        _ => node.replayed(),
    }
}

// What a node that is up came to.
fn up_end_of<S: Store>(node: &Node<Obedient<S>>) -> UpEnd
    requires { EndFits node.now }
    ensures { result ≡ specs.up_end_of node.now }
{
    UpEnd {
        node: node.id(),
        role: node.role(),
        promised: node.promised(),
        known: node.known(),
        count: count_of(node),
    }
}

// Appends the line of a node.
fn push_node<S: Store>(
    out: &mut Vec<u8>,
    svc: &Checked,
    _agreed: &List<Value>,
    node: &Node<Obedient<S>>,
) -> Result<(), AllocError>
    requires { IsNode records_of svc.now _agreed.now node.now }
    ensures { OnOk result (out.new.items ≡ out.old.items ++ node_text svc.now node.now.id (here_of records_of svc.now _agreed.now node.now)) }
{
    let service = svc.declarations();
    if !node.is_up() {
        return push_end(out, &End::Down { node: node.id() }, service, &[], &[]);
    }
    let end = End::Up(up_end_of(node));
    push_end(out, &end, service, node.variables(), node.semaphores())
}

// Appends the lines of nodes of a world.
fn push_nodes<S: Store>(
    out: &mut Vec<u8>,
    svc: &Checked,
    world: &World<S>,
) -> Result<(), AllocError>
    requires { IsRunning svc.now world.now }
    ensures { OnOk result (out.new.items ≡ out.old.items ++ ends_text svc.now 1 (world_of svc.now world.now).nodes) }
{
    for node in &world.nodes {
        push_node(out, svc, &world.agreed, node)?;
    }
    Ok(())
}

impl<S: Store> World<S> {
    /// Appends the end line of each node.
    pub fn push_ends(&self, svc: &Checked, out: &mut Vec<u8>) -> Result<(), AllocError>
        requires { IsRunning svc.now self.now }
        ensures { OnOk result (out.new.items ≡ out.old.items ++ ends_text svc.now 1 (world_of svc.now self.now).nodes) }
    {
        push_nodes(out, svc, self)
    }
}
