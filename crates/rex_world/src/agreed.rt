//! What the nodes of a world agreed on. The world keeps it: it grows by what the records of nodes say that they know.

ghost use Rattle.std.specs.Prelude.{◌≡◌, ◌≤◌, drop, length, IfOk, OnOk};
ghost use Rattle.rex_schedule.specs.Fits.{IsNode};
ghost use Rattle.rex_syntax.specs.declared.service.Declarations.{Declarations};
ghost use Rattle.rex_cluster.specs.Agreed as model;
ghost use Rattle.rex_cluster.specs.Reading.{seen_by_releases, stamp_at};
ghost use Rattle.rex_world.specs.Agreed as specs;
ghost use Rattle.rex_world.specs.Agreed.{learned, learned_in};
ghost use Rattle.rex_world.specs.Calls.{CanBeTold, CanShowIn, IsSettled};
ghost use Rattle.rex_world.specs.Kept.{IsRunning};
ghost use Rattle.rex_world.specs.Members.{records_at, records_of};
ghost use Rattle.rex_world.specs.World.{node_in, nodes_of, world_of};

use crate::calls::{send_all, tell_all};
use crate::seeing::show;
use crate::told::Told;
use crate::world::World;
use rex_ballot::Value;
use rex_durable::layout::{HEAD, KNOWN};
use rex_list::List;
use rex_node::Step;
use rex_report::Effect;
use rex_syntax::checked::Checked;
use rex_traits::{Keeper, Obedient, Store};
use std::alloc::{AllocError, Global};
use std::marker::Brand;

// The instance of a record of a known value.
fn instance_in(bytes: &[u8]) -> u32
    requires { 9 ≤ length bytes.now }
    ensures { result ≡ specs.instance_in bytes.now }
{
    u32::from_be_bytes([bytes[1], bytes[2], bytes[3], bytes[4]])
}

// Whether a record is of a known value, and of the instance after so many.
fn gives_next(bytes: &[u8], count: usize) -> bool
    ensures { result ≡ specs.gives_next count bytes.now }
{
    if bytes.len() < HEAD || bytes[0] != KNOWN {
        return false;
    }
    let instance = instance_in(bytes) as usize;
    0 < instance && instance - 1 == count
}

// Takes in what a record says to be known, where that is the value of the next instance.
fn learn_record(alloc: Global, agreed: &mut List<Value>, bytes: &[u8]) -> Result<(), AllocError>
    ensures { OnOk result (agreed.new ≡ learned_in agreed.old bytes.now) }
{
    if !gives_next(bytes, agreed.len()) {
        return Ok(());
    }
    let value = bytes[HEAD..].to_vec(alloc)?;
    agreed.push(List::from_vec(value))
}

// Takes in the records of a keeper that come after so many.
fn learn_from<S: Store>(
    alloc: Global,
    agreed: &mut List<Value>,
    keeper: &Obedient<S>,
    count: usize,
) -> Result<(), AllocError>
    ensures { OnOk result (agreed.new ≡ learned agreed.old (drop count (records_of keeper.now))) }
{
    for index in count..keeper.len() {
        learn_record(alloc, agreed, keeper.get(index))?;
    }
    Ok(())
}

impl<S: Store> World<S> {
    // Takes in the records of a node that come after so many.
    fn learn(&mut self, node: u8, count: usize) -> Result<(), AllocError>
        requires { IsNode (nodes_of self.old) node }
        ensures agreed { OnOk result (self.new.agreed ≡ learned self.old.agreed (drop count (records_at self.old.nodes.items node))) }
        ensures rest { self.new ≡ record self.old { agreed = self.new.agreed } }
    {
        let keeper = self.nodes[node as usize - 1].keeper();
        learn_from(self.alloc, &mut self.agreed, keeper, count)
    }

    // The clients to which a node released replies by these effects have seen them.
    fn show(&mut self, svc: &Checked, node: u8, effects: &[Effect]) -> Result<(), AllocError>
        requires { CanShowIn svc.now self.old node effects.now }
        ensures seen { OnOk result (self.new.seen.items ≡ seen_by_releases (stamp_at (node_in svc.now self.old node)) effects.now self.old.seen.items) }
        ensures rest { self.new ≡ record self.old { seen = self.new.seen } }
    {
        show::<Brand, S>(
            &self.nodes[node as usize - 1],
            &self.agreed,
            svc,
            effects,
            &mut self.seen,
        )?;
        Ok(())
    }

    /// Tells what a node did that had so many records before, sends its messages, and takes in what it has come to know, whether
    /// it is up or down. The clients to which it released replies have seen them.
    pub(crate) fn settle(
        &mut self,
        svc: &Checked,
        told: &mut Told,
        node: u8,
        count: usize,
        step: Step,
    ) -> Result<(), AllocError>
        requires { CanBeTold svc.now self.old node step }
        ensures { OnOk result (IsSettled svc.now node count self.old self.new told.old told.new step) }
    {
        let Step { effects, sends } = step;
        self.show(svc, node, effects.as_slice())?;
        tell_all(&mut told.effects, effects)?;
        let sends = sends.as_slice();
        send_all(&mut self.net, &mut self.handed, &mut told.sent, sends)?;
        self.learn(node, count)
    }

    /// What the nodes agreed on: the longest list of values of those that nodes know, down or not.
    pub fn agreed(&self) -> &[Value]
        ensures { (service : Declarations) → IsRunning service self.now → result.now ≡ model.agreed (world_of service self.now) }
    {
        self.agreed.as_slice()
    }
}
