//! What a world has its nodes do.

ghost use Rattle.std.specs.Prelude.{◌≡◌, ◌≤◌, OnOk};
ghost use Rattle.rex_schedule.specs.declared.scenario.ScheduleLine.TheVariants as line;
ghost use Rattle.rex_world.specs.Kept.{RunsWith};
ghost use Rattle.rex_world.specs.Calls.{Comes, ComesAt, MayCall};

use crate::seeing::read_at;
use crate::starting::{start_at, stop_at};
use crate::told::Told;
use crate::world::World;
use rex_event::CLIENTS;
use rex_replay::Replayer;
use rex_steps::{Call, read_effect, serve};
use rex_syntax::checked::Checked;
use rex_traits::{Keeper, Obedient, Store};
use std::alloc::AllocError;
use std::marker::Brand;

impl<S: Store> World<S> {
    /// Has the node of a number serve a call: tells what it did, sends its messages, and takes in what it has come to know.
    pub(crate) fn call<R: Replayer>(
        &mut self,
        svc: &Checked,
        replayer: &mut R,
        told: &mut Told,
        node: u8,
        call: &Call<'_>,
    ) -> Result<(), AllocError>
        requires { MayCall svc.now self.old node call.now }
        ensures comes { OnOk result (ComesAt svc.now self.old self.new told.old told.new node call.now) }
    {
        let place = node as usize - 1;
        let count = self.nodes[place].keeper().len();
        let step = serve::<Brand, Obedient<S>, R>(
            &mut self.nodes[place],
            &self.agreed,
            self.alloc,
            svc,
            replayer,
            call,
        )?;
        self.settle(svc, told, node, count, step)
    }

    /// The node of a number is stopped.
    pub(crate) fn stop(
        &mut self,
        svc: &Checked,
        told: &mut Told,
        node: u8,
    ) -> Result<(), AllocError>
        requires { RunsWith svc.now self.old node }
        ensures comes { OnOk result (Comes svc.now self.old self.new told.old told.new (line.Stop node)) }
    {
        let place = node as usize - 1;
        let count = self.nodes[place].keeper().len();
        let step = stop_at::<Brand, S>(&mut self.nodes[place], &self.agreed, self.alloc, svc)?;
        self.settle(svc, told, node, count, step)
    }

    /// The node of a number is started.
    pub(crate) fn start(
        &mut self,
        svc: &Checked,
        told: &mut Told,
        node: u8,
    ) -> Result<(), AllocError>
        requires { RunsWith svc.now self.old node }
        ensures comes { OnOk result (Comes svc.now self.old self.new told.old told.new (line.Start node)) }
    {
        let place = node as usize - 1;
        let count = self.nodes[place].keeper().len();
        let step = start_at::<Brand, S>(&mut self.nodes[place], &self.agreed, self.alloc, svc)?;
        self.settle(svc, told, node, count, step)
    }

    /// A client reads a variable at the node of a number.
    pub(crate) fn read(
        &mut self,
        svc: &Checked,
        told: &mut Told,
        node: u8,
        client: u16,
        variable: u16,
    ) -> Result<(), AllocError>
        requires at { RunsWith svc.now self.old node }
        requires client { client ≤ CLIENTS }
        ensures comes { OnOk result (Comes svc.now self.old self.new told.old told.new (line.ReadVariable node client variable)) }
    {
        let read = read_at::<Brand, S>(
            &self.nodes[node as usize - 1],
            &self.agreed,
            svc,
            variable,
            &mut self.seen[client as usize],
        );
        told.effects
            .push(read_effect(node, client, variable, read))?;
        Ok(())
    }
}
