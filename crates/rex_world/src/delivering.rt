//! How messages are handed over.

ghost use Rattle.std.specs.Prelude.{IfOk, OnOk};
ghost use Rattle.rex_schedule.specs.declared.scenario.ScheduleLine.TheVariants as line;
ghost use Rattle.rex_world.specs.World.{nodes_of, world_of};
ghost use Rattle.rex_world.specs.Kept.{IsRunning};
ghost use Rattle.rex_world.specs.Calls.{DidLine, GoesOn};
ghost use Rattle.rex_world.specs.Finding.{RunsWithPlace};
ghost use Rattle.rex_world.specs.Handing.{ComesByAll, HandsOver};

use crate::told::Told;
use crate::world::World;
use rex_replay::Replayer;
use rex_report::Effect;
use rex_syntax::checked::Checked;
use rex_traits::Store;
use std::alloc::AllocError;

impl<S: Store> World<S> {
    // Hands over the message at a place, from 0 on, where no line did; whether it waited, or one did before.
    fn hand_over<R: Replayer>(
        &mut self,
        svc: &Checked,
        replayer: &mut R,
        told: &mut Told,
        place: usize,
        waited: bool,
    ) -> Result<bool, AllocError>
        requires { RunsWithPlace svc.now self.old place }
        ensures did { IfOk result (HandsOver svc.now self.old.requests self.old.seed (nodes_of self.old) (world_of svc.now self.old)
            (world_of svc.now self.new) told.old told.new place waited) }
        ensures goes { OnOk result (GoesOn svc.now self.old self.new) }
    {
        if self.handed[place] {
            return Ok(waited);
        }
        self.deliver(svc, replayer, told, place as u64 + 1)?;
        Ok(true)
    }

    // Hands over each message that no line handed over yet; whether one waited.
    fn hand_all_over<R: Replayer>(
        &mut self,
        svc: &Checked,
        replayer: &mut R,
        told: &mut Told,
    ) -> Result<bool, AllocError>
        requires running { IsRunning svc.now self.old }
        ensures { IfOk result (ComesByAll svc.now self.old self.new told.old told.new) }
    {
        let count = self.handed.len();
        let mut waited = false;
        for place in self.flushed..count {
            waited = self.hand_over(svc, replayer, told, place, waited)?;
        }
        self.flushed = count;
        Ok(waited)
    }

    /// Hands over each message that was sent before, and that no line handed over yet.
    pub(crate) fn flush<R: Replayer>(
        &mut self,
        svc: &Checked,
        replayer: &mut R,
        told: &mut Told,
    ) -> Result<(), AllocError>
        requires running { IsRunning svc.now self.old }
        ensures did { OnOk result (DidLine svc.now self.old self.new told.old told.new line.Flush) }
        ensures goes { OnOk result (GoesOn svc.now self.old self.new) }
    {
        if !self.hand_all_over(svc, replayer, told)? {
            told.effects.push(Effect::Nothing)?;
        }
        Ok(())
    }
}
