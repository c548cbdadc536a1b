//! A run, whose report is written as it goes.

ghost use Rattle.std.specs.Prelude.{◌≡◌, ◌≤◌, ◌<◌, ◌+◌, ◌^◌, ◌++◌, [], true, length, OnOk, OnErr, IsErrOf};
ghost use Rattle.rex_traits.specs.Causes.{Rose};
ghost use Rattle.rex_traits.specs.Growth.{GrowsByFront};
ghost use Rattle.rex_schedule.specs.Fits.{ScenarioFits};
ghost use Rattle.rex_world.specs.declared.run.RunFault.TheVariants as fault;
ghost use Rattle.rex_world.specs.Kept.{IsOf, IsRunning};
ghost use Rattle.rex_world.specs.Runs.{DidLines};
ghost use Rattle.rex_world.specs.Report.{effects_text, ends_text, report_from};
ghost use Rattle.rex_world.specs.World.{world_of};
ghost use Rattle.rex_world.specs.Writing.{CountsFaults, EndsWrite, IsWritten};

use crate::report::push_effects;
use crate::world::World;
use rex_replay::Replayer;
use rex_report::Effect;
use rex_schedule::Scenario;
use rex_syntax::checked::Checked;
use rex_traits::{Sink, SinkFault, Store, write_all};
use std::alloc::AllocError;

/// So many bytes of a report wait at most before they are written, and the lines of one schedule line more.
const PIECE: usize = 65_536;

/// Why a run's report was not written to its end.
#[derive(Clone, Copy, Debug, PartialEq, Eq)]
pub enum RunFault {
    /// A write failed.
    Failed,
    OutOfMemory,
}

impl From<AllocError> for RunFault {
    ghost from_gives = { λ _ e. e ≡ fault.OutOfMemory };

    fn from(_e: AllocError) -> RunFault {
        RunFault::OutOfMemory
    }
}

// Writes what waits, where it is much or the last.
fn write_waiting<K: Sink>(sink: &mut K, waiting: &mut Vec<u8>, least: usize) -> Result<(), RunFault>
    ensures ok { OnOk result (IsWritten (K.taken sink.old) (K.taken sink.new) waiting.new.items [] waiting.old.items) }
    ensures all { OnOk result (least ≡ 0 → waiting.new.items ≡ []) }
    ensures front { OnErr result (GrowsByFront (K.taken sink.old) (K.taken sink.new) waiting.old.items) }
    ensures cause { CountsFaults (K.faults sink.old) (K.faults sink.new) result }
{
    if waiting.len() < least {
        return Ok(());
    }
    match write_all(sink, waiting) {
        Ok(()) => {
            waiting.clear();
            Ok(())
        }
        Err(SinkFault::Failed) => Err(RunFault::Failed),
        Err(SinkFault::OutOfMemory) => Err(RunFault::OutOfMemory),
    }
}

impl<S: Store> World<S> {
    // Tells what a schedule line reported behind what waits to be written, and writes that where it is much. The world is broken
    // where that fails.
    fn write<K: Sink>(
        &mut self,
        svc: &Checked,
        effects: &[Effect],
        waiting: &mut Vec<u8>,
        sink: &mut K,
    ) -> Result<(), RunFault>
        ensures written { OnOk result (IsWritten (K.taken sink.old) (K.taken sink.new) waiting.new.items []
            (waiting.old.items ++ effects_text svc.now self.old.done effects.now)) }
        ensures front { OnErr result (GrowsByFront (K.taken sink.old) (K.taken sink.new)
            (waiting.old.items ++ effects_text svc.now self.old.done effects.now)) }
        ensures ends { EndsWrite self.old self.new (K.faults sink.old) (K.faults sink.new) result }
    {
        if push_effects(waiting, svc.declarations(), self.done, effects).is_err() {
            self.broken = true;
            return Err(RunFault::OutOfMemory);
        }
        let written = write_waiting(sink, waiting, PIECE);
        if written.is_err() {
            self.broken = true;
        }
        written
    }

    // Writes what waits, and the end lines. The world is broken where that fails.
    fn write_ends<K: Sink>(
        &mut self,
        svc: &Checked,
        waiting: &mut Vec<u8>,
        sink: &mut K,
    ) -> Result<(), RunFault>
        requires { IsRunning svc.now self.old }
        ensures whole { OnOk result (K.taken sink.new ≡ K.taken sink.old ++ (waiting.old.items ++ ends_text svc.now 1 (world_of svc.now self.old).nodes)) }
        ensures front { GrowsByFront (K.taken sink.old) (K.taken sink.new) (waiting.old.items ++ ends_text svc.now 1 (world_of svc.now self.old).nodes) }
        ensures ends { EndsWrite self.old self.new (K.faults sink.old) (K.faults sink.new) result }
    {
        if self.push_ends(svc, waiting).is_err() {
            self.broken = true;
            return Err(RunFault::OutOfMemory);
        }
        let written = write_waiting(sink, waiting, 0);
        if written.is_err() {
            self.broken = true;
        }
        written
    }

    /// Does the lines of a scenario's schedule from the world as it stands, and writes the report as it goes: the lines of each
    /// schedule line, and at the end those of the nodes. After an error a front of it was written, and the world is broken.
    pub fn run<R: Replayer, K: Sink>(
        &mut self,
        svc: &Checked,
        replayer: &mut R,
        scenario: &Scenario,
        sink: &mut K,
    ) -> Result<(), RunFault>
        requires running { IsRunning svc.now self.old }
        requires fits { ScenarioFits svc.now scenario.now }
        requires of { IsOf scenario.now self.old }
        requires count { self.old.done + length scenario.now.schedule < 2 ^ 32 }
        ensures whole { OnOk result (K.taken sink.new ≡ K.taken sink.old ++ report_from svc.now scenario.now.requests scenario.now.seed scenario.now.nodes
            (world_of svc.now self.old) scenario.now.schedule) }
        ensures front { GrowsByFront (K.taken sink.old) (K.taken sink.new)
            (report_from svc.now scenario.now.requests scenario.now.seed scenario.now.nodes (world_of svc.now self.old) scenario.now.schedule) }
        ensures leads { OnOk result (DidLines svc.now scenario.now self.old self.new) }
        ensures broken { OnErr result (self.new.broken ≡ true) }
        ensures later { K.faults sink.old ≤ K.faults sink.new }
        ensures failed { IsErrOf result fault.Failed → Rose (K.faults sink.old) (K.faults sink.new) }
    {
        let mut waiting = Vec::new(self.alloc);
        for line in scenario.schedule.as_slice() {
            let effects = self.step(svc, replayer, line)?;
            self.write(svc, effects.as_slice(), &mut waiting, sink)?;
        }
        self.write_ends(svc, &mut waiting, sink)
    }
}
