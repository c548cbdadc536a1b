//! Lanes that go on.

ghost use Rattle.std.specs.Prelude.{◌≡◌, ◌<◌, true, IfOk, OnErr, OnOk};
ghost use Rattle.std.specs.Int.{int_max};
ghost use Rattle.std.specs.List.{All};
ghost use Rattle.rex_msg.specs.Spelling.{IsMessage};
ghost use Rattle.rex_cluster.specs.Node.{is_active};
ghost use Rattle.rex_node.specs.Calls.{Refuses, refusal_active};
ghost use Rattle.rex_process.specs.Going as going;
ghost use Rattle.rex_process.specs.Going.{HasGone, HasMade, HasRound, HasStopped, IsStill};
ghost use Rattle.rex_process.specs.Process.{HasTurn, IsProcess, IsSame, here};
ghost use Rattle.rex_process.specs.Running.{HasRun};

use crate::process::Process;
use rex_node::{Refusal, Step};
use rex_record::Turn;
use rex_report::{Effect, Role};
use rex_steps::{told, turned};
use rex_traits::Keeper;
use std::alloc::AllocError;
use std::marker::Brand;

/// What came of lanes that were to go on.
#[derive(Drop)]
pub enum Ran {
    /// They made so many events.
    Made { events: u32 },
    /// The node refused, and reports this.
    Refused { effect: Effect },
}

impl<'a, K: Keeper> Process<'a, K> {
    /// A lane has its turn. It reads the greatest clock so far, this one among them.
    pub fn turn(&mut self, lane: u8, clock: i64) -> Result<Step, AllocError>
        requires process { IsProcess K.records K.faults self.old }
        requires up { self.old.node.up ≡ true }
        requires lane { lane < self.old.service.lanes }
        ensures turn { IfOk result (HasTurn K.records K.faults self.old self.new lane clock) }
        ensures sends { IfOk result (λ step. All IsMessage step.sends) }
        ensures process { IsProcess K.records K.faults self.new }
        ensures same { IsSame self.old self.new }
        ensures left { OnErr result ((here K.records self.new).log ≡ (here K.records self.old).log) }
        ensures clock { OnErr result (self.new.clock ≡ int_max self.old.clock clock) }
        ensures keeper { self.new.node.keeper ≡ self.old.node.keeper }
    {
        let _service = self.svc.declarations();
        self.raise(clock);
        let outcome = self.go_on(lane);
        told(
            self.alloc,
            self.node.id(),
            turned(self.alloc, lane, outcome),
        )
    }

    /// Lets the lanes have turns, one after the other, again and again, until none makes an event in its turn. Each lane reads the
    /// greatest clock so far, this one among them.
    pub fn run(&mut self, clock: i64) -> Result<Ran, AllocError>
        requires process { IsProcess K.records K.faults self.old }
        requires up { self.old.node.up ≡ true }
        ensures ran { IfOk result (HasRun K.records self.old self.new clock) }
        ensures process { IsProcess K.records K.faults self.new }
        ensures same { IsSame self.old self.new }
        ensures left { OnErr result ((here K.records self.new).log ≡ (here K.records self.old).log) }
        ensures clock { OnErr result (self.new.clock ≡ int_max self.old.clock clock) }
        ensures keeper { self.new.node.keeper ≡ self.old.node.keeper }
    {
        self.raise(clock);
        match self.node.role() {
            Role::Active => Ok(Ran::Made {
                events: self.rounds()?,
            }),
            role => Ok(Ran::Refused {
                effect: Effect::NotActive { role },
            }),
        }
    }

    // Rounds of turns, until one makes no event; answers how many were made.
    fn rounds(&mut self) -> Result<u32, AllocError>
        requires process { IsProcess K.records K.faults self.old }
        requires up { self.old.node.up ≡ true }
        requires active { is_active (here K.records self.old).role ≡ true }
        ensures stopped { IfOk result (HasStopped K.records self.old self.new) }
        ensures still { IsStill K.records K.faults self.old self.new }
    {
        let mut events = 0;
        loop {
            match self.round()? {
                0 => return Ok(events),
                made => events += made,
            }
        }
    }

    // Each lane has a turn, one after the other; answers how many events they made.
    fn round(&mut self) -> Result<u32, AllocError>
        requires process { IsProcess K.records K.faults self.old }
        requires up { self.old.node.up ≡ true }
        requires active { is_active (here K.records self.old).role ≡ true }
        ensures round { IfOk result (HasRound K.records self.old self.new self.old.service.lanes) }
        ensures still { IsStill K.records K.faults self.old self.new }
    {
        let mut made = 0;
        for lane in 0..self.svc.declarations().lanes {
            made += self.made_by(lane)?;
        }
        Ok(made)
    }

    // A lane has its turn; answers how many events it made, one or none.
    fn made_by(&mut self, lane: u8) -> Result<u32, AllocError>
        requires process { IsProcess K.records K.faults self.old }
        requires up { self.old.node.up ≡ true }
        requires active { is_active (here K.records self.old).role ≡ true }
        requires lane { lane < self.old.service.lanes }
        ensures made { IfOk result (HasMade K.records self.old self.new lane) }
        ensures still { IsStill K.records K.faults self.old self.new }
    {
        match self.go_on(lane) {
            Ok(turn) => Ok(events_in(&turn)),
            Err(_) => Err(AllocError),
        }
    }

    // A lane has its turn, at the clock as it is.
    fn go_on(&mut self, lane: u8) -> Result<Turn, Refusal>
        requires process { IsProcess K.records K.faults self.old }
        requires up { self.old.node.up ≡ true }
        requires lane { lane < self.old.service.lanes }
        ensures refused { Refuses (refusal_active (here K.records self.old)) result }
        ensures gone { IfOk result (HasGone K.records self.old self.new lane) }
        ensures spared { OnErr result (self.new ≡ self.old) }
        ensures still { IsStill K.records K.faults self.old self.new }
    {
        let _service = self.svc.declarations();
        let clock = self.clock;
        self.node.lane::<Brand>(self.svc, lane, clock)
    }

    // The clock becomes the greatest one so far, this one among them.
    fn raise(&mut self, clock: i64)
        ensures { self.new ≡ record self.old { clock = int_max self.old.clock clock } }
    {
        self.clock = self.clock.max(clock);
    }
}

// How many events a turn made.
fn events_in(turn: &Turn) -> u32
    ensures { result ≡ going.events_in turn.now }
{
    match turn {
        Turn::Done(_) => 1,
        Turn::Full => 0,
        Turn::Idle => 0,
        Turn::Held { .. } => 0,
        Turn::Unsignalled => 0,
        Turn::Zero { .. } => 0,
        Turn::Unfit => 0,
    }
}
