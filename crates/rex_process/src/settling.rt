//! What comes behind a call of the node.

ghost use Rattle.std.specs.Prelude.{◌≡◌, [], true, None, IfOk};
ghost use Rattle.rex_processes.specs.Plain.{IsPlain};
ghost use Rattle.rex_node.specs.Parts.{IsNode, StaysNode};
ghost use Rattle.rex_process.specs.Process as spec;
ghost use Rattle.rex_process.specs.Process.{here};
ghost use Rattle.rex_process.specs.Settling.{HasNoNews, IsCaught, IsJoined, IsReady, IsSettling, noted_clock};

use crate::process::Process;
use rex_fits::{Applied, clock_after};
use rex_node::{Refusal, Step};
use rex_replay::OneThread;
use rex_report::Role;
use rex_steps::{joined, told};
use rex_traits::Keeper;
use std::alloc::AllocError;
use std::marker::Brand;

impl<'a, K: Keeper> Process<'a, K> {
    /// Behind a step of its node, which knew so many values before: the process notes the clocks of what is known more, and
    /// catches up. What a test applied is the state after all that is known now, if there is a test.
    pub(crate) fn settled(
        &mut self,
        known: u32,
        step: Step,
        test: Option<Applied>,
    ) -> Result<Step, AllocError>
        requires settling { IsSettling K.records self.old known test }
        ensures caught { IfOk result (λ after. IsCaught K.records self.old self.new (noted_clock K.records self.old known) step after) }
        ensures service { self.new.service ≡ self.old.service }
        ensures kept { StaysNode K.records self.old.service [] self.old.node self.new.node }
        ensures keeper { self.new.node.keeper ≡ self.old.node.keeper }
        ensures still { HasNoNews K.records self.old known test → self.new ≡ self.old }
    {
        if !self.node.is_up() {
            return Ok(step);
        }
        match test {
            Some(applied) => self.took(step, applied),
            None => self.noted(known, step),
        }
    }

    // The test has replayed all that the node knows now.
    fn took(&mut self, step: Step, applied: Applied) -> Result<Step, AllocError>
        requires node { IsNode K.records self.old.service [] self.old.node }
        requires plain { IsPlain (here K.records self.old).log }
        requires up { self.old.node.up ≡ true }
        requires ready { IsReady K.records self.old applied }
        ensures caught { IfOk result (λ after. IsCaught K.records self.old self.new applied.clock step after) }
        ensures service { self.new.service ≡ self.old.service }
        ensures kept { StaysNode K.records self.old.service [] self.old.node self.new.node }
        ensures keeper { self.new.node.keeper ≡ self.old.node.keeper }
    {
        let clock = applied.clock();
        self.clock = clock;
        if !self.is_behind() {
            return Ok(step);
        }
        let outcome = self
            .node
            .take_replayed::<Brand>(self.svc, applied.into_state());
        self.with_more(step, outcome)
    }

    // There was no test.
    fn noted(&mut self, known: u32, step: Step) -> Result<Step, AllocError>
        requires settling { IsSettling K.records self.old known None }
        requires up { self.old.node.up ≡ true }
        ensures caught { IfOk result (λ after. IsCaught K.records self.old self.new (noted_clock K.records self.old known) step after) }
        ensures service { self.new.service ≡ self.old.service }
        ensures kept { StaysNode K.records self.old.service [] self.old.node self.new.node }
        ensures keeper { self.new.node.keeper ≡ self.old.node.keeper }
        ensures still { HasNoNews K.records self.old known None → self.new ≡ self.old }
    {
        let before = self.clock;
        let clock = clock_after(self.alloc, before, self.node.window().after(known))?;
        self.clock = clock;
        if !self.is_behind() {
            return Ok(step);
        }
        let outcome = self
            .node
            .replay::<Brand, OneThread>(self.svc, &mut OneThread);
        self.with_more(step, outcome)
    }

    // A step, and the one behind it, if memory was there.
    fn with_more(&self, step: Step, outcome: Result<Step, Refusal>) -> Result<Step, AllocError>
        ensures { IfOk result (IsJoined step outcome) }
    {
        match outcome {
            Ok(more) => told(self.alloc, self.node.id(), joined(self.alloc, step, more)),
            Err(_) => Err(AllocError),
        }
    }

    // Whether the node is up and not active, and hasn't replayed all that it knows.
    fn is_behind(&self) -> bool
        requires node { IsNode K.records self.now.service [] self.now.node }
        ensures { result ≡ spec.is_behind (here K.records self.now) }
    {
        let up = self.node.is_up();
        let idle = !is_active(self.node.role());
        let less = self.node.replayed() < self.node.known();
        up & (idle & less)
    }
}

// Whether the role is that of an active node.
fn is_active(role: Role) -> bool
    ensures { result ≡ spec.is_named_active role }
{
    match role {
        Role::Active => true,
        _ => false,
    }
}
