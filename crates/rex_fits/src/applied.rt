//! Values that are taken one after another.

ghost use Rattle.std.specs.Prelude.{◌≡◌, true, false, IfOk, OnErr};
ghost use Rattle.rex_state.specs.Sound.{IsSound};
ghost use Rattle.rex_fits.specs.Applied.{HasTried, HasTaken, fits_after, none_applied};

use crate::clocks::greatest_clock;
use crate::pieces::spelled_events;
use crate::running::run_all;
use rex_state::state::State;
use rex_syntax::checked::Checked;
use std::alloc::{AllocError, Global};
use std::marker::Model;

/// The state after values that were taken one after another, and the greatest clock that their events show.
#[derive(Drop)]
pub struct Applied {
    state: State,
    /// 0 where no event shows a greater one.
    clock: i64,
}

impl Model for Applied {
    ghost use Rattle.rex_fits.specs.Applied.{AppliedValue};

    ghost Value = { AppliedValue };

    ghost view = { λ a. record { state = a.state; clock = a.clock } };
}

impl Applied {
    /// What there is before any value.
    pub fn start(alloc: Global, svc: &Checked) -> Result<Applied, AllocError>
        ensures start { IfOk result (λ a. a ≡ none_applied svc.now) }
        ensures sound { IfOk result (λ a. IsSound svc.now a.state) }
    {
        let state = State::start(alloc, svc)?;
        Ok(Applied { state, clock: 0 })
    }

    /// What there is after values that lead to a state, and show no greater clock than this.
    pub fn after(state: State, clock: i64) -> Applied
        ensures { result ≡ record { state = state; clock = clock } }
    {
        Applied { state, clock }
    }

    /// An equal one.
    pub fn copy(&self, alloc: Global) -> Result<Applied, AllocError>
        ensures { IfOk result (λ a. a ≡ self.now) }
    {
        let state = self.state.copy(alloc)?;
        let clock = self.clock;
        Ok(Applied { state, clock })
    }

    /// The state after the values.
    pub fn state(&self) -> &State
        ensures { result.now ≡ self.now.state }
    {
        &self.state
    }

    /// The state after the values, for the one who takes it over.
    pub fn into_state(self) -> State
        ensures { result ≡ self.state }
    {
        self.state
    }

    /// The greatest clock that the values' events show; 0 where they show none that is greater.
    pub fn clock(&self) -> i64
        ensures { result ≡ self.now.clock }
    {
        self.clock
    }

    /// Takes one value more, where it fits, and answers whether it does. Of a value that doesn't fit some events may have run then;
    /// so who goes on after such a one takes it on a copy. Where memory is short nothing changes.
    pub fn take(&mut self, alloc: Global, svc: &Checked, value: &[u8]) -> Result<bool, AllocError>
        requires { IsSound svc.now self.old.state }
        ensures fits { IfOk result (λ good. good ≡ fits_after svc.now self.old.state value.now) }
        ensures taken { IfOk result (λ good. good ≡ true → HasTaken svc.now self.old value.now self.new) }
        ensures tried { IfOk result (λ good. good ≡ false → HasTried svc.now self.old value.now self.new) }
        ensures same { OnErr result (self.new ≡ self.old) }
        ensures sound { IsSound svc.now self.new.state }
    {
        let Some(events) = spelled_events(alloc, svc, value)? else {
            return Ok(false);
        };
        if !run_all(svc, &mut self.state, events.as_slice()) {
            return Ok(false);
        }
        self.clock = greatest_clock(self.clock, events.as_slice());
        Ok(true)
    }
}
