//! Replay by a call.

ghost use Rattle.std.specs.Prelude.{◌≡◌};

use crate::{ReplayCall, Replayer};
use rex_event::Event;
use rex_state::state::State;
use rex_syntax::checked::Checked;
use std::alloc::{AllocError, Global};

/// The replayer that makes a call.
#[derive(Drop)]
pub struct ByCall<C: ReplayCall> {
    call: C,
    ghost replays: { ∥ C.replays call ∥₁ },
}

impl<C: ReplayCall> ByCall<C> {
    /// The replayer by a call that replays.
    pub fn new(call: C) -> ByCall<C>
        requires { C.replays call }
        ensures { result.call ≡ call }
    {
        ByCall { call }
    }

    // The call, and that it replays.
    fn call_that_replays(&self) -> &C
        ensures { C.replays result.now }
    {
        &self.call
    }
}

impl<C: ReplayCall> Replayer for ByCall<C> {
    fn replay(
        &mut self,
        alloc: Global,
        svc: &Checked,
        from: &State,
        events: &[Event],
    ) -> Result<State, AllocError> {
        self.call_that_replays().call(alloc, svc, from, events)
    }
}
