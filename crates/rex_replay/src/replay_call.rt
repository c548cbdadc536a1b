//! A call that replays.

use rex_event::Event;
use rex_state::state::State;
use rex_syntax::checked::Checked;
use std::alloc::{AllocError, Global};

/// What can be called for the state to which events run, as a closure that lets several threads replay.
pub trait ReplayCall {
    ghost use Rattle.std.specs.Prelude.{◌≡◌, Some, IsSome, IfOk};
    ghost use Rattle.rex_state.specs.Machine.{run};
    ghost use Rattle.rex_state.specs.Sound.{IsSound};
    ghost use Rattle.rex_state.specs.Counts.{AreCounted};

    /// It may be called wherever events run from a sound state, and answers the state to which they lead.
    ghost replays: { Self → Type 0 };

    /// The state to which the events run from a state. It fails only for want of memory.
    fn call(
        &self,
        alloc: Global,
        svc: &Checked,
        from: &State,
        events: &[Event],
    ) -> Result<State, AllocError>
        requires replays { Self.replays self.now }
        requires sound { IsSound svc.now from.now }
        requires runs { IsSome (run svc.now from.now events.now) }
        requires counted { AreCounted events.now }
        ensures runs { IfOk result (λ s. run svc.now from.now events.now ≡ Some s) }
        ensures sound { IfOk result (λ s. IsSound svc.now s) };
}

impl<F: Fn(Global, &Checked, &State, &[Event]) -> Result<State, AllocError>> ReplayCall for F {
    ghost use Rattle.rex_replay.specs.Calls.{ReplaysEvents};

    ghost replays = { λ f. ReplaysEvents _ _ (λ alloc svc from events. F.pre f alloc svc from events)
        (λ alloc svc from events r. F.post f alloc svc from events r) };

    fn call(
        &self,
        alloc: Global,
        svc: &Checked,
        from: &State,
        events: &[Event],
    ) -> Result<State, AllocError> {
        self(alloc, svc, from, events)
    }
}
