//! Replay on one thread.

ghost use Rattle.std.specs.Prelude.{◌≡◌, Some, IsSome};
ghost use Rattle.rex_state.specs.Machine.{run};
ghost use Rattle.rex_state.specs.Sound.{IsSound};
ghost use Rattle.rex_state.specs.Counts.{AreCounted};

use crate::Replayer;
use rex_event::Event;
use rex_state::state::State;
use rex_syntax::checked::Checked;
use std::alloc::{AllocError, Global};

/// The replayer that does the events one after another, in their order.
#[derive(Clone, Copy, Debug)]
pub struct OneThread;

impl Replayer for OneThread {
    fn replay(
        &mut self,
        alloc: Global,
        svc: &Checked,
        from: &State,
        events: &[Event],
    ) -> Result<State, AllocError> {
        let mut state = from.copy(alloc)?;
        apply_all(svc, &mut state, events);
        Ok(state)
    }
}

/// Does events one after another. They run from the state.
fn apply_all(svc: &Checked, state: &mut State, events: &[Event])
    requires sound { IsSound svc.now state.old }
    requires runs { IsSome (run svc.now state.old events.now) }
    requires counted { AreCounted events.now }
    ensures runs { run svc.now state.old events.now ≡ Some state.new }
    ensures sound { IsSound svc.now state.new }
{
    for event in events {
        state.apply(svc, event);
    }
}
