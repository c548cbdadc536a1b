//! What replays events.

use rex_event::Event;
use rex_state::state::State;
use rex_syntax::checked::Checked;
use std::alloc::{AllocError, Global};

/// Something that replays events.
pub trait Replayer {
    ghost use Rattle.std.specs.Prelude.{◌≡◌, Some, IsSome, IfOk};
    ghost use Rattle.rex_state.specs.Machine.{run};
    ghost use Rattle.rex_state.specs.Sound.{IsSound};
    ghost use Rattle.rex_state.specs.Counts.{AreCounted};

    /// The state to which the events run from a state. It fails only for want of memory.
    fn replay(
        &mut self,
        alloc: Global,
        svc: &Checked,
        from: &State,
        events: &[Event],
    ) -> Result<State, AllocError>
        requires sound { IsSound svc.now from.now }
        requires runs { IsSome (run svc.now from.now events.now) }
        requires counted { AreCounted events.now }
        ensures runs { IfOk result (λ s. run svc.now from.now events.now ≡ Some s) }
        ensures sound { IfOk result (λ s. IsSound svc.now s) };
}
