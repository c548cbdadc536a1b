//! Replay by one worker.
ghost use Rattle.std.specs.Prelude.{◌≡◌, Some, IsSome, IfOk};
ghost use Rattle.rex_state.specs.Machine.{run};
ghost use Rattle.rex_state.specs.Sound.{IsSound};
ghost use Rattle.rex_state.specs.Counts.{AreCounted};

use rex_event::Event;
use rex_state::state::State;
use rex_syntax::checked::Checked;
use rex_traits::Gate;
use std::alloc::{AllocError, Global};

/// Does events one after another in their order, each behind the gate.
fn do_all<G: Gate>(gate: &G, svc: &Checked, state: &mut State, events: &[Event])
    requires sound { IsSound svc.now state.old }
    requires runs { IsSome (run svc.now state.old events.now) }
    requires counted { AreCounted events.now }
    ensures runs { run svc.now state.old events.now ≡ Some state.new }
    ensures sound { IsSound svc.now state.new }
{
    for event in events {
        gate.enter(0, event.lane, event.index);
        state.apply(svc, event);
    }
}

/// The state to which events run from a state, done by the caller as the only worker, without a board.
pub(crate) fn replay_alone<G: Gate>(
    alloc: Global,
    gate: &G,
    svc: &Checked,
    from: &State,
    events: &[Event],
) -> Result<State, AllocError>
    requires sound { IsSound svc.now from.now }
    requires runs { IsSome (run svc.now from.now events.now) }
    requires counted { AreCounted events.now }
    ensures runs { IfOk result (λ s. run svc.now from.now events.now ≡ Some s) }
    ensures sound { IfOk result (λ s. IsSound svc.now s) }
{
    let mut state = from.copy(alloc)?;
    do_all(gate, svc, &mut state, events);
    Ok(state)
}
