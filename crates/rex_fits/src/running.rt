//! Events that may run or not.

ghost use Rattle.std.specs.Prelude.{◌≡◌, true, is_some, Some};
ghost use Rattle.rex_state.specs.Machine as spec;
ghost use Rattle.rex_state.specs.Counts.{AreCounted};
ghost use Rattle.rex_state.specs.Sound.{IsSound};
ghost use Rattle.rex_fits.specs.Applied.{RunsInPart};

use rex_event::Event;
use rex_state::state::State;
use rex_syntax::checked::Checked;

// Whether the event is next: its lane's next one, and one that the state allows.
fn is_next(svc: &Checked, state: &State, event: &Event) -> bool
    requires { IsSound svc.now state.now }
    ensures { result ≡ is_some (spec.next svc.now state.now event.now) }
{
    state.done(event.lane) == event.index && state.enabled(svc, event)
}

/// Does events one after another up to the first that isn't next, and answers whether all were. It takes no memory.
pub(crate) fn run_all(svc: &Checked, state: &mut State, events: &[Event]) -> bool
    requires sound { IsSound svc.now state.old }
    requires counted { AreCounted events.now }
    ensures all { result ≡ is_some (spec.run svc.now state.old events.now) }
    ensures runs { result ≡ true → spec.run svc.now state.old events.now ≡ Some state.new }
    ensures part { RunsInPart svc.now state.old events.now state.new }
    ensures sound { IsSound svc.now state.new }
{
    let _service = svc.declarations();
    for event in events {
        if !is_next(svc, state, event) {
            return false;
        }
        state.apply(svc, event);
    }
    true
}
