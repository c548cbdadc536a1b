//! The replay of values.

ghost use Rattle.std.specs.Prelude.{◌≡◌, ◌++◌, Some, IsSome, IfOk, OnOk};
ghost use Rattle.rex_state.specs.Counts.{AreCounted};
ghost use Rattle.rex_state.specs.Machine.{run};
ghost use Rattle.rex_state.specs.Sound.{IsSound};
ghost use Rattle.rex_cluster.specs.Values.{events_of, trace_of};

use rex_ballot::Value;
use rex_delta::{DecodeError, append_events, decode_events};
use rex_event::Event;
use rex_list::List;
use rex_replay::Replayer;
use rex_state::state::State;
use rex_syntax::checked::Checked;
use std::alloc::{AllocError, Global};

/// The state to which the events of the deltas lead that values spell, one delta after another. They run from the state.
pub fn replay_values<R: Replayer>(
    alloc: Global,
    svc: &Checked,
    replayer: &mut R,
    from: &State,
    values: &[Value],
) -> Result<State, AllocError>
    requires sound { IsSound svc.now from.now }
    requires runs { IsSome (run svc.now from.now (trace_of values.now)) }
    ensures runs { IfOk result (λ s. run svc.now from.now (trace_of values.now) ≡ Some s) }
{
    let events = joined(alloc, values)?;
    replayer.replay(alloc, svc, from, &events)
}

// The events of the deltas that values spell, one delta after another.
fn joined(alloc: Global, values: &[Value]) -> Result<Vec<Event>, AllocError>
    ensures events { IfOk result (λ es. es.items ≡ trace_of values.now) }
    ensures counted { IfOk result (λ es. AreCounted es.items) }
{
    let mut events = Vec::new(alloc);
    for value in values {
        append_value(&mut events, value.as_slice())?;
    }
    Ok(events)
}

// Appends the events of the delta that a value spells; none where it spells none.
fn append_value(events: &mut Vec<Event>, value: &[u8]) -> Result<(), AllocError>
    ensures events { OnOk result (events.new.items ≡ events.old.items ++ events_of value.now) }
    ensures counted { AreCounted (events_of value.now) }
{
    match append_events(events, value) {
        Ok(()) => Ok(()),
        Err(DecodeError::OutOfMemory) => Err(AllocError),
        Err(DecodeError::Bad { .. }) => Ok(()),
    }
}

/// The events of the delta that a value spells; none where it spells none.
pub fn events_in(alloc: Global, value: &[u8]) -> Result<List<Event>, AllocError>
    ensures events { IfOk result (λ es. es ≡ events_of value.now) }
    ensures counted { IfOk result AreCounted }
{
    match decode_events(alloc, value) {
        Ok(events) => Ok(events),
        Err(DecodeError::OutOfMemory) => Err(AllocError),
        Err(DecodeError::Bad { .. }) => Ok(List::new(alloc)),
    }
}

/// The same value.
pub(crate) fn copied(alloc: Global, value: &[u8]) -> Result<Value, AllocError>
    ensures { IfOk result (λ v. v ≡ value.now) }
{
    Ok(List::from_vec(Vec::from_slice(alloc, value)?))
}
