//! The numbers of events, which their types keep: a number behind a reference is known to be of its type once it is read.

ghost use Rattle.std.specs.Prelude.{FitsSigned};
ghost use Rattle.std.specs.List.{All};
ghost use Rattle.std.specs.Int.{w64};
ghost use Rattle.rex_delta.specs.Spelling.{HasTypedKind, IsTyped};

use rex_event::{Event, Kind};

fn look_at_value(value: i64)
    ensures { FitsSigned w64 value }
{
    let _value = value;
}

fn look_at_values(values: &[i64])
    ensures { All (FitsSigned w64) values.now }
{
    for value in values {
        look_at_value(*value);
    }
}

fn look_at_kind(kind: &Kind)
    ensures { IsTyped kind.now }
{
    match kind {
        Kind::Begin { arguments, .. } => look_at_values(arguments.as_slice()),
        Kind::Clock { value } => look_at_value(*value),
        Kind::Random { value } => {
            let _value = *value;
        }
        Kind::Reply { value, .. } => look_at_value(*value),
        _ => {}
    }
}

fn look_at_event(event: &Event)
    ensures { HasTypedKind event.now }
{
    look_at_kind(&event.kind);
}

/// Looks at each event's numbers.
pub(crate) fn look_at_all(events: &[Event])
    ensures { All HasTypedKind events.now }
{
    for event in events {
        look_at_event(event);
    }
}
