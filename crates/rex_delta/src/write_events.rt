//! Writing events and their causes.

ghost use Rattle.std.specs.Prelude.{◌≡◌, ◌<◌, ◌+◌, ◌++◌, OnOk};
ghost use Rattle.std.specs.List.{All, flat_map};
ghost use Rattle.std.specs.Int.{w32, to_be_bytes};
ghost use Rattle.rex_delta.specs.Spelling.{cause_bytes, event_bytes, events_bytes, HasTypedKind};
ghost use Rattle.rex_delta.specs.Writing.{HasLane, CanBeWritten, CanAllBeWritten};

use crate::write_kinds::kind;
use rex_event::{Cause, Event};
use rex_list::List;
use rex_wire::Writer;
use std::alloc::AllocError;

fn causes(writer: &mut Writer, causes: &[Cause]) -> Result<(), AllocError>
    requires { All HasLane causes.now }
    ensures { OnOk result (writer.new ≡ writer.old ++ flat_map cause_bytes causes.now) }
{
    for cause in causes {
        writer.u8(cause.lane + 1)?;
        writer.u32(cause.index)?;
    }
    Ok(())
}

fn event(writer: &mut Writer, event: &Event, its: &[Cause]) -> Result<(), AllocError>
    requires { CanBeWritten event.now its.now }
    ensures spelled { OnOk result (writer.new ≡ writer.old ++ event_bytes event.now its.now) }
    ensures typed { OnOk result (HasTypedKind event.now) }
{
    writer.u8(event.lane + 1)?;
    kind(writer, &event.kind)?;
    writer.u8(its.len() as u8)?;
    causes(writer, its)
}

/// Events, each with its causes.
pub fn events(
    writer: &mut Writer,
    events: &[Event],
    lists: &[List<Cause>],
) -> Result<(), AllocError>
    requires { CanAllBeWritten events.now lists.now }
    ensures spelled { OnOk result (writer.new ≡ writer.old ++ events_bytes events.now lists.now) }
    ensures typed { OnOk result (All HasTypedKind events.now) }
{
    for (e, list) in events.iter().zip(lists) {
        event(writer, e, list.as_slice())?;
    }
    Ok(())
}

/// How many events each lane did before.
pub fn bases(writer: &mut Writer, bases: &[u32]) -> Result<(), AllocError>
    ensures { OnOk result (writer.new ≡ writer.old ++ flat_map (to_be_bytes w32) bases.now) }
{
    for base in bases {
        writer.u32(*base)?;
    }
    Ok(())
}
