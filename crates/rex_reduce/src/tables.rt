//! What is looked up in tables of summaries, and added there, by the places that events name.

ghost use Rattle.std.specs.Prelude.{◌≡◌, ◌<◌, OnOk};
ghost use Rattle.rex_reduce.specs.Summaries.{alone};
ghost use Rattle.rex_reduce.specs.Tables.{at, with_at, with_woken, Covers, AreAddedAt, AreAddedWoken};

use crate::names::waker_slot;
use crate::rows::Rows;
use crate::summary::Summary;
use rex_clocks::Clock;
use rex_event::{Event, LANES, is_waker};
use std::alloc::AllocError;

/// Copies what stands at a place. A summary is filled and not returned: moving one would cost more than its lanes in use.
pub(crate) fn copy_at(met: &mut Summary, rows: &Rows, place: u32)
    ensures { met.new ≡ at rows.now place }
{
    match rows.get(place) {
        Some(row) => row.copy_to(met),
        None => met.copy_from(&Summary::new()),
    }
}

/// Merges what stands at a place, if there is one.
pub(crate) fn merge_at(met: &mut Summary, rows: &Rows, place: Option<u32>)
    ensures { met.new ≡ with_at met.old rows.now place }
{
    let Some(place) = place else {
        return;
    };
    match rows.get(place) {
        Some(row) => row.merge_into(met),
        None => met.merge(&Summary::new()),
    }
}

/// Merges what stands at the places of a signal or broadcast.
pub(crate) fn merge_woken(met: &mut Summary, rows: &Rows, event: &Event)
    ensures { met.new ≡ with_woken met.old rows.now event.now.kind LANES }
{
    if is_waker(&event.kind) {
        merge_each_woken(met, rows, event);
    }
}

/// The same, a lane after the other.
fn merge_each_woken(met: &mut Summary, rows: &Rows, event: &Event)
    ensures { met.new ≡ with_woken met.old rows.now event.now.kind LANES }
{
    for lane in 0..LANES as u8 {
        merge_at(met, rows, waker_slot(event, lane));
    }
}

/// Adds an event of a lane, which has this clock, at a place, if there is one.
pub(crate) fn add_at(
    rows: &mut Rows,
    place: Option<u32>,
    own: &Clock,
    lane: u8,
) -> Result<(), AllocError>
    requires { lane < LANES }
    ensures { OnOk result (AreAddedAt rows.old place (alone own.now lane) rows.new) }
{
    if let Some(place) = place {
        rows.add(place, own, lane)?;
    }
    Ok(())
}

/// Adds an event of a lane, which has this clock and covers what stands at a place, if there is one.
pub(crate) fn put_at(
    rows: &mut Rows,
    place: Option<u32>,
    own: &Clock,
    lane: u8,
) -> Result<(), AllocError>
    requires lane { lane < LANES }
    requires covers { Covers (alone own.now lane) rows.old place }
    ensures { OnOk result (AreAddedAt rows.old place (alone own.now lane) rows.new) }
{
    if let Some(place) = place {
        rows.put(place, own, lane)?;
    }
    Ok(())
}

/// Adds an event, which has this clock, at the places of a signal or broadcast.
pub(crate) fn add_woken(rows: &mut Rows, event: &Event, own: &Clock) -> Result<(), AllocError>
    requires { event.now.lane < LANES }
    ensures { OnOk result (AreAddedWoken rows.old event.now.kind (alone own.now event.now.lane) LANES rows.new) }
{
    if is_waker(&event.kind) {
        add_each_woken(rows, event, own)?;
    }
    Ok(())
}

/// The same, a lane after the other.
fn add_each_woken(rows: &mut Rows, event: &Event, own: &Clock) -> Result<(), AllocError>
    requires { event.now.lane < LANES }
    ensures { OnOk result (AreAddedWoken rows.old event.now.kind (alone own.now event.now.lane) LANES rows.new) }
{
    for lane in 0..LANES as u8 {
        add_at(rows, waker_slot(event, lane), own, event.lane)?;
    }
    Ok(())
}
