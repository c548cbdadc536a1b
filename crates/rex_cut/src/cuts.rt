//! The greatest consistent cut of a trace below limits.

ghost use Rattle.std.specs.Prelude.{◌≡◌, ◌<◌, ◌≤◌, true, [], ◌&&◌, not, length, IfOk, OnOk};
ghost use Rattle.std.specs.List.{All};
ghost use Rattle.rex_event.specs.Cuts as cuts;
ghost use Rattle.rex_event.specs.Cuts.{IsGreatestCut};
ghost use Rattle.rex_cut.specs.Greatest as spec;
ghost use Rattle.rex_cut.specs.Greatest.{greatest_cut, IsCutOf};
ghost use Rattle.rex_clocks.specs.Lanes.{HasLane};
ghost use Rattle.rex_reduce.specs.Reduced.{HasNext};

use rex_event::{Cut, Event, LANES, conflict};
use rex_list::List;
use std::alloc::{AllocError, Global};

/// Whether an event is below a cut. If so, its lane's count is above its index, which leaves room for another one.
pub(crate) fn is_below(counts: &[u32], event: &Event) -> bool
    requires { event.now.lane < length counts.now }
    ensures is { result ≡ cuts.is_below counts.now event.now }
    ensures room { result ≡ true → HasNext event.now }
{
    event.index < counts[event.lane as usize]
}

fn meets_any(out: &[Event], event: &Event) -> bool
    requires out { All (HasLane LANES) out.now }
    requires event { event.now.lane < LANES }
    ensures { result ≡ spec.meets_any out.now event.now }
{
    out.iter().any(|earlier| conflict(earlier, event))
}

/// Whether an event stays below a cut from which these are left out.
fn stays(counts: &[u32], out: &[Event], event: &Event) -> bool
    requires few { length counts.now ≤ LANES }
    requires out { All (HasLane LANES) out.now }
    requires event { event.now.lane < length counts.now }
    ensures { result ≡ (cuts.is_below counts.now event.now && not (spec.meets_any out.now event.now)) }
{
    is_below(counts, event) && !meets_any(out, event)
}

/// Lowers a cut so that it is not above an event.
fn stop(counts: &mut [u32], event: &Event)
    requires { event.now.lane < length counts.old }
    ensures { counts.new ≡ spec.stopped counts.old event.now }
{
    if is_below(counts, event) {
        counts[event.lane as usize] = event.index;
    }
}

/// Lowers a cut until it is consistent.
fn lower(alloc: Global, counts: &mut [u32], events: &[Event]) -> Result<(), AllocError>
    requires few { length counts.old ≤ LANES }
    requires lanes { All (HasLane (length counts.old)) events.now }
    ensures { OnOk result (counts.new ≡ spec.lowered [] counts.old events.now) }
{
    let mut out = Vec::new(alloc);
    for event in events {
        if !stays(counts, &out, event) {
            stop(counts, event);
            out.push(*event)?;
        }
    }
    Ok(())
}

/// The greatest consistent cut of a trace below limits, which are counts of events by lane.
pub fn greatest(alloc: Global, limits: &[u32], events: &[Event]) -> Result<Cut, AllocError>
    requires { IsCutOf events.now limits.now }
    ensures is { IfOk result (λ c. c.counts ≡ greatest_cut limits.now events.now) }
    ensures greatest { IfOk result (λ c. IsGreatestCut limits.now events.now c.counts) }
    ensures cut { IfOk result (λ c. IsCutOf events.now c.counts) }
{
    let mut counts = limits.to_vec(alloc)?;
    lower(alloc, &mut counts, events)?;
    Ok(Cut {
        counts: List::from_vec(counts),
    })
}
