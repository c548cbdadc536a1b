//! The least causes of each event, found from the summary of those before it that conflict with it.

ghost use Rattle.std.specs.Prelude.{◌≡◌, ℕ, ◌+◌, ◌<◌, ◌≤◌, [], ◌∷◌, length, IfOk};
ghost use Rattle.std.specs.List.{All};
ghost use Rattle.rex_event.specs.Cuts.{count_at};
ghost use Rattle.rex_clocks.specs.Lanes.{HasLane};
ghost use Rattle.rex_reduce.specs.Reduced.{AreLeast, FitPieces, IsTrace, HasNext};
ghost use Rattle.rex_reduce.specs.Reduction as spec;
ghost use Rattle.rex_reduce.specs.Reduction.{reduced};

use crate::summary::Summary;
use crate::uses::Uses;
use rex_event::{Cause, Event, LANES};
use rex_list::List;
use std::alloc::{AllocError, Global};

/// The causes of an event: events of other lanes, rising by lane, at most one a lane.
pub type Causes = List<Cause>;

/// The index of each lane's first event.
fn first_indices(events: &[Event]) -> [u32; LANES]
    requires { All (HasLane LANES) events.now }
    ensures { result ≡ spec.first_indices events.now }
{
    let mut indices = [0; LANES];
    for event in events.iter().rev() {
        indices[event.lane as usize] = event.index;
    }
    indices
}

/// The causes of an event of a lane, by the summary of what conflicts with it: in each other lane the last event before it,
/// unless that comes before something that conflicts with it. Most events have none.
fn causes_of(
    alloc: Global,
    first: &[u32; LANES],
    own: u8,
    met: &Summary,
) -> Result<Causes, AllocError>
    requires { (lane : ℕ) → count_at first.now lane + count_at met.now.clocks lane ≤ 4294967296 }
    ensures { IfOk result (λ causes. causes ≡ spec.uncovered first.now met.now.clocks met.now.befores own LANES) }
{
    if met.clocks.is_ahead(&met.befores, own) {
        causes_by_lane(alloc, first, own, met)
    } else {
        Ok(List::new(alloc))
    }
}

/// The same, a lane after the other.
fn causes_by_lane(
    alloc: Global,
    first: &[u32; LANES],
    own: u8,
    met: &Summary,
) -> Result<Causes, AllocError>
    requires { (lane : ℕ) → count_at first.now lane + count_at met.now.clocks lane ≤ 4294967296 }
    ensures { IfOk result (λ causes. causes ≡ spec.uncovered first.now met.now.clocks met.now.befores own LANES) }
{
    let mut causes = List::new(alloc);
    for lane in 0..met.clocks.lanes() {
        let count = met.clocks.count(lane);
        if met.befores.count(lane) < count && lane != own {
            let index = first[lane as usize] + (count - 1);
            causes.push(Cause { lane, index })?;
        }
    }
    Ok(causes)
}

/// The causes of an event that is alone.
fn no_causes(alloc: Global) -> Result<Vec<Causes>, AllocError>
    ensures { IfOk result (λ v. v.items ≡ [] ∷ []) }
{
    let mut causes = Vec::new(alloc);
    causes.push(List::new(alloc))?;
    Ok(causes)
}

/// The causes of each event, by the tables of those before it.
fn causes_by_uses(alloc: Global, events: &[Event]) -> Result<Vec<Causes>, AllocError>
    requires trace { IsTrace events.now }
    requires room { All HasNext events.now }
    ensures { IfOk result (λ v. v.items ≡ reduced events.now) }
{
    let first = first_indices(events);
    let mut uses = Uses::new(alloc);
    let mut causes = Vec::new(alloc);
    let mut summary = Summary::new();
    for event in events {
        uses.met(event, &mut summary);
        causes.push(causes_of(alloc, &first, event.lane, &summary)?)?;
        summary.clocks.tick(event.lane);
        uses.add(event, &summary.clocks)?;
    }
    Ok(causes)
}

/// The causes of each event. Fewer than two events need no tables.
fn causes_of_each(alloc: Global, events: &[Event]) -> Result<Vec<Causes>, AllocError>
    requires trace { IsTrace events.now }
    requires room { All HasNext events.now }
    ensures { IfOk result (λ v. v.items ≡ reduced events.now) }
{
    match events.len() {
        0 => Ok(Vec::new(alloc)),
        1 => no_causes(alloc),
        _ => causes_by_uses(alloc, events),
    }
}

/// The least causes that are right for a trace: they lead, with the order of each lane, from one event to another exactly
/// where that one has to come first, and each family of causes that does so has them among its own. Each event's causes
/// are the last events of other lanes before it that have no event between (the transitive reduction of the order; Aho,
/// Garey and Ullman, 1972), found by vector clocks in steps that don't grow with the trace.
pub fn reduce(alloc: Global, events: &[Event]) -> Result<Vec<Causes>, AllocError>
    requires trace { IsTrace events.now }
    requires room { All HasNext events.now }
    ensures is { IfOk result (λ v. v.items ≡ reduced events.now) }
    ensures least { IfOk result (λ v. AreLeast events.now v.items) }
    ensures fit { IfOk result (λ v. FitPieces events.now v.items) }
{
    causes_of_each(alloc, events)
}
