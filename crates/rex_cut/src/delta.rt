//! The delta below a cut: its events, each with the least causes that are right for them.

ghost use Rattle.std.specs.Prelude.{◌≡◌, ◌<◌, ◌≤◌, length, IfOk};
ghost use Rattle.std.specs.List.{All};
ghost use Rattle.rex_event.specs.Cuts as cuts;
ghost use Rattle.rex_event.specs.Cuts.{AreNumbered};
ghost use Rattle.rex_event.specs.Causes.{AreRight};
ghost use Rattle.rex_event.specs.Pieces.{AllCausesFit};
ghost use Rattle.rex_cut.specs.Greatest.{IsCutOf};
ghost use Rattle.rex_cut.specs.Delta as spec;
ghost use Rattle.rex_cut.specs.Delta.{delta_at};
ghost use Rattle.rex_clocks.specs.Lanes.{HasLane};
ghost use Rattle.rex_reduce.specs.Reduced.{AreLeast, HasNext};

use crate::cuts::is_below;
use rex_event::{Cut, Delta, Event};
use rex_list::List;
use rex_reduce::reduce;
use std::alloc::{AllocError, Global};

/// Sets the base of each lane that has events to the index of its first one.
fn lower_to_first(bases: &mut [u32], events: &[Event])
    requires { All (HasLane (length bases.old)) events.now }
    ensures { bases.new ≡ spec.bases_from events.now 0 bases.old }
{
    for event in events.iter().rev() {
        bases[event.lane as usize] = event.index;
    }
}

/// The events below a cut.
fn below(alloc: Global, counts: &[u32], events: &[Event]) -> Result<Vec<Event>, AllocError>
    requires { All (HasLane (length counts.now)) events.now }
    ensures is { IfOk result (λ v. v.items ≡ cuts.below counts.now events.now) }
    ensures room { IfOk result (λ v. All HasNext v.items) }
{
    let mut kept = Vec::with_capacity(alloc, events.len())?;
    for event in events {
        if is_below(counts, event) {
            kept.push(*event)?;
        }
    }
    Ok(kept)
}

/// The events below a cut in recorded order, each with its causes: the least that are right for these events.
pub fn delta_of(alloc: Global, cut: &Cut, events: &[Event]) -> Result<Delta, AllocError>
    requires { IsCutOf events.now cut.now.counts }
    ensures is { IfOk result (λ d. d ≡ delta_at cut.now.counts events.now) }
    ensures events { IfOk result (λ d. d.events ≡ cuts.below cut.now.counts events.now) }
    ensures right { IfOk result (λ d. AreRight d.events d.causes) }
    ensures least { IfOk result (λ d. AreLeast d.events d.causes) }
    ensures numbered { IfOk result (λ d. AreNumbered d.bases d.events) }
    ensures fit { IfOk result (λ d. AllCausesFit d.bases d.bases d.events d.causes) }
{
    let counts = cut.counts.as_slice();
    let mut bases = counts.to_vec(alloc)?;
    lower_to_first(&mut bases, events);
    let events = below(alloc, counts, events)?;
    let causes = reduce(alloc, &events)?;
    Ok(Delta {
        bases: List::from_vec(bases),
        events: List::from_vec(events),
        causes: List::from_vec(causes),
    })
}
