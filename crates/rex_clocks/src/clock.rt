//! A vector clock: for each lane, how many of its first events it covers.

ghost use Rattle.std.specs.Prelude.{◌≡◌, ◌<◌, ◌≤◌, ℕ, Decides};
ghost use Rattle.rex_event.specs.Cuts.{count_at};
ghost use Rattle.rex_clocks.specs.Counts as spec;
ghost use Rattle.rex_clocks.specs.First.{IsAhead};

use rex_event::LANES;
use std::marker::Model;

/// So many lanes are merged, copied or compared at once, without a loop up to a number that is known only in a run. Most
/// traces have no more.
const FEW: u8 = 16;

/// A vector clock (Mattern, 1989; Fidge, 1988): for each lane, numbered from 0, how many of its first events it covers.
#[derive(Drop)]
pub struct Clock {
    counts: [u32; LANES],
    /// So many of the first lanes have all that it covers: where a trace has few lanes the others cost nothing.
    lanes: u8,
}

impl Model for Clock {
    ghost use Rattle.std.specs.Prelude.{List, ℕ};
    ghost use Rattle.rex_clocks.specs.First.{HasFirst};

    ghost Value = { List ℕ };

    ghost view = { λ c. c.counts };

    ghost invariant = { λ c. HasFirst c.lanes c.counts };
}

impl Clock {
    /// A clock that covers nothing.
    pub fn new() -> Clock
        ensures { result ≡ spec.none }
    {
        Clock {
            counts: [0; LANES],
            lanes: 0,
        }
    }

    /// Covers one more event of a lane.
    pub fn tick(&mut self, lane: u8)
        requires lane { lane < LANES }
        requires room { count_at self.old lane < u32.MAX }
        ensures { self.new ≡ spec.ticked self.old lane }
    {
        self.counts[lane as usize] += 1;
        self.lanes = self.lanes.max(lane + 1);
    }

    /// Covers what another clock covers, too.
    #[inline(always)]
    pub fn merge(&mut self, other: &Clock)
        ensures { self.new ≡ spec.merged self.old other.now }
    {
        merge_counts(&mut self.counts, &other.counts, at_once(other.lanes));
        self.lanes = self.lanes.max(other.lanes);
    }

    /// Covers what another clock covers but for the last event of a lane there, too.
    pub fn merge_before(&mut self, other: &Clock, lane: u8)
        requires { lane < LANES }
        ensures { self.new ≡ spec.merged self.old (spec.unticked other.now lane) }
    {
        let own = lane as usize;
        let count = self.counts[own].max(other.counts[own].saturating_sub(1));
        merge_counts(&mut self.counts, &other.counts, at_once(other.lanes));
        self.counts[own] = count;
        self.lanes = self.lanes.max(other.lanes);
    }

    /// Covers just what another clock covers. Counts that are 0 in both aren't copied.
    pub fn copy_from(&mut self, other: &Clock)
        ensures { self.new ≡ other.now }
    {
        let used = self.lanes.max(other.lanes);
        copy_counts(&mut self.counts, &other.counts, at_once(used));
        self.lanes = other.lanes;
    }

    /// Covers just what another clock covers but for the last event of a lane there.
    pub fn copy_before(&mut self, other: &Clock, lane: u8)
        requires { lane < LANES }
        ensures { self.new ≡ spec.unticked other.now lane }
    {
        self.copy_from(other);
        let own = lane as usize;
        self.counts[own] = self.counts[own].saturating_sub(1);
    }

    /// Whether it covers an event of a lane other than this one that another clock doesn't cover.
    pub fn is_ahead(&self, other: &Clock, lane: u8) -> bool
        ensures { Decides result (IsAhead self.now other.now lane) }
    {
        is_any_more(&self.counts, &other.counts, lane, at_once(self.lanes))
    }

    /// So many of the first lanes have all that it covers.
    pub fn lanes(&self) -> u8
        ensures few { result ≤ LANES }
        ensures beyond { (lane : ℕ) → result ≤ lane → count_at self.now lane ≡ 0 }
    {
        self.lanes
    }

    /// How many events of a lane it covers; 0 where there is no such lane.
    pub fn count(&self, lane: u8) -> u32
        ensures { result ≡ count_at self.now lane }
    {
        match self.counts.get(lane as usize) {
            Some(count) => *count,
            None => 0,
        }
    }

    /// Whether it covers an event of a lane, which stands at this place among the lane's events in the trace, from 0.
    pub fn covers(&self, lane: u8, place: u32) -> bool
        ensures { result ≡ spec.covers self.now lane place }
    {
        place < self.count(lane)
    }
}

/// How many lanes are looked at for so many.
#[inline(always)]
fn at_once(lanes: u8) -> u8
    requires { lanes ≤ LANES }
    ensures few { result ≤ LANES }
    ensures all { lanes ≤ result }
{
    if lanes == 0 {
        0
    } else if lanes <= FEW {
        FEW
    } else {
        LANES as u8
    }
}

/// Raises each count to the other's, where that is greater. The others are 0 but for so many first ones.
#[inline(always)]
fn merge_counts(counts: &mut [u32; LANES], others: &[u32; LANES], lanes: u8)
    requires few { lanes ≤ LANES }
    requires beyond { (lane : ℕ) → lanes ≤ lane → count_at others.now lane ≡ 0 }
    ensures { counts.new ≡ spec.merged counts.old others.now }
{
    for lane in 0..lanes as usize {
        counts[lane] = counts[lane].max(others[lane]);
    }
}

/// Makes each count the other's. They are the same but for so many first ones.
#[inline(always)]
fn copy_counts(counts: &mut [u32; LANES], others: &[u32; LANES], used: u8)
    requires few { used ≤ LANES }
    requires beyond { (lane : ℕ) → used ≤ lane → count_at counts.old lane ≡ count_at others.now lane }
    ensures { counts.new ≡ others.now }
{
    for lane in 0..used as usize {
        counts[lane] = others[lane];
    }
}

/// Whether one of so many counts but for one lane's is more than the other's.
#[inline(always)]
fn is_any_more(counts: &[u32; LANES], others: &[u32; LANES], own: u8, lanes: u8) -> bool
    requires few { lanes ≤ LANES }
    requires beyond { (lane : ℕ) → lanes ≤ lane → count_at counts.now lane ≡ 0 }
    ensures { Decides result (IsAhead counts.now others.now own) }
{
    let mut any = false;
    for lane in 0..u32::from(lanes) {
        any |= (others[lane as usize] < counts[lane as usize]) & (lane != u32::from(own));
    }
    any
}
