//! What is kept of the events at a place of a table.

ghost use Rattle.std.specs.Prelude.{◌≡◌, ◌<◌, IfSome};
ghost use Rattle.rex_reduce.specs.Summaries as spec;
ghost use Rattle.rex_reduce.specs.Rows.{kept_of};

use crate::summary::Summary;
use rex_clocks::Clock;
use rex_event::LANES;
use std::marker::Model;

/// The summary of the events at a place. Where events exclude each other there, the last one comes after all others, so
/// that its clock alone tells the summary: then half of it needn't be copied.
#[derive(Drop)]
pub(crate) struct Row {
    /// Of the events, or only the clock of the last one.
    kept: Summary,
    /// The lane of the last event, where only its clock is kept.
    last: Option<u8>,
}

impl Model for Row {
    ghost use Rattle.std.specs.Prelude.{◌<◌, IfSome};
    ghost use Rattle.rex_event.specs.declared.event.TheConstants.{LANES};
    ghost use Rattle.rex_reduce.specs.declared.summary.Summary.{Summary};
    ghost use Rattle.rex_reduce.specs.Rows.{kept_of};

    ghost Value = { Summary };

    ghost view = { λ r. kept_of r.kept r.last };

    ghost invariant = { λ r. IfSome r.last (λ lane. lane < LANES) };
}

impl Row {
    /// Of no events.
    pub fn new() -> Row
        ensures { result ≡ spec.nothing }
    {
        Row {
            kept: Summary::new(),
            last: None,
        }
    }

    /// Makes a summary that of these events.
    pub fn copy_to(&self, met: &mut Summary)
        ensures { met.new ≡ self.now }
    {
        match self.last {
            Some(lane) => met.copy_alone(&self.kept.clocks, lane),
            None => met.copy_from(&self.kept),
        }
    }

    /// Adds these events to a summary.
    pub fn merge_into(&self, met: &mut Summary)
        ensures { met.new ≡ spec.joined met.old self.now }
    {
        match self.last {
            Some(lane) => met.add(&self.kept.clocks, lane),
            None => met.merge(&self.kept),
        }
    }

    /// Keeps just an event of a lane, which has this clock.
    pub fn put(&mut self, clock: &Clock, lane: u8)
        requires { lane < LANES }
        ensures { self.new ≡ spec.alone clock.now lane }
    {
        self.kept.clocks.copy_from(clock);
        self.last = Some(lane);
    }

    /// Adds an event of a lane, which has this clock.
    pub fn add(&mut self, clock: &Clock, lane: u8)
        requires { lane < LANES }
        ensures { self.new ≡ spec.joined self.old (spec.alone clock.now lane) }
    {
        keep_whole(&mut self.kept, self.last);
        self.last = None;
        self.kept.add(clock, lane);
    }
}

/// Makes of the clock of a last event its summary.
fn keep_whole(kept: &mut Summary, last: Option<u8>)
    requires { IfSome last (λ lane. lane < LANES) }
    ensures { kept.new ≡ kept_of kept.old last }
{
    if let Some(lane) = last {
        kept.befores.copy_before(&kept.clocks, lane);
    }
}
