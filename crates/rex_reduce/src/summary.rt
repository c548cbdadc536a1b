//! Summaries of events: a clock that covers them and what comes before, and one that covers only what comes before.

ghost use Rattle.std.specs.Prelude.{◌≡◌, ◌<◌};
ghost use Rattle.rex_reduce.specs.Summaries as spec;

use rex_clocks::Clock;
use rex_event::LANES;

/// What is kept of some events of a trace.
#[derive(Drop)]
pub(crate) struct Summary {
    /// Covers these events, and what comes before one of them.
    pub clocks: Clock,
    /// Covers what comes before one of these events.
    pub befores: Clock,
}

impl Summary {
    /// Of no events.
    pub fn new() -> Summary
        ensures { result ≡ spec.nothing }
    {
        Summary {
            clocks: Clock::new(),
            befores: Clock::new(),
        }
    }

    /// Keeps just what another one keeps.
    pub fn copy_from(&mut self, other: &Summary)
        ensures { self.new ≡ other.now }
    {
        self.clocks.copy_from(&other.clocks);
        self.befores.copy_from(&other.befores);
    }

    /// Keeps just an event of a lane, which has this clock.
    pub fn copy_alone(&mut self, clock: &Clock, lane: u8)
        requires { lane < LANES }
        ensures { self.new ≡ spec.alone clock.now lane }
    {
        self.clocks.copy_from(clock);
        self.befores.copy_before(clock, lane);
    }

    /// Adds other events.
    #[inline(always)]
    pub fn merge(&mut self, other: &Summary)
        ensures { self.new ≡ spec.joined self.old other.now }
    {
        self.clocks.merge(&other.clocks);
        self.befores.merge(&other.befores);
    }

    /// Adds an event of a lane, which has this clock.
    pub fn add(&mut self, clock: &Clock, lane: u8)
        requires { lane < LANES }
        ensures { self.new ≡ spec.joined self.old (spec.alone clock.now lane) }
    {
        self.clocks.merge(clock);
        self.befores.merge_before(clock, lane);
    }
}
