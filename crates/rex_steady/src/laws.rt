//! What a leader that nothing disturbs comes to. Each function is the statement that its contract makes, and does nothing.

ghost use Rattle.rex_steady.specs.Steady.{LeadersAreSteady};

/// A leader that nothing disturbs leads to a world in which each node knows and has replayed the events that it was handed.
pub fn leaders_are_steady()
    ensures { LeadersAreSteady }
{}
