//! What least causes are. Each function is the statement that its contract makes, and does nothing.

ghost use Rattle.rex_reduce.specs.Laws.{LeastCausesAreOne, ReducedCausesAreLeast, ReducedCausesAreDirect};

/// A list of events has one family of least causes.
pub fn least_causes_are_one()
    ensures { LeastCausesAreOne }
{}

/// The reduced causes of a trace are the least that are right for it, and fit a piece.
pub fn reduced_causes_are_least()
    ensures { ReducedCausesAreLeast }
{}

/// Each event's reduced causes are the events of other lanes that have to come before it, with nothing between.
pub fn reduced_causes_are_direct()
    ensures { ReducedCausesAreDirect }
{}
