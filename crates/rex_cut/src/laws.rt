//! What greatest cuts and deltas are. Each function is the statement that its contract makes, and does nothing.

ghost use Rattle.rex_cut.specs.Laws.{GreatestCutsAreGreatest, CausesAreRight, CausesAreLeast, DeltasFit};

/// Lowering a trace's limits leaves the greatest consistent cut below them.
pub fn greatest_cuts_are_greatest()
    ensures { GreatestCutsAreGreatest }
{}

/// With the order of each lane, the causes in the delta below a cut lead from one event to another exactly where that one
/// has to come before.
pub fn causes_are_right()
    ensures { CausesAreRight }
{}

/// Whatever causes are right for the events of the delta below a cut have the delta's causes among them.
pub fn causes_are_least()
    ensures { CausesAreLeast }
{}

/// The events of the delta below a cut are numbered on from its bases, and their causes are earlier events of other lanes.
pub fn deltas_fit()
    ensures { DeltasFit }
{}
