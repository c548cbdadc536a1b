//! What a history that is led to agreement comes to. Each function is the statement that its contract makes, and does nothing.

ghost use Rattle.rex_lead.specs.Lead.{HistoriesAreLed};

/// Each history that runs is led to a world in which each node knows and has replayed it, with the least causes that are right.
pub fn histories_are_led()
    ensures { HistoriesAreLed }
{}
