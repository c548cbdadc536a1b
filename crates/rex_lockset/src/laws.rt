//! What the refusals mean, as laws of the definitions that the contracts cite.

ghost use Rattle.rex_lockset.specs.Laws.{RefusalsAreExact, RefusalsAreThere};

/// A law: nothing in a service is refused exactly where each of its handlers passes, that is, has a flow and a short
/// enough bound on steps.
pub fn refusals_are_exact()
    ensures { RefusalsAreExact }
{}

/// A law: a refusal is of a handler that the service has, and of a line that the handler has.
pub fn refusals_are_there()
    ensures { RefusalsAreThere }
{}
