//! What every order that a trace allows comes to. Each function is the statement that its contract makes, and does nothing.

ghost use Rattle.rex_order.specs.Laws.{ExtensionsRunAlike, CutsRunAlike, EdgesAllowExtensions, DeltasAllowExtensions, SomeEventIsEnabled, EnabledEventsGoOn};

/// Events that run from a sound state run from it in the order of each linear extension, and end in the same state, with
/// the same entries and replies of clients.
pub fn extensions_run_alike()
    ensures { ExtensionsRunAlike }
{}

/// For each consistent cut, each linear extension of the events below it leads to the state at the cut.
pub fn cuts_run_alike()
    ensures { CutsRunAlike }
{}

/// Where the causes of a trace are right, the rearrangements of a cut's events that keep the order of each lane and the
/// causes are exactly the linear extensions.
pub fn edges_allow_extensions()
    ensures { EdgesAllowExtensions }
{}

/// The same of a trace that deltas join: what is to be kept is the order of each lane and the causes in each delta, and of
/// different deltas the order of events that conflict.
pub fn deltas_allow_extensions()
    ensures { DeltasAllowExtensions }
{}

/// At each cut that isn't the end some event is enabled: its lane's first that isn't below the cut, with all its causes
/// below it.
pub fn some_event_is_enabled()
    ensures { SomeEventIsEnabled }
{}

/// An event that is enabled at a consistent cut is next in the state there, and leads to the state at the cut with it, which
/// is consistent, too.
pub fn enabled_events_go_on()
    ensures { EnabledEventsGoOn }
{}
