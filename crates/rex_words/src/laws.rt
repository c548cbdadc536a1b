//! What stamps give. Each function is the statement that its contract makes, and does nothing.

ghost use Rattle.rex_words.specs.Laws.{HoldersAreLast, NewEventsAreApart, EventsFindTheirPlace};
ghost use Rattle.rex_words.specs.Laws.{GatheredListsAreOne, RecordingsEndOver, EmptyHistoriesBeginNothing};
ghost use Rattle.rex_words.specs.Moments.{ViewsKnowWhatIsSo, LanesHaveOneView, FreshLanesDidNothing, MomentsRun};
ghost use Rattle.rex_words.specs.Own.{OwnEventsGoAlong, OthersStayOwn};
ghost use Rattle.rex_words.specs.Kept.{BeginningsHold, QuietEventsEnter, LooksKeep, FailuresKeep, LoadsKeep, StoresKeep, TakesKeep, ReleasesKeep};

/// At each moment what the view of a lane's seat knows is so.
pub fn views_know_what_is_so()
    ensures { ViewsKnowWhatIsSo }
{}

/// At no moment do two seats have one lane.
pub fn lanes_have_one_view()
    ensures { LanesHaveOneView }
{}

/// At each moment a lane that had no seat yet did nothing.
pub fn fresh_lanes_did_nothing()
    ensures { FreshLanesDidNothing }
{}

/// At each moment the events of all seats' views, in order of stamp and then of lane, are a run, and the word of each lock has
/// the stamp of its last acquisition or release, and its holder.
pub fn moments_run()
    ensures { MomentsRun }
{}

/// Where a lane holds a lock, no event on the lock has a greater stamp than the lane's last.
pub fn holders_are_last()
    ensures { HoldersAreLast }
{}

/// An event that is next in the state of what was recorded conflicts with no recorded event of the same stamp or a greater one.
pub fn new_events_are_apart()
    ensures { NewEventsAreApart }
{}

/// An event that is next in the state of what was recorded, put at the place that its stamp and its lane give it, makes
/// what is recorded a run to the state after it: recorded events, in order of stamp and then of lane, are a run.
pub fn events_find_their_place()
    ensures { EventsFindTheirPlace }
{}

/// An event that is next in its lane's own state, whose lock is free and whose variables are loaded, is next in the state
/// of all lanes, and leads to one with which the lane's own goes on.
pub fn own_events_go_along()
    ensures { OwnEventsGoAlong }
{}

/// An event of one lane leaves what the others have of the state of all lanes.
pub fn others_stay_own()
    ensures { OthersStayOwn }
{}

/// At the end of a history that lanes recorded each is idle, and has no request that may begin, or has too many events to begin it.
pub fn recordings_end_over()
    ensures { RecordingsEndOver }
{}

/// Lanes recorded nothing only where no lane has a first request that may begin: a run of lanes that does nothing is no
/// recording of requests that may begin.
pub fn empty_histories_begin_nothing()
    ensures { EmptyHistoriesBeginNothing }
{}

/// There is one list in order with the events of the lanes, so whoever gathers them in order gathers what was recorded.
pub fn gathered_lists_are_one()
    ensures { GatheredListsAreOne }
{}

/// What is true at each moment is true at the beginning.
pub fn beginnings_hold()
    ensures { BeginningsHold }
{}

/// An event without a lock that a lane did by itself enters what is known, and keeps what is true at each moment.
pub fn quiet_events_enter()
    ensures { QuietEventsEnter }
{}

/// The load of a lock's word keeps what is true at each moment.
pub fn looks_keep()
    ensures { LooksKeep }
{}

/// So does an exchange that fails.
pub fn failures_keep()
    ensures { FailuresKeep }
{}

/// So does the load of a variable whose lock was noted without an owner and isn't the lane's.
pub fn loads_keep()
    ensures { LoadsKeep }
{}

/// So does the store of a variable whose guard the lane holds.
pub fn stores_keep()
    ensures { StoresKeep }
{}

/// So does the exchange by which a lane takes a lock.
pub fn takes_keep()
    ensures { TakesKeep }
{}

/// So does the store by which a lane gives a lock up.
pub fn releases_keep()
    ensures { ReleasesKeep }
{}
