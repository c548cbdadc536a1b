//! What is true of histories that lanes make. Each function is the statement that its contract makes, and does nothing.

ghost use Rattle.rex_live.specs.Laws.{HistoriesRun, EventsAreTold, RequestsBeginOnce, LendingKeepsState};

/// A history that lanes make runs from the service's start to the floor's state, which is sound.
pub fn histories_run()
    ensures { HistoriesRun }
{}

/// Each event of a history that lanes make is its lane's next one after those before it. A lock that a lane found busy was
/// held, a clock is the number of events before it, a random number is the dice's next word, and what is begun is a request
/// that was handed in.
pub fn events_are_told()
    ensures { EventsAreTold }
{}

/// A request begins at most once in a history that lanes make.
pub fn requests_begin_once()
    ensures { RequestsBeginOnce }
{}

/// What a floor keeps while lines are out is what the history's state says: who holds which lock, who waits, the values of
/// semaphores, what is known of clients, the values of variables that no lane holds exclusively, and the frames and guarded
/// values of the lanes whose lines are run. The lines that are out lead from it to the frames and guarded values of the
/// others.
pub fn lending_keeps_state()
    ensures { LendingKeepsState }
{}
