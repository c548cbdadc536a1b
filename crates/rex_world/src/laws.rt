//! What holds of every run of a world. Each function is the statement that its contract makes, and does nothing.

ghost use Rattle.rex_world.specs.Laws.{HeadlineHolds, RunsStayFaithful};

/// What nodes know is one list, which runs on one thread and has every reply that was released; and what a client reads is of a
/// front of it that never gets shorter, and has each reply that the client got.
pub fn headline_holds()
    ensures { HeadlineHolds }
{}

/// Whatever an active node would cut is faithful wherever an event is below it, in a run whose lines name what is there and whose
/// numbers are of 64 bits. So the definitions' case of a cut that isn't faithful never comes.
pub fn runs_stay_faithful()
    ensures { RunsStayFaithful }
{}
