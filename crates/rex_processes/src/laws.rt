//! What holds of every run of processes, whichever of them die, while they do whatever: messages may be lost, repeated, reordered and
//! handed to whomever, as long as none is altered. And what one process keeps by itself, and has to test. Each function is the statement
//! that its contract makes, and does nothing.

ghost use Rattle.rex_processes.specs.Laws.{ProcessesAgree, ProcessesBeginAgreed, ProcessesOnlyGrow, ProcessesGivePrefixes, ProcessesRun};
ghost use Rattle.rex_processes.specs.Laws.{ProcessesFitNext, ProcessesHappenOnce, ProcessesKeepReplies, ProcessesKeepAgreed, ProcessesTellAgreed};
ghost use Rattle.rex_processes.specs.Early.{ProcessesKeepEarly};
ghost use Rattle.rex_processes.specs.Tested.{TestedMessagesFit, TestedElectionsFit, AloneElectionsFit, NextFitsWhereItRuns};
ghost use Rattle.rex_processes.specs.Leading.{ActiveOpensStayFit, ActivesStayActing, ActivesRunInRange, CutsOfOneAreSpelled, CountsOfOneHaveRoom};
ghost use Rattle.rex_processes.specs.Plain.{RecordsStayPlain, PlainRecordsAreKept, PlainRecordsHoldAll, PlainRecordsTellNoState};
ghost use Rattle.rex_processes.specs.Plain.{ProcessesAreStateless, ProcessesStayInRange, TestsRefuseNone};

// ---- all processes

/// Two values that are chosen for one instance are equal.
pub fn values_agree_after_happenings()
    ensures { ProcessesAgree }
{}

/// What each process knows begins the agreed list.
pub fn known_begins_agreed_after_happenings()
    ensures { ProcessesBeginAgreed }
{}

/// What a process knows only grows, also where it dies and comes up again, and so does the agreed list.
pub fn lists_only_grow_after_happenings()
    ensures { ProcessesOnlyGrow }
{}

/// Of what two processes know, at whatever moments, one list begins the other.
pub fn known_lists_are_prefixes_after_happenings()
    ensures { ProcessesGivePrefixes }
{}

/// Each front of the agreed list runs from the start on one thread.
pub fn agreed_traces_run_after_happenings()
    ensures { ProcessesRun }
{}

/// What a process knows fits, and so does each value that it may know next: so a test of these refuses nothing that was sent.
pub fn next_values_fit_after_happenings()
    ensures { ProcessesFitNext }
{}

/// Each request has at most one begin and at most one reply in the agreed trace.
pub fn requests_happen_once_after_happenings()
    ensures { ProcessesHappenOnce }
{}

/// Each released reply stands in the trace of every later leader.
pub fn released_replies_stand_after_happenings()
    ensures { ProcessesKeepReplies }
{}

/// Each released reply stands in the agreed trace from then on.
pub fn released_replies_are_agreed_after_happenings()
    ensures { ProcessesKeepAgreed }
{}

/// Each reply that a message would release which was sent stands in the trace of every leader of a greater ballot, whatever becomes of
/// the process that would release it.
pub fn early_replies_stand_after_happenings()
    ensures { ProcessesKeepEarly }
{}

/// What a process tells a reader of a variable is its value after the first so many agreed deltas, which are at least as many as the
/// reader says that he has seen.
pub fn reads_are_of_the_agreed_after_happenings()
    ensures { ProcessesTellAgreed }
{}

/// Where none is ever told to write its state down, each process' records are plain, and no message tells a state.
pub fn processes_stay_stateless()
    ensures { ProcessesAreStateless }
{}

/// Where each asks another one that is there, and hears no message of its own, numbers stay in their ranges.
pub fn numbers_stay_in_range_after_happenings()
    ensures { ProcessesStayInRange }
{}

/// Where both is so, each message that was ever sent is a good one, and each process may hear it: tests of that refuse none.
pub fn tests_refuse_no_honest_message()
    ensures { TestsRefuseNone }
{}

// ---- one process by itself

/// Where all that a process knows fits, so does all that it knows after a message, if it tested what the message could make it know.
pub fn tested_messages_fit()
    ensures { TestedMessagesFit }
{}

/// So does all that it knows after it asked to lead, without a test.
pub fn tested_elections_fit()
    ensures { TestedElectionsFit }
{}

/// A process that is alone knows at once what it adopts, so it has to test that before it asks to lead.
pub fn alone_elections_fit()
    ensures { AloneElectionsFit }
{}

/// The test of a value: it fits after others exactly where it spells a delta that runs from the state to which they lead.
pub fn next_fits_where_it_runs()
    ensures { NextFitsWhereItRuns }
{}

/// The value that an active process has open fits after what it knows, whatever it does.
pub fn active_opens_stay_fit()
    ensures { ActiveOpensStayFit }
{}

/// An active process works with a recorder, whatever it does that names what is there.
pub fn actives_stay_acting()
    ensures { ActivesStayActing }
{}

/// The live events of one that does run on from what it knows, and their numbers are in their ranges.
pub fn actives_run_in_range()
    ensures { ActivesRunInRange }
{}

/// Where they are, the delta below each of its cuts has a spelling.
pub fn cuts_of_one_are_spelled()
    ensures { CutsOfOneAreSpelled }
{}

/// The count of each of its lanes has room for one more event.
pub fn counts_of_one_have_room()
    ensures { CountsOfOneHaveRoom }
{}

/// Plain records, of which none is of a state and none says that values were forgotten, stay plain whatever the process does but to
/// write its state down or to hear a state, and wherever an append fails.
pub fn records_stay_plain()
    ensures { RecordsStayPlain }
{}

/// A process with plain records appends nothing where it comes up.
pub fn plain_records_are_kept()
    ensures { PlainRecordsAreKept }
{}

/// Plain records hold all values that they know, and no state stands for any.
pub fn plain_records_hold_all()
    ensures { PlainRecordsHoldAll }
{}

/// A process with plain records tells no state, whatever it does.
pub fn plain_records_tell_no_state()
    ensures { PlainRecordsTellNoState }
{}
