//! What holds of all processes that answer frames, and of all clusters of them, whichever of them end, wherever: frames may be lost,
//! repeated, reordered and handed to whomever, as long as no message is altered. Each function is the statement that its contract makes,
//! and does nothing.

ghost use Rattle.rex_serve.specs.Laws.{AnswersAreHappenings, StartsAreHappenings, BreakingOffIsHappenings, CarriedBytesAreHeard, ServingIsTransitions};
ghost use Rattle.rex_serve.specs.Laws.{ClustersAreProcesses, ClustersKnowOneList, ClustersRun, ClustersHappenOnce, ClustersTellKnown};
ghost use Rattle.rex_serve.specs.Laws.{ClustersRefuseNone, ClustersKeepReplies, ClustersKeepAgreed};
ghost use Rattle.rex_serve.specs.Early.{ClustersKeepEarly};

use rex_flush::Flush;
use rex_traits::Keeper;

// ---- one process

/// What a process comes to by a frame, and what it sends in its answer, is what honest happenings make of its node in the model.
pub fn answers_are_happenings<K: Keeper>()
    ensures { AnswersAreHappenings K.records K.faults }
{}

/// So is what a process comes to that comes up with its records.
pub fn starts_are_happenings<K: Keeper>()
    ensures { StartsAreHappenings K.records }
{}

/// So are the records that are left where memory is short while a frame is answered.
pub fn breaking_off_is_happenings<K: Keeper>()
    ensures { BreakingOffIsHappenings K.records K.faults }
{}

// ---- frames

/// A process that is handed the bytes of a message that was told hears that one, or nothing.
pub fn told_bytes_are_heard()
    ensures { CarriedBytesAreHeard }
{}

/// What is kept for good of a process that is served, however that ends, is what it comes to by what may happen to it in a cluster, frame
/// by frame of its input; and whatever it told are answers to these frames.
pub fn serving_is_transitions<K: Flush>()
    ensures { ServingIsTransitions K.records K.kept K.faults }
{}

// ---- all processes of a cluster

/// What processes come to that begin without records and answer frames is what honest happenings make of the model's processes, so
/// each law of those holds of these.
pub fn clusters_are_processes<K: Keeper>()
    ensures { ClustersAreProcesses K.records K.faults }
{}

/// Of what two processes know, at whatever moments, one list begins the other; and what one knows only grows.
pub fn clusters_know_one_list<K: Keeper>()
    ensures { ClustersKnowOneList K.records K.faults }
{}

/// What each process knows runs from the start on one thread.
pub fn clusters_run<K: Keeper>()
    ensures { ClustersRun K.records K.faults }
{}

/// With a checked service each request has at most one begin and at most one reply in the trace of what a process knows.
pub fn clusters_happen_once<K: Keeper>()
    ensures { ClustersHappenOnce K.records K.faults }
{}

/// What a process tells a reader of a variable is its value after the first so many deltas that the process knows, which are at least as
/// many as the reader says that he has seen.
pub fn clusters_tell_what_is_known<K: Keeper>()
    ensures { ClustersTellKnown K.records K.faults }
{}

/// No process answers a message that was told by saying that a value doesn't fit.
pub fn clusters_refuse_no_told_message<K: Keeper>()
    ensures { ClustersRefuseNone K.records K.faults }
{}

/// Each reply that a process told stands in the trace of every later leader.
pub fn clusters_keep_replies<K: Keeper>()
    ensures { ClustersKeepReplies K.records K.faults }
{}

/// It stands in the trace of what some process knows, from then on.
pub fn clusters_keep_agreed_replies<K: Keeper>()
    ensures { ClustersKeepAgreed K.records K.faults }
{}

/// Each reply that a process would release if it heard a message that was told stands in the trace of every leader of a greater ballot,
/// whatever becomes of the process.
pub fn clusters_keep_early_replies<K: Keeper>()
    ensures { ClustersKeepEarly K.records K.faults }
{}
