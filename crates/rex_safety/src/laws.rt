//! What holds of every run of a world, whatever its schedule: messages may be lost, repeated and reordered, nodes may stop, fail and
//! come back, and active nodes may be handed events that no line spells. Each function is the statement that its contract makes, and
//! does nothing.

ghost use Rattle.rex_safety.specs.Laws.{ChosenValuesAgree, KnownBeginsAgreed, ListsOnlyGrow, KnownListsArePrefixes, AgreedTracesRun, BasesAreRight};
ghost use Rattle.rex_safety.specs.Laws.{AgreedListsAreGiven, NodesHoldAgreed, TransfersStayRight, RulesAreKept, RepliesStand, RepliesAreAgreed};
ghost use Rattle.rex_safety.specs.Laws.{RequestsHappenOnce, ActiveTracesRun, CutsAreFaithful, LeadersGoOnToTheEnd, NextValuesFit, NumbersStayInRange};
ghost use Rattle.rex_safety.specs.Laws.{CountsAreFew, AgreedCausesAreLeast, AgreedCutsGoFirst, ValuesStayBytes, ValuesStayShort, NodesStayKept};
ghost use Rattle.rex_safety.specs.Keeping.{BeginningsAreKept, StepsAreKept, LinesAreKept, KeptValuesFit, KeptBasesAreRight, KeptCutsAreSpelled};
ghost use Rattle.rex_safety.specs.Keeping.{KeptCutsAreFaithful, KeptCountsHaveRoom};
ghost use Rattle.rex_safety.specs.Rounds.{RoundsStayFew, RoundsAreLeft, DoingsKeepRoundsFew, DoingsLeaveRounds};
ghost use Rattle.rex_safety.specs.Faithful.{CutsStayFaithful, DoingsKeepCutsFaithful};
ghost use Rattle.rex_cluster.specs.Limits.{ValuesLeadToLimitedStates};
ghost use Rattle.rex_cluster.specs.Migrating.{MigrationsSayTheSame, MigrationsKeepStates, MigrationsHappenOnce};
ghost use Rattle.rex_safety.specs.Seeing.{ReadsAreReported, ReadsAreOfTheAgreed, ReadsNeverGoBack, ReadsShowReplies};
ghost use Rattle.rex_safety.specs.Doings.{TakesAreKept, DoingsAreKept, DoingsAgree, DoingsBeginAgreed, DoingsOnlyGrow, DoingsGivePrefixes, DoingsRun};
ghost use Rattle.rex_safety.specs.Doings.{DoingsKeepBases, DoingsGiveAgreed, DoingsHoldAgreed, DoingsTransferRightly, DoingsHappenOnce};
ghost use Rattle.rex_safety.specs.Doings.{DoingsKeepReplies, DoingsKeepAgreed, DoingsLetCutsGoFirst, DoingsKeepCausesLeast, DoingsFitNext};
ghost use Rattle.rex_safety.specs.Doings.{DoingsKeepBytes, DoingsKeepShort, DoingsKeepRules, DoingsKeepNodes, DoingsRunActives, DoingsKeepNumbers};
ghost use Rattle.rex_safety.specs.Doings.{DoingsReportReads, DoingsTellAgreed, DoingsNeverGoBack, DoingsShowReplies};

/// Two values that are chosen for one instance are equal (Lamport, 2001).
pub fn chosen_values_agree()
    ensures { ChosenValuesAgree }
{}

/// What each node knows begins the agreed list.
pub fn known_begins_agreed()
    ensures { KnownBeginsAgreed }
{}

/// What a node knows only grows, and so does the agreed list.
pub fn lists_only_grow()
    ensures { ListsOnlyGrow }
{}

/// Of what two nodes know, at whatever moments, one list begins the other.
pub fn known_lists_are_prefixes()
    ensures { KnownListsArePrefixes }
{}

/// Each front of the agreed list runs from the start on one thread.
pub fn agreed_traces_run()
    ensures { AgreedTracesRun }
{}

/// A checkpoint is of the state to which the known deltas up to it run.
pub fn bases_are_right()
    ensures { BasesAreRight }
{}

/// The agreed list is what records of any node give to instances 1, 2 and so on.
pub fn agreed_lists_are_given()
    ensures { AgreedListsAreGiven }
{}

/// What a node holds are the agreed values after its offset, and they lead from the state at its base on.
pub fn nodes_hold_agreed_values()
    ensures { NodesHoldAgreed }
{}

/// States that are told or taken over are those after the first agreed values.
pub fn transfers_stay_right()
    ensures { TransfersStayRight }
{}

/// The rules by which Paxos is explained hold after any lines.
pub fn rules_are_kept()
    ensures { RulesAreKept }
{}

/// Each released reply stands in the trace of every later leader.
pub fn released_replies_stand()
    ensures { RepliesStand }
{}

/// Each released reply stands in the agreed trace.
pub fn released_replies_are_agreed()
    ensures { RepliesAreAgreed }
{}

/// Each request has at most one begin and at most one reply in the agreed trace.
pub fn requests_happen_once()
    ensures { RequestsHappenOnce }
{}

/// The known deltas and then the live events of an active node run from the start on one thread.
pub fn active_traces_run()
    ensures { ActiveTracesRun }
{}

/// A cut of an active node is faithful wherever its delta has a spelling, so it is proposed.
pub fn cuts_are_faithful()
    ensures { CutsAreFaithful }
{}

/// In a run whose numbers are of 64 bits each cut that has an event below it is faithful.
pub fn cuts_stay_faithful()
    ensures { CutsStayFaithful }
{}

/// A node that leads goes on until it can't.
pub fn leaders_go_on_to_the_end()
    ensures { LeadersGoOnToTheEnd }
{}

/// What a node knows fits, and so does each value that it may know next.
pub fn next_values_fit()
    ensures { NextValuesFit }
{}

/// The ballots, instances and nodes in records and messages stay in their ranges.
pub fn numbers_stay_in_range()
    ensures { NumbersStayInRange }
{}

/// Rounds are at most as many as lines.
pub fn rounds_stay_few()
    ensures { RoundsStayFew }
{}

/// A run of at most 2^32 lines never lacks a round.
pub fn rounds_are_left()
    ensures { RoundsAreLeft }
{}

/// Each lane did at most as many events as a delta has for each agreed value.
pub fn counts_are_few()
    ensures { CountsAreFew }
{}

/// The causes of each agreed delta are the least that tell the order of its events.
pub fn agreed_causes_are_least()
    ensures { AgreedCausesAreLeast }
{}

/// The events below a consistent cut of the agreed trace may go first.
pub fn agreed_cuts_go_first()
    ensures { AgreedCutsGoFirst }
{}

/// Each value is bytes.
pub fn values_stay_bytes()
    ensures { ValuesStayBytes }
{}

/// No value grows too long for its bytes.
pub fn values_stay_short()
    ensures { ValuesStayShort }
{}

/// Each node's records are in order, and what it has replayed lies between its base and what it knows.
pub fn nodes_stay_kept()
    ensures { NodesStayKept }
{}

/// What every step keeps is so before the first line.
pub fn beginnings_are_kept()
    ensures { BeginningsAreKept }
{}

/// Each step keeps it.
pub fn steps_are_kept()
    ensures { StepsAreKept }
{}

/// Each line keeps it.
pub fn lines_are_kept()
    ensures { LinesAreKept }
{}

/// In a kept world values fit, are short and are bytes, nodes are kept, and active nodes act rightly.
pub fn kept_values_fit()
    ensures { KeptValuesFit }
{}

/// In a kept world a checkpoint is of the state to which the known deltas up to it run.
pub fn kept_bases_are_right()
    ensures { KeptBasesAreRight }
{}

/// The delta below a cut of an active node of a kept world has its numbers in their ranges, and few bytes.
pub fn kept_cuts_are_spelled()
    ensures { KeptCutsAreSpelled }
{}

/// A cut of an active node of a kept world is faithful where the numbers of its events are of their types.
pub fn kept_cuts_are_faithful()
    ensures { KeptCutsAreFaithful }
{}

/// The count of each lane of an active node of a kept world has room for one more event.
pub fn kept_counts_have_room()
    ensures { KeptCountsHaveRoom }
{}

/// Values that fit, no more than there are instances, lead to a state whose counts and sequences are in their ranges.
pub fn values_lead_to_limited_states()
    ensures { ValuesLeadToLimitedStates }
{}

/// A kept world of which a node is handed an event is kept.
pub fn takes_are_kept()
    ensures { TakesAreKept }
{}

/// So is one after lines and events that nodes are handed, where they name what is there.
pub fn doings_are_kept()
    ensures { DoingsAreKept }
{}

/// After any lines and events that nodes are handed, two values that are chosen for one instance are equal.
pub fn values_agree_after_doings()
    ensures { DoingsAgree }
{}

/// After them what each node knows begins the agreed list.
pub fn known_begins_agreed_after_doings()
    ensures { DoingsBeginAgreed }
{}

/// What a node knows only grows by them, and so does the agreed list.
pub fn lists_only_grow_after_doings()
    ensures { DoingsOnlyGrow }
{}

/// Of what two nodes know after them, at whatever moments, one list begins the other.
pub fn known_lists_are_prefixes_after_doings()
    ensures { DoingsGivePrefixes }
{}

/// After them each front of the agreed list runs from the start on one thread.
pub fn agreed_traces_run_after_doings()
    ensures { DoingsRun }
{}

/// After them a checkpoint is of the state to which the known deltas up to it run.
pub fn bases_are_right_after_doings()
    ensures { DoingsKeepBases }
{}

/// After them the agreed list is what records give.
pub fn agreed_lists_are_given_after_doings()
    ensures { DoingsGiveAgreed }
{}

/// What a node holds after them are the agreed values after its offset.
pub fn nodes_hold_agreed_values_after_doings()
    ensures { DoingsHoldAgreed }
{}

/// After them states that are told or taken over are those after the first agreed values.
pub fn transfers_are_right_after_doings()
    ensures { DoingsTransferRightly }
{}

/// After them each request has at most one begin and at most one reply in the agreed trace.
pub fn requests_happen_once_after_doings()
    ensures { DoingsHappenOnce }
{}

/// Each reply that is released among them stands in the trace of every later leader.
pub fn released_replies_stand_after_doings()
    ensures { DoingsKeepReplies }
{}

/// Each reply that is released among them stands in the agreed trace from then on.
pub fn released_replies_are_agreed_after_doings()
    ensures { DoingsKeepAgreed }
{}

/// After them rounds are at most as many as lines among them.
pub fn rounds_stay_few_after_doings()
    ensures { DoingsKeepRoundsFew }
{}

/// With at most 2^32 lines among them no round is ever lacking.
pub fn rounds_are_left_after_doings()
    ensures { DoingsLeaveRounds }
{}

/// After them the events below a consistent cut of the agreed trace may go first.
pub fn agreed_cuts_go_first_after_doings()
    ensures { DoingsLetCutsGoFirst }
{}

/// After them the causes of each agreed delta are the least that tell the order of its events.
pub fn agreed_causes_are_least_after_doings()
    ensures { DoingsKeepCausesLeast }
{}

/// After them what a node knows fits, and so does each value that it may know next.
pub fn next_values_fit_after_doings()
    ensures { DoingsFitNext }
{}

/// After them each value is bytes.
pub fn values_stay_bytes_after_doings()
    ensures { DoingsKeepBytes }
{}

/// After them no value is too long for its bytes.
pub fn values_stay_short_after_doings()
    ensures { DoingsKeepShort }
{}

/// After them the rules by which Paxos is explained hold.
pub fn rules_are_kept_after_doings()
    ensures { DoingsKeepRules }
{}

/// After them each node's records are in order, and what it has replayed lies between its base and what it knows.
pub fn nodes_stay_kept_after_doings()
    ensures { DoingsKeepNodes }
{}

/// After them the known deltas and then the live events of an active node run from the start on one thread.
pub fn active_traces_run_after_doings()
    ensures { DoingsRunActives }
{}

/// After them the ballots, instances and nodes in records and messages are in their ranges.
pub fn numbers_stay_in_range_after_doings()
    ensures { DoingsKeepNumbers }
{}

/// Each cut is faithful after them, where their numbers are of 64 bits.
pub fn cuts_stay_faithful_after_doings()
    ensures { DoingsKeepCutsFaithful }
{}

/// A migration leaves what outlives a node as it was: its promise, what it accepted and knows, and its base.
pub fn migrations_say_the_same()
    ensures { MigrationsSayTheSame }
{}

/// The last checkpoint before a migration and the last one after it are of one state.
pub fn migrations_keep_states()
    ensures { MigrationsKeepStates }
{}

/// A checkpoint is migrated once.
pub fn migrations_happen_once()
    ensures { MigrationsHappenOnce }
{}

/// A line that reads reports what its client is told, and no other value.
pub fn reads_are_reported()
    ensures { ReadsAreReported }
{}

/// A value that a client reads at a node is the variable's value after the first so many agreed deltas.
pub fn reads_are_of_the_agreed()
    ensures { ReadsAreOfTheAgreed }
{}

/// The number of deltas after which a client reads never falls, at whatever nodes it reads.
pub fn reads_never_go_back()
    ensures { ReadsNeverGoBack }
{}

/// Each reply that was released to a client before it reads stands in the trace to whose state the value belongs.
pub fn reads_show_replies()
    ensures { ReadsShowReplies }
{}

/// After events that nodes are handed, too, a line that reads reports what its client is told, and no other value.
pub fn reads_are_reported_after_doings()
    ensures { DoingsReportReads }
{}

/// After them a value that a client reads is the variable's value after the first so many agreed deltas.
pub fn reads_are_of_the_agreed_after_doings()
    ensures { DoingsTellAgreed }
{}

/// With them among the lines the number of deltas after which a client reads never falls.
pub fn reads_never_go_back_after_doings()
    ensures { DoingsNeverGoBack }
{}

/// With them among the lines each reply that was released to a client before it reads stands in the trace to whose state the value belongs.
pub fn reads_show_replies_after_doings()
    ensures { DoingsShowReplies }
{}
