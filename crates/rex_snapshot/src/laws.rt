//! What holds of all snapshots. Each function is the statement that its contract makes, and does nothing.

ghost use Rattle.rex_snapshot.specs.Laws.{EventsKeepLimits, NoSnapshotBeginsAnother, SnapshotsAreShort, StartIsLimited};

/// No snapshot begins another.
pub fn no_snapshot_begins_another()
    ensures { NoSnapshotBeginsAnother }
{}

/// A snapshot is short enough to be a value.
pub fn snapshots_are_short()
    ensures short { SnapshotsAreShort }
{}

/// A service starts in a state within the limits of snapshots.
pub fn start_is_limited()
    ensures { StartIsLimited }
{}

/// An event leads from a sound state within the limits to one within them, as long as its lane did fewer events
/// than a history has at most and, of a begin, the client and the sequence are in their ranges.
pub fn events_keep_limits()
    ensures { EventsKeepLimits }
{}
