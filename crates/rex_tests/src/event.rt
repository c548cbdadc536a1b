//! Events that conflict or don't, and those that a cut contains.

use rex_event::{Cut, Event, Kind, conflict};
use rex_list::List;
use std::test::*;

const TAKEN: Kind = Kind::AcqEx { lock: 2 };

const SHARED: Kind = Kind::AcqSh { lock: 2 };

const GIVEN: Kind = Kind::RelSh { lock: 2 };

const TRIED: Kind = Kind::TryBusy { lock: 2 };

const SIGNAL: Kind = Kind::Signal {
    condition: 3,
    woken: Some(1),
};

const OTHER_SIGNAL: Kind = Kind::Signal {
    condition: 2,
    woken: Some(1),
};

const BROADCAST: Kind = Kind::Broadcast {
    condition: 3,
    woken: 6,
};

const WAKE: Kind = Kind::Wake {
    condition: 3,
    lock: 4,
};

const REPLY: Kind = Kind::Reply {
    client: 9,
    value: 1,
};

const OTHER_REPLY: Kind = Kind::Reply {
    client: 8,
    value: 1,
};

/// What two lanes did, lane 0 the first and lane 1 the second, and whether one of them has to come first.
const PAIRS: [(Kind, Kind, bool); 9] = [
    (TAKEN, SHARED, true),
    (SHARED, GIVEN, false),
    (TAKEN, TRIED, false),
    (SIGNAL, WAKE, true),
    (BROADCAST, WAKE, true),
    (OTHER_SIGNAL, WAKE, false),
    (REPLY, REPLY, true),
    (REPLY, OTHER_REPLY, false),
    (TRIED, OTHER_REPLY, false),
];

#[test]
fn events_conflict(rt: HostRuntime) {
    for (first, second, wanted) in &PAIRS {
        let earlier = Event {
            lane: 0,
            index: 0,
            kind: *first,
        };
        let later = Event {
            lane: 1,
            index: 0,
            kind: *second,
        };
        assert_eq!(rt; conflict(&earlier, &later), *wanted);
        assert_eq!(rt; conflict(&later, &earlier), *wanted);
    }
}

#[test]
fn a_cut_contains_the_events_before_its_counts(rt: HostRuntime) -> Result<(), Fail> {
    let counts = List::from_vec(vec![in rt.alloc(); 2, 0]?);
    let cut = Cut { counts };
    let kind = Kind::AcqEx { lock: 0 };
    for (lane, index, contained) in [(0, 1, true), (0, 2, false), (1, 0, false), (2, 0, false)] {
        assert_eq!(rt; cut.contains(&Event { lane, index, kind }), contained);
    }
    Ok(())
}
