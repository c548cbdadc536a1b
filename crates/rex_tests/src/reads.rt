//! A client that reads at one node after another, and never goes back.

use rex_reads::{Read, Seen, admitted};
use std::test::*;

/// A node that is up or not, leads or not, and has replayed so many deltas, after which a variable is 7; what a client that reads it
/// there is told; and how far it has seen then. One client asks all of them in turn, and has seen 2 deltas by a reply at first.
const ASKED: [(bool, bool, u32, Read, u32); 7] = [
    (true, false, 1, Read::Behind { have: 1, seen: 2 }, 2),
    (true, false, 2, Read::Value { value: 7, at: 2 }, 2),
    (false, true, 9, Read::Down, 2),
    (true, true, 9, Read::Primary, 2),
    (true, false, 5, Read::Value { value: 7, at: 5 }, 5),
    (true, false, 4, Read::Behind { have: 4, seen: 5 }, 5),
    (true, false, 5, Read::Value { value: 7, at: 5 }, 5),
];

#[test]
fn a_client_never_goes_back(rt: HostRuntime) {
    let mut seen = Seen::new();
    assert_eq!(rt; seen.at(), 0);
    seen.raise(2);
    seen.raise(1);
    for (up, leads, replayed, told, number) in ASKED {
        let answer = admitted(up, leads, replayed, 7, &mut seen);
        assert_eq!(rt; (answer, seen.at()), (told, number), "{replayed}");
    }
}
