//! Clocks that cover what they merge, and copy what others cover.

use rex_clocks::Clock;
use std::test::*;

#[test]
fn clocks_cover_what_they_merge(rt: HostRuntime) {
    let mut first = Clock::new();
    let mut second = Clock::new();
    assert!(rt; !first.covers(2, 0));
    first.tick(2);
    second.tick(2);
    second.tick(2);
    second.tick(15);
    first.merge(&second);
    let table = [
        (2, 1, true),
        (2, 2, false),
        (15, 0, true),
        (14, 0, false),
        (16, 0, false),
    ];
    for (lane, place, covered) in table {
        assert_eq!(rt; first.covers(lane, place), covered);
    }
    assert_eq!(rt; first.count(2), 2);
    assert_eq!(rt; first.lanes(), 16);
}

#[test]
fn clocks_copy_what_others_cover(rt: HostRuntime) {
    let mut first = Clock::new();
    let mut second = Clock::new();
    first.tick(2);
    second.tick(20);
    second.copy_from(&first);
    assert_eq!(rt; second.count(2), 1);
    assert_eq!(rt; second.count(20), 0);
    assert_eq!(rt; second.lanes(), 3);
}
