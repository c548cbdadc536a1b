//! Messages that stay under their numbers.

use rex_net::Net;
use std::test::*;

/// What is under a number once three messages were sent.
const KEPT: [(u64, Option<&[u8]>); 6] = [
    (0, None),
    (1, Some(&[1, 2])),
    (2, Some(&[])),
    (3, Some(&[3])),
    (4, None),
    (u64::MAX, None),
];

#[test]
fn messages_stay_under_their_numbers(rt: HostRuntime) -> Result<(), Fail> {
    let mut net = Net::new(rt.alloc());
    assert_eq!(rt; net.send(&[1, 2])?, 1);
    assert_eq!(rt; net.send(&[])?, 2);
    assert_eq!(rt; net.send(&[3])?, 3);
    for (number, message) in KEPT {
        assert_eq!(rt; net.get(number), message, "{number}");
    }
    assert_eq!(rt; net.count(), 3);
    Ok(())
}
