//! Ranges of the numbers of nodes, ballots and instances, the least ballot above a promise, and proposals by instance.

use rex_ballot::{
    Proposal, Proposals, ballot_above, copy_all, is_ballot, is_instance, is_node, node_of,
};
use rex_list::List;
use std::test::*;

const NODES: [(u8, bool); 4] = [(0, false), (1, true), (9, true), (10, false)];

const INSTANCES: [(u32, bool); 4] = [(0, false), (1, true), (65_535, true), (65_536, false)];

const BALLOTS: [(u64, bool); 8] = [
    (9, false),
    (16, false),
    (17, true),
    (25, true),
    (26, false),
    (68_719_476_737, true),
    (68_719_476_745, true),
    (68_719_476_753, false),
];

/// A node, a promise, and the node's least ballot above it.
const NEXT_BALLOTS: [(u8, u64, Option<u64>); 8] = [
    (1, 0, Some(17)),
    (9, 16, Some(25)),
    (2, 17, Some(18)),
    (1, 17, Some(33)),
    (3, 18, Some(19)),
    (9, 68_719_476_744, Some(68_719_476_745)),
    (9, 68_719_476_745, None),
    (1, u64::MAX, None),
];

/// Proposals in the order in which they are put: instance, ballot, the value's byte.
const PUT: [(u32, u64, u8); 5] = [(3, 17, 5), (1, 17, 6), (3, 33, 7), (2, 17, 8), (1, 18, 9)];

#[test]
fn numbers_have_ranges(rt: HostRuntime) {
    for (node, there) in NODES {
        assert_eq!(rt; is_node(node), there, "{node}");
    }
    for (instance, there) in INSTANCES {
        assert_eq!(rt; is_instance(instance), there, "{instance}");
    }
    for (ballot, there) in BALLOTS {
        assert_eq!(rt; is_ballot(ballot), there, "{ballot}");
    }
    assert_eq!(rt; node_of(68_719_476_745), 9);
}

#[test]
fn a_ballot_is_the_least_above_a_promise(rt: HostRuntime) {
    for (node, promised, next) in NEXT_BALLOTS {
        assert!(rt; is_node(node));
        assert_eq!(rt; ballot_above(node, promised), next, "{node} {promised}");
    }
}

#[test]
fn a_proposal_is_copied(rt: HostRuntime) -> Result<(), Fail> {
    let proposal = Proposal::new(rt.alloc(), 1, 17, &[5, 6])?;
    let copy = proposal.copy(rt.alloc())?;
    assert_eq!(rt; (copy.instance, copy.ballot), (1, 17));
    assert_eq!(rt; copy.value.as_slice(), [5, 6].as_slice());
    let copies = copy_all(rt.alloc(), &[proposal, copy])?;
    assert_eq!(rt; copies.len(), 2);
    Ok(())
}

// Whether these are the proposals' instances and ballots.
fn are(proposals: &[Proposal], expected: &[(u32, u64)]) -> bool {
    proposals.len() == expected.len()
        && proposals.iter().zip(expected).all(|(proposal, numbers)| (
            proposal.instance,
            proposal.ballot,
        ) == *numbers)
}

#[test]
fn the_last_proposal_of_each_instance_stays(rt: HostRuntime) -> Result<(), Fail> {
    let mut proposals = Proposals::new(rt.alloc());
    for (instance, ballot, byte) in PUT {
        proposals.put(Proposal::new(rt.alloc(), instance, ballot, &[byte])?)?;
    }
    assert!(rt; are(proposals.as_slice(), &[(1, 18), (2, 17), (3, 33)]));
    assert!(rt; are(proposals.from_instance(2), &[(2, 17), (3, 33)]));
    assert!(rt;
        proposals
            .get(3)
            .is_some_and(|p| p.value.as_slice() == [7].as_slice())
    );
    assert!(rt; proposals.get(4).is_none());
    proposals.forget(2);
    assert!(rt; are(proposals.as_slice(), &[(3, 33)]));
    Ok(())
}

#[test]
fn proposals_are_of_a_list(rt: HostRuntime) -> Result<(), Fail> {
    let mut list = List::new(rt.alloc());
    list.push(Proposal::new(rt.alloc(), 4, 17, &[])?)?;
    let mut proposals = Proposals::from_list(list);
    proposals.put_copy(2, 17, &[])?;
    assert!(rt; are(proposals.as_slice(), &[(2, 17), (4, 17)]));
    Ok(())
}
