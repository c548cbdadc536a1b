//! What an acceptor promises and accepts, what a proposer counts, and what a learner takes in order.

use rex_ballot::{Proposal, Proposals};
use rex_paxos::{Acceptor, Asked, Choice, Count, Learner, Prepared, Proposer, Vote, Why};
use std::test::*;

/// Ballots that are asked for, one after another, and the answers.
const PREPARED: [(u64, Prepared); 4] = [
    (17, Prepared::Promise { raise: true }),
    (17, Prepared::Promise { raise: false }),
    (33, Prepared::Promise { raise: true }),
    (18, Prepared::Nack { promised: 33 }),
];

/// Ballots and instances of proposals, one after another, and whether they may be accepted. Those that may be are.
const ASKED: [(u64, u32, Asked); 7] = [
    (18, 2, Asked::Accept { fresh: true }),
    (18, 2, Asked::Accept { fresh: false }),
    (18, 1, Asked::Accept { fresh: true }),
    (33, 2, Asked::Accept { fresh: true }),
    (18, 3, Asked::Nack { promised: 33 }),
    (18, 2, Asked::Nack { promised: 33 }),
    (33, 2, Asked::Accept { fresh: false }),
];

#[test]
fn an_acceptor_keeps_its_promise(rt: HostRuntime) {
    let mut acceptor = Acceptor::new(rt.alloc(), 0);
    for (ballot, answer) in PREPARED {
        assert_eq!(rt; acceptor.on_prepare(ballot), answer, "{ballot}");
    }
    assert_eq!(rt; acceptor.promised(), 33);
}

// The instance and the ballot of the proposal at a place.
fn shown(proposals: &[Proposal], place: usize) -> Option<(u32, u64)> {
    let proposal = proposals.get(place)?;
    Some((proposal.instance, proposal.ballot))
}

#[test]
fn an_acceptor_accepts_what_it_may(rt: HostRuntime) -> Result<(), Fail> {
    let mut acceptor = Acceptor::with_accepted(17, Proposals::new(rt.alloc()));
    for (ballot, instance, answer) in ASKED {
        assert_eq!(rt;
            acceptor.on_accept(ballot, instance),
            answer,
            "{ballot} {instance}"
        );
        if matches!(answer, Asked::Accept { .. }) {
            acceptor.set_accepted(ballot, instance, &[5])?;
        }
    }
    assert_eq!(rt; acceptor.promised(), 33);
    assert_eq!(rt; shown(acceptor.accepted(), 0), Some((1, 18)));
    assert_eq!(rt; shown(acceptor.accepted_from(2), 0), Some((2, 33)));
    acceptor.forget(1);
    assert!(rt; acceptor.accepted_for(1).is_none() && acceptor.accepted_for(2).is_some());
    Ok(())
}

#[test]
fn a_proposer_counts_promises(rt: HostRuntime) -> Result<(), Fail> {
    let mut proposer = Proposer::new(rt.alloc(), 3, 17);
    assert_eq!(rt; proposer.on_promise(17, 1, &[])?, Vote::NotYet { have: 1 });
    let why = Why::Again { from: 1 };
    assert_eq!(rt; proposer.on_promise(17, 1, &[])?, Vote::Ignored { why });
    assert_eq!(rt; proposer.on_promise(17, 2, &[])?, Vote::Quorum);
    let why = Why::Late;
    assert_eq!(rt; proposer.on_promise(17, 2, &[])?, Vote::Ignored { why });
    assert!(rt; !proposer.is_candidate());
    Ok(())
}

#[test]
fn a_proposer_counts_acceptances(rt: HostRuntime) {
    let mut proposer = Proposer::new(rt.alloc(), 3, 17);
    assert_eq!(rt; proposer.propose(1), Count::NotYet { have: 1 });
    let why = Why::Instance { got: 2, want: 1 };
    assert_eq!(rt; proposer.on_accepted(17, 2, 3), Vote::Ignored { why });
    assert_eq!(rt; proposer.on_accepted(17, 1, 3), Vote::Quorum);
    let why = Why::Instance { got: 1, want: 0 };
    assert_eq!(rt; proposer.on_accepted(17, 1, 2), Vote::Ignored { why });
    assert_eq!(rt; proposer.open_instance(), None);
}

#[test]
fn a_proposer_alone_has_a_majority(rt: HostRuntime) -> Result<(), Fail> {
    let mut proposer = Proposer::new(rt.alloc(), 1, 17);
    let why = Why::Ballot { got: 33, own: 17 };
    assert_eq!(rt; proposer.on_promise(33, 1, &[])?, Vote::Ignored { why });
    assert_eq!(rt;
        proposer.on_promise(proposer.ballot(), 1, &[])?,
        Vote::Quorum
    );
    assert_eq!(rt; proposer.propose(1), Count::Quorum);
    Ok(())
}

#[test]
fn a_proposer_takes_the_report_of_the_greatest_ballot(rt: HostRuntime) -> Result<(), Fail> {
    let first = [
        Proposal::new(rt.alloc(), 1, 17, &[5])?,
        Proposal::new(rt.alloc(), 2, 17, &[6])?,
    ];
    let second = [
        Proposal::new(rt.alloc(), 1, 33, &[7])?,
        Proposal::new(rt.alloc(), 2, 17, &[8])?,
    ];
    let mut proposer = Proposer::new(rt.alloc(), 5, 50);
    let _ = proposer.on_promise(50, 2, &first)?;
    let _ = proposer.on_promise(50, 5, &second)?;
    assert_eq!(rt; proposer.value_for(1), Some([7].as_slice()));
    assert_eq!(rt; proposer.value_for(2), Some([6].as_slice()));
    assert_eq!(rt; proposer.value_for(3), None);
    Ok(())
}

#[test]
fn a_learner_takes_instances_in_order(rt: HostRuntime) {
    let mut learner = Learner::new(0);
    assert_eq!(rt; learner.on_chosen(1), Choice::Take);
    let why = Why::Instance { got: 1, want: 2 };
    assert_eq!(rt; learner.on_chosen(1), Choice::Ignored { why });
    assert_eq!(rt; learner.known(), 1);
}
