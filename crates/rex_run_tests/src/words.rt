//! Two lanes that meet at a lock, and what its word tells of who holds it.

ghost use Rattle.std.specs.Prelude.{◌≡◌, ◌<◌, None, length};
ghost use Rattle.rex_scenario.specs.Beyond.{IsPlain};
ghost use Rattle.rex_schedule.specs.Fits.{ScenarioFits};
ghost use Rattle.rex_words.specs.Dealing.{CanRecord};
ghost use Rattle.rex_words.specs.Histories.{AreSeats};
ghost use Rattle.rex_words.specs.Tables.{IsWords, assignment_of, table_of};

use rex_lockset::check;
use rex_scenario::{Scenario, read_unscheduled};
use rex_syntax::checked::Checked;
use rex_syntax::request::Request;
use rex_syntax::service::Service;
use rex_words::{WordSeat, WordTurn, Words};
use std::alloc::{AllocGlobal, Global};
use std::process::Abort;
use std::test::*;

/// Takes a step of a lane.
fn step(words: &Words, seats: &mut [WordSeat], lane: usize) -> WordTurn
    requires words { IsWords words.now }
    requires seats { AreSeats (assignment_of words.now) (table_of words.now) (length seats.old) seats.old }
    requires lane { lane < length seats.old }
    ensures { AreSeats (assignment_of words.now) (table_of words.now) (length seats.old) seats.new }
{
    words.step(&mut seats[lane])
}

/// Takes a step of a lane, which has to do an event with this stamp.
fn step_to(rt: &impl Abort, words: &Words, seats: &mut [WordSeat], lane: usize, stamp: u64)
    requires words { IsWords words.now }
    requires seats { AreSeats (assignment_of words.now) (table_of words.now) (length seats.old) seats.old }
    ensures { AreSeats (assignment_of words.now) (table_of words.now) (length seats.old) seats.new }
{
    assert!(rt; lane < seats.len());
    assert!(rt; matches!(step(words, seats, lane), WordTurn::Done(_)));
    assert!(rt; seats[lane].stamp == stamp);
}

/// Two lanes meet at a lock. The first acquires it with stamp 2, so its word is 2 * 128 + 1; it releases it with stamp 3, so its
/// word is 3 * 128; then the second acquires it with stamp 4, so its word is 4 * 128 + 2, as the first finds for its next request.
fn meet(rt: &impl Abort, words: &Words, seats: &mut [WordSeat])
    requires words { IsWords words.now }
    requires seats { AreSeats (assignment_of words.now) (table_of words.now) (length seats.old) seats.old }
    ensures { AreSeats (assignment_of words.now) (table_of words.now) (length seats.old) seats.new }
{
    assert!(rt; seats.len() == 2);
    step_to(rt, words, seats, 0, 1);
    step_to(rt, words, seats, 0, 2);
    step_to(rt, words, seats, 1, 1);
    let first_holds = WordTurn::Held { by: 1, seen: 257 };
    assert!(rt; step(words, seats, 1) == first_holds);
    step_to(rt, words, seats, 0, 3);
    step_to(rt, words, seats, 1, 4);
    step_to(rt, words, seats, 0, 4);
    step_to(rt, words, seats, 0, 5);
    let second_holds = WordTurn::Held { by: 2, seen: 514 };
    assert!(rt; step(words, seats, 0) == second_holds);
}

/// Lanes of a service meet at a lock, with these requests.
fn meet_for(rt: &impl Abort, alloc: Global, svc: &Checked, requests: &[Request])
    requires { CanRecord svc.now requests.now }
{
    let (words, _host, mut seats) = Words::new(alloc, svc, requests, 0).expect(rt, "memory");
    meet(rt, &words, &mut seats);
}

/// The counter, with two requests of the first lane and one of the second.
const MEETING: &[u8] = b"%nodes 1
%service
lanes 2
lock L
var a on L = 0
handler add x
acquire L
set a = a + x
let r = a
release L
reply r
%requests
1 1 add 5
2 1 add 7
1 2 add 1
%schedule
";

/// Lanes of a service of plain locks and variables meet at a lock, with a scenario's requests.
fn meet_plainly(rt: &impl Abort, alloc: Global, scenario: &Scenario, service: Service)
    requires fits { ScenarioFits service scenario.now }
    requires plain { IsPlain service }
{
    match check(alloc, service) {
        Ok(svc) => meet_for(rt, alloc, &svc, scenario.requests.as_slice()),
        Err(_) => panic!(rt; "the service passes the check"),
    }
}

/// Lanes of a scenario's service meet at a lock, with its requests.
fn meet_in(rt: &impl Abort, alloc: Global, scenario: &Scenario, service: Service)
    requires fits { ScenarioFits service scenario.now }
    requires plain { scenario.now.beyond ≡ None → IsPlain service }
{
    match scenario.beyond_words() {
        None => meet_plainly(rt, alloc, scenario, service),
        Some(_) => panic!(rt; "lock words can record it"),
    }
}

#[test]
fn a_lane_finds_who_holds_a_lock(rt: HostRuntime) {
    let alloc = rt.alloc();
    match read_unscheduled(alloc, MEETING) {
        Ok((scenario, service)) => meet_in(&rt, alloc, &scenario, service),
        Err(_) => panic!(&rt; "a scenario"),
    }
}
