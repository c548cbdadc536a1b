//! A board on which two lanes share a lock, in either order, while a third one is blocked.

ghost use Rattle.std.specs.Prelude.{◌≡◌, ◌≢◌, ◌<◌, ℕ, true, length, slice_index_or, Some, IsSome};
ghost use Rattle.rex_state.specs.Sound.{IsSound};
ghost use Rattle.rex_state.specs.Machine.{next, run};
ghost use Rattle.rex_state.specs.Counts.{AreCounted};
ghost use Rattle.rex_board.specs.declared.seat.LaneSeat.{LaneSeat};
ghost use Rattle.rex_board.specs.declared.board.BoardTurn.TheVariants.{Finished};
ghost use Rattle.rex_board.specs.Recorded.{IsRecording, service_of};
ghost use Rattle.rex_board.specs.Turns.{HasNoneLeft};
ghost use Rattle.rex_board.specs.Boards.{IsBoard, recording_of, table_of};
ghost use Rattle.rex_board.specs.Dealing.{AreDealt};
ghost use Rattle.rex_board.specs.Finishing.{AreAllFinished};

use crate::cut::{at, cause};
use crate::replay::are_counted;
use crate::services::checked;
use crate::state::start;
use rex_board::{Board, BoardTurn, LaneSeat};
use rex_event::{Cause, Event, Kind};
use rex_list::{Arguments, List};
use rex_reduce::reduce;
use rex_state::state::State;
use rex_syntax::checked::Checked;
use std::alloc::Global;
use std::process::Abort;
use std::test::*;

/// Three lanes; `get` reads the variable under the shared lock, `put` writes it under the lock.
const SHARED: &str =
    "lanes 3\nrwlock M\nvar a on M = 4\nhandler get\nshare M\nlet r = a\nrelease M\nreply r\nhandler put x\nacquire M\nset a = x\nrelease M\nreply x\n";

/// The begin of a lane's request: the first two lanes get, the third puts 9.
fn begin(lane: u8) -> Event {
    let mut arguments = Arguments::new();
    if lane == 2 {
        arguments.push(9);
    }
    let kind = Kind::Begin {
        client: lane as u16 + 1,
        sequence: 1,
        handler: if lane == 2 { 1 } else { 0 },
        arguments,
    };
    at(lane, 0, kind)
}

/// Two lanes share the lock and release it; a third begins meanwhile, and takes the lock.
fn events() -> [Event; 8] {
    [
        begin(0),
        at(0, 1, Kind::AcqSh { lock: 0 }),
        begin(1),
        at(1, 1, Kind::AcqSh { lock: 0 }),
        begin(2),
        at(0, 2, Kind::RelSh { lock: 0 }),
        at(1, 2, Kind::RelSh { lock: 0 }),
        at(2, 1, Kind::AcqEx { lock: 0 }),
    ]
}

/// Whether only the last event has causes: the two releases.
fn are_expected(causes: &[List<Cause>]) -> bool {
    for place in 0..causes.len() {
        let found = causes[place].as_slice();
        let is_expected = if place == 7 {
            found == [cause(0, 2), cause(1, 2)].as_slice()
        } else {
            found.is_empty()
        };
        if !is_expected {
            return false;
        }
    }
    causes.len() == 8
}

/// Does an event, if it is its lane's next one and enabled.
fn apply(state: &mut State, svc: &Checked, event: &Event) -> bool
    requires { IsSound svc.now state.old }
    ensures sound { IsSound svc.now state.new }
    ensures next { result ≡ true → next svc.now state.old event.now ≡ Some state.new }
{
    if event.index >= 100 || event.index != state.done(event.lane) || !state.enabled(svc, event) {
        return false;
    }
    state.apply(svc, event);
    true
}

/// Does events one after another, as far as each is enabled in its turn; whether all were.
fn apply_all(state: &mut State, svc: &Checked, events: &[Event]) -> bool
    requires { IsSound svc.now state.old }
    ensures { result ≡ true → run svc.now state.old events.now ≡ Some state.new }
{
    for event in events {
        if !apply(state, svc, event) {
            return false;
        }
    }
    true
}

/// The least causes of events that run.
fn causes_of(
    rt: &impl Abort,
    alloc: Global,
    svc: &Checked,
    from: &State,
    events: &[Event],
) -> List<List<Cause>>
    requires sound { IsSound svc.now from.now }
    requires runs { IsSome (run svc.now from.now events.now) }
    requires counted { AreCounted events.now }
    ensures { IsRecording svc.now from.now events.now result }
{
    let _service = svc.declarations();
    List::from_vec(reduce(alloc, events).expect(rt, "memory"))
}

/// Takes a step of a lane.
fn step(board: &Board, seats: &mut [LaneSeat], lane: usize) -> BoardTurn
    requires board { IsBoard board.now }
    requires seats { AreDealt (recording_of board.now) (table_of board.now) (length seats.old) seats.old }
    requires lane { lane < length seats.old }
    ensures seats { AreDealt (recording_of board.now) (table_of board.now) (length seats.old) seats.new }
    ensures others { (k : ℕ) (d : LaneSeat) → k ≢ lane → slice_index_or seats.new k d ≡ slice_index_or seats.old k d }
    ensures finished { result ≡ Finished → (d : LaneSeat) → HasNoneLeft (recording_of board.now) (slice_index_or seats.new lane d) }
{
    board.step(&mut seats[lane])
}

/// Takes steps of lanes, each of which has to do an event.
fn do_in_order(rt: &impl Abort, board: &Board, seats: &mut [LaneSeat], order: &[usize])
    requires board { IsBoard board.now }
    requires seats { AreDealt (recording_of board.now) (table_of board.now) (length seats.old) seats.old }
    ensures { AreDealt (recording_of board.now) (table_of board.now) (length seats.old) seats.new }
{
    for lane in order {
        assert!(rt; *lane < seats.len());
        assert!(rt; matches!(step(board, seats, *lane), BoardTurn::Done(_)));
    }
}

/// Whether no lane has an event left.
fn are_finished(board: &Board, seats: &mut [LaneSeat]) -> bool
    requires board { IsBoard board.now }
    requires seats { AreDealt (recording_of board.now) (table_of board.now) (length seats.old) seats.old }
    requires all { length seats.old ≡ (service_of (recording_of board.now)).lanes }
    ensures { result ≡ true → AreAllFinished (recording_of board.now) (table_of board.now) seats.new }
{
    for lane in 0..seats.len() {
        let BoardTurn::Finished = step(board, seats, lane) else {
            return false;
        };
    }
    true
}

/// Whether two states have the same variables, clients' entries and counts, and the same lane holds the lock.
fn are_same(found: &State, expected: &State) -> bool {
    found.variables() == expected.variables()
        && found.entries() == expected.entries()
        && found.exclusive_holder(0) == expected.exclusive_holder(0)
        && found.done(0) == expected.done(0)
        && found.done(1) == expected.done(1)
        && found.done(2) == expected.done(2)
}

/// The third lane begins and is blocked; then lanes go on in an order in which each step does an event.
fn replay(
    rt: &impl Abort,
    alloc: Global,
    svc: &Checked,
    from: &State,
    events: &List<Event>,
    causes: &List<List<Cause>>,
    order: &[usize],
) -> State
    requires { IsRecording svc.now from.now events.now causes.now }
{
    let (board, host, mut seats) = Board::new(alloc, svc, from, events, causes).expect(
        rt, "memory",
    );
    assert!(rt; seats.len() == 3);
    let blocked = BoardTurn::Blocked {
        lane: 0,
        index: 2,
        seen: 0,
    };
    assert!(rt; step(&board, &mut seats, 2) == BoardTurn::Done(begin(2)));
    assert!(rt; step(&board, &mut seats, 2) == blocked);
    do_in_order(rt, &board, &mut seats, order);
    assert!(rt; are_finished(&board, &mut seats));
    board.finish(host, seats)
}

fn readers_in_either_order(rt: &impl Abort, alloc: Global, svc: &Checked) {
    let from = start(rt, alloc, svc);
    let events = List::from_vec(events().to_vec(alloc).expect(rt, "memory"));
    let mut last = from.copy(alloc).expect(rt, "memory");
    assert!(rt; are_counted(events.as_slice()));
    assert!(rt; apply_all(&mut last, svc, events.as_slice()));
    let causes = causes_of(rt, alloc, svc, &from, events.as_slice());
    assert!(rt; are_expected(causes.as_slice()));
    let first = replay(
        rt,
        alloc,
        svc,
        &from,
        &events,
        &causes,
        &[0, 0, 0, 1, 1, 1, 2],
    );
    let second = replay(
        rt,
        alloc,
        svc,
        &from,
        &events,
        &causes,
        &[1, 1, 1, 0, 0, 0, 2],
    );
    assert!(rt; are_same(&first, &last) && are_same(&second, &last));
    assert!(rt; first.variables() == [9].as_slice() && first.exclusive_holder(0) == Some(2));
}

#[test]
fn boards_replay_in_any_order(rt: HostRuntime) {
    let svc = checked(&rt, rt.alloc(), SHARED);
    readers_in_either_order(&rt, rt.alloc(), &svc);
}
