//! Rounds over the seats of lanes.
ghost use Rattle.std.specs.Prelude.{◌≡◌, ◌≤◌, true, length};
ghost use Rattle.rex_board.specs.Turns.{IsSeatOf, HasNoneLeft};
ghost use Rattle.rex_board.specs.Boards.{IsBoard, recording_of, table_of};
ghost use Rattle.rex_crew.specs.Rounds.{AreSeatsOf, IsTurn, IsRound};

use rex_board::{Board, BoardTurn, LaneSeat};
use rex_traits::Gate;

/// What came of a turn of each of some seats: whether an event was done, and how many turns ended blocked.
#[derive(Drop)]
pub(crate) struct Round {
    pub done: bool,
    pub blocked: u64,
}

/// Whether a lane has no event left.
pub(crate) fn is_finished(board: &Board, me: &LaneSeat) -> bool
    requires board { IsBoard board.now }
    requires seat { IsSeatOf (recording_of board.now) (table_of board.now) me.now }
    ensures { result ≡ true → HasNoneLeft (recording_of board.now) me.now }
{
    me.place == board.events.len()
}

/// Does a lane's events for as long as their causes are done, each try behind the gate.
fn take_turn<G: Gate>(board: &Board, gate: &G, worker: u8, me: &mut LaneSeat) -> Round
    requires board { IsBoard board.now }
    requires seat { IsSeatOf (recording_of board.now) (table_of board.now) me.old }
    ensures { IsTurn (table_of board.now) (recording_of board.now) me.old me.new result.done result.blocked }
{
    let mut done = false;
    while !is_finished(board, me) {
        gate.enter(worker, me.lane, me.done);
        match board.step(me) {
            BoardTurn::Done(_) => done = true,
            BoardTurn::Blocked { .. } => return Round { done, blocked: 1 },
            BoardTurn::Finished => return Round { done, blocked: 0 },
        }
    }
    Round { done, blocked: 0 }
}

/// A turn of each seat.
pub(crate) fn go_round<G: Gate>(
    board: &Board,
    gate: &G,
    worker: u8,
    seats: &mut [LaneSeat],
) -> Round
    requires board { IsBoard board.now }
    requires seats { AreSeatsOf (table_of board.now) (recording_of board.now) seats.old }
    ensures round { IsRound (table_of board.now) (recording_of board.now) seats.old seats.new result.done result.blocked }
    ensures few { result.blocked ≤ length seats.old }
{
    let mut done = false;
    let mut blocked = 0;
    for me in seats.iter_mut() {
        let turn = take_turn(board, gate, worker, me);
        done |= turn.done;
        blocked += turn.blocked;
    }
    Round { done, blocked }
}
