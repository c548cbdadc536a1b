//! What the caller does once the workers have handed their seats back.
ghost use Rattle.std.specs.Prelude.{◌≡◌, true, IfSome};
ghost use Rattle.rex_board.specs.Boards.{IsBoard, recording_of, table_of};
ghost use Rattle.rex_crew.specs.Rounds.{AreSeatsOf, AreSameLanes, AreFinished};

use crate::rounds::{go_round, is_finished};
use rex_board::{Board, LaneSeat};
use rex_traits::OpenGate;

/// Whether each lane has no event left.
fn all_finished(board: &Board, seats: &[LaneSeat]) -> bool
    requires board { IsBoard board.now }
    requires seats { AreSeatsOf (table_of board.now) (recording_of board.now) seats.now }
    ensures { result ≡ true → AreFinished (recording_of board.now) seats.now }
{
    for me in seats {
        if !is_finished(board, me) {
            return false;
        }
    }
    true
}

/// Goes round over the seats of all lanes until none has an event left, and answers whether that is so. It stops after a
/// round in which no event was done, and after as many rounds as there are events.
fn go_on(board: &Board, seats: &mut [LaneSeat]) -> bool
    requires board { IsBoard board.now }
    requires seats { AreSeatsOf (table_of board.now) (recording_of board.now) seats.old }
    ensures kept { AreSameLanes (table_of board.now) (recording_of board.now) seats.old seats.new }
    ensures finished { result ≡ true → AreFinished (recording_of board.now) seats.new }
{
    for _ in 0..board.events.len() {
        if all_finished(board, seats) {
            return true;
        }
        if !go_round(board, &OpenGate, 0, seats).done {
            return false;
        }
    }
    all_finished(board, seats)
}

/// Goes on with the seats of all lanes alone, and answers them once each is finished. `None` says that a round was left
/// without an event done. It takes no lock and no memory.
pub(crate) fn complete(board: &Board, mut seats: Vec<LaneSeat>) -> Option<Vec<LaneSeat>>
    requires board { IsBoard board.now }
    requires seats { AreSeatsOf (table_of board.now) (recording_of board.now) seats.items }
    ensures kept { IfSome result (λ all. AreSameLanes (table_of board.now) (recording_of board.now) seats.items all.items) }
    ensures finished { IfSome result (λ all. AreFinished (recording_of board.now) all.items) }
{
    if go_on(board, seats.as_mut_slice()) {
        Some(seats)
    } else {
        None
    }
}
