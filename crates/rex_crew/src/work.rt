//! The work of a worker.
ghost use Rattle.std.specs.Prelude.{◌≡◌, ◌≤◌, length};
ghost use Rattle.rex_board.specs.Boards.{IsBoard, recording_of, table_of};
ghost use Rattle.rex_crew.specs.Rounds.{AreSeatsOf};
ghost use Rattle.rex_crew.specs.Work.{IsHandedBack};

use crate::crew::Crew;
use crate::rounds::go_round;
use rex_board::{Board, LaneSeat};
use rex_traits::Gate;
use std::thread::Threads;

/// After so many blocked turns with no event done between them a worker hands its seats back.
const BLOCKED: u64 = 1024;

impl<'r, R: Threads + Sync, G: Gate + Sync> Crew<'r, R, G> {
    fn work_on(&self, board: &Board, worker: u8, seats: &mut [LaneSeat])
        requires board { IsBoard board.now }
        requires seats { AreSeatsOf (table_of board.now) (recording_of board.now) seats.old }
        ensures { IsHandedBack (table_of board.now) (recording_of board.now) seats.old seats.new }
    {
        let mut blocked = 0;
        while blocked < BLOCKED {
            let turn = go_round(board, self.gate, worker, seats);
            if turn.done {
                blocked = 0;
            } else if turn.blocked > 0 {
                blocked += turn.blocked;
            } else {
                return;
            }
        }
    }

    /// Replays the lanes of some seats of a board, round by round, and hands the seats back once each lane is finished, or
    /// after 1,024 blocked turns in a row: turns that found a cause of their event missing, with no event done between them.
    /// It takes no lock and no memory.
    pub fn work(&self, board: &Board, worker: u8, mut seats: Vec<LaneSeat>) -> Vec<LaneSeat>
        requires board { IsBoard board.now }
        requires seats { AreSeatsOf (table_of board.now) (recording_of board.now) seats.items }
        ensures { IsHandedBack (table_of board.now) (recording_of board.now) seats.items result.items }
    {
        self.work_on(board, worker, seats.as_mut_slice());
        seats
    }
}
