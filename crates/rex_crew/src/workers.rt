//! Seats go to the workers and come back.
ghost use Rattle.std.specs.Prelude.{IfOk};
ghost use Rattle.rex_board.specs.Boards.{IsBoard, recording_of, table_of};
ghost use Rattle.rex_crew.specs.Dealing.{AreAllSeats};

use crate::crew::Crew;
use crate::dealing::{deal, gather};
use rex_board::{Board, LaneSeat};
use rex_traits::Gate;
use std::alloc::{AllocError, Global};
use std::thread::Threads;

impl<'r, R: Threads + Sync, G: Gate + Sync> Crew<'r, R, G> {
    /// Has the workers replay the lanes of all seats, and answers the seats that they handed back. There are no more workers
    /// than lanes, and a worker that is alone works on the caller's thread.
    pub(crate) fn by_workers(
        &self,
        alloc: Global,
        board: &Board,
        seats: Vec<LaneSeat>,
    ) -> Result<Vec<LaneSeat>, AllocError>
        requires board { IsBoard board.now }
        requires seats { AreAllSeats (table_of board.now) (recording_of board.now) seats.items }
        ensures { IfOk result (λ all. AreAllSeats (table_of board.now) (recording_of board.now) all.items) }
    {
        let workers = self.workers.min(board.svc.declarations().lanes);
        if workers <= 1 {
            return Ok(self.work(board, 0, seats));
        }
        let jobs = deal(alloc, workers, seats)?;
        gather(alloc, self.together(alloc, board, jobs)?)
    }
}
