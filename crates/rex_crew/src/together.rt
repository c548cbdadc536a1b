//! Workers on threads of their own.
ghost use Rattle.std.specs.Prelude.{◌≡◌, All, IfOk, length};
ghost use Rattle.rex_board.specs.Boards.{recording_of, table_of};
ghost use Rattle.rex_crew.specs.Work.{IsHandedBack};
ghost use Rattle.rex_crew.specs.Jobs.{IsJob, AllHandedBack};

use crate::crew::Crew;
use crate::dealing::Job;
use rex_board::{Board, LaneSeat};
use rex_threads::map_vec;
use rex_traits::Gate;
use std::alloc::{AllocError, Global};
use std::thread::Threads;

impl<'r, R: Threads + Sync, G: Gate + Sync> Crew<'r, R, G> {
    /// Does jobs on threads of their own, side by side. Where a thread can't be started the caller does its job.
    pub(crate) fn together(
        &self,
        alloc: Global,
        board: &Board,
        jobs: Vec<Job>,
    ) -> Result<Vec<Vec<LaneSeat>>, AllocError>
        requires { All (IsJob board.now) jobs.items }
        ensures long { IfOk result (λ r. length r.items ≡ length jobs.items) }
        ensures handed { IfOk result (λ r. AllHandedBack board.now jobs.items r.items) }
    {
        map_vec(
            self.rt,
            alloc,
            jobs,
            &|job: Job| -> Vec<LaneSeat>
                requires { IsJob board.now job }
                ensures { IsHandedBack (table_of board.entry.now) (recording_of board.entry.now) job.seats.items result.items }
            { self.work(board, job.worker, job.seats) },
        )
    }
}
