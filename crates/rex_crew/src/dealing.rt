//! Seats that are dealt to workers, and gathered again.
ghost use Rattle.std.specs.Prelude.{◌≡◌, ◌<◌, ◌%◌, ℕ, List, [], length, IfOk};
ghost use Rattle.rex_crew.specs.Dealing.{IsSplit, AreJobs, AreGathered};

use rex_board::LaneSeat;
use std::alloc::{AllocError, Global};

/// A worker's number and the seats of its lanes.
#[derive(Drop)]
pub(crate) struct Job {
    pub(crate) worker: u8,
    pub(crate) seats: Vec<LaneSeat>,
}

/// The seats of a worker's lanes, and the others.
#[derive(Drop)]
struct Dealt {
    own: Vec<LaneSeat>,
    others: Vec<LaneSeat>,
}

/// Takes the seats of a worker's lanes out of some seats.
fn split(
    alloc: Global,
    workers: u8,
    worker: u8,
    mut seats: Vec<LaneSeat>,
) -> Result<Dealt, AllocError>
    requires { 0 < workers }
    ensures { IfOk result (λ d. IsSplit workers worker seats.items [] d.own.items d.others.items) }
{
    let mut own = Vec::new(alloc);
    let mut others = Vec::new(alloc);
    while let Some(seat) = seats.pop() {
        if seat.lane % workers == worker {
            own.push(seat)?;
        } else {
            others.push(seat)?;
        }
    }
    Ok(Dealt { own, others })
}

/// Deals seats to workers, all counted from 0: lane `l` is worker `l % workers`'s.
pub(crate) fn deal(alloc: Global, workers: u8, seats: Vec<LaneSeat>) -> Result<Vec<Job>, AllocError>
    requires { 0 < workers }
    ensures { IfOk result (λ jobs. AreJobs workers seats.items jobs.items) }
{
    let mut rest = seats;
    let mut jobs = Vec::new(alloc);
    for worker in 0..workers {
        let Dealt { own, others } = split(alloc, workers, worker, rest)?;
        jobs.push(Job { worker, seats: own })?;
        rest = others;
    }
    Ok(jobs)
}

/// All seats that workers handed back.
pub(crate) fn gather(
    alloc: Global,
    mut handed: Vec<Vec<LaneSeat>>,
) -> Result<Vec<LaneSeat>, AllocError>
    ensures { IfOk result (λ seats. AreGathered handed.items [] seats.items) }
{
    let mut seats = Vec::new(alloc);
    while let Some(mut own) = handed.pop() {
        seats.append(&mut own)?;
    }
    Ok(seats)
}
