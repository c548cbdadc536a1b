//! Jobs on threads of their own.

ghost use Rattle.std.specs.Prelude.{◌≡◌, IfOk, length};
ghost use Rattle.std.specs.Fork.{AcceptsJobs, GivesJobs};
ghost use Rattle.std.specs.Fork.Halves.{GivesFor};
ghost use Rattle.std.specs.Fn.{FnReturns};
ghost use denote.Param.Send.{IsSync, IsSend};

use std::alloc::{AllocError, Global};
use std::thread::{Threads, join};

/// Calls `f` with each job, each call on a thread of its own where one can be made, and gives the results in their order. Where
/// none can be made the caller does that job. It fails only for want of memory; some jobs are dropped then with no call.
///
/// The caller does no job beside the threads that it makes, since a new thread may begin on its maker's processor, and has to
/// wait there for as long as short jobs take.
pub fn map_vec<R: Threads + Sync, J: Send + Drop, X: Send + Drop, F: Fn(J) -> X + Sync>(
    rt: &R,
    alloc: Global,
    jobs: Vec<J>,
    f: &F,
) -> Result<Vec<X>, AllocError>
    requires { AcceptsJobs F.Fn f.now jobs.items }
    ensures len { IfOk result (λ v. length v.items ≡ length jobs.items) }
    ensures each { IfOk result (λ v. GivesJobs F.Fn f.now jobs.items v.items) }
{
    do_all(rt, alloc, f, jobs)
}

/// The last job on a thread, beside those before it.
#[cycle(jobs)]
fn do_all<R: Threads + Sync, J: Send + Drop, X: Send + Drop, F: Fn(J) -> X + Sync>(
    rt: &R,
    alloc: Global,
    f: &F,
    mut jobs: Vec<J>,
) -> Result<Vec<X>, AllocError>
    requires { AcceptsJobs F.Fn f.now jobs.items }
    ensures { IfOk result (λ v. GivesFor F.Fn f.now jobs.items v.items) }
{
    let Some(last) = jobs.pop() else {
        return Ok(Vec::new(alloc));
    };
    let own = move || -> X
        requires { IsSync F.row × IsSend J.row × IsSend X.row × F.pre f.now last }
        ensures { FnReturns F.Fn f.entry.now (last, tt) result }
    { f(last) };
    let others = move || -> Result<Vec<X>, AllocError>
        requires { IsSync R.row × IsSync F.row × IsSend J.row × IsSend X.row × AcceptsJobs F.Fn f.now jobs.items }
        ensures { IfOk result (λ v. GivesFor F.Fn f.entry.now jobs.items v.items) }
    { do_all(rt, alloc, f, jobs) };
    let (done, before) = join(rt, own, others);
    let mut all = before?;
    all.push(done)?;
    Ok(all)
}
