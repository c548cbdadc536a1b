//! Two jobs side by side.

ghost use denote.Param.Send.{IsSync, IsSend};

use std::thread::{Threads, join};

/// Does two jobs, each on a thread of its own where one can be made, and gives their results. Where none can be made the caller does a
/// job itself, after the other one.
pub fn both<R: Threads + Sync, F: FnOnce() -> A + Send, G: FnOnce() -> B + Send, A: Send, B: Send>(
    rt: &R,
    first: F,
    second: G,
) -> (A, B)
    requires { F.pre first × G.pre second }
    ensures first { F.post first result.0 }
    ensures second { G.post second result.1 }
{
    let beside = move || -> B
        requires { IsSync R.row × IsSend G.row × IsSend B.row × G.pre second }
        ensures { G.post second result }
    {
        let (other, ()) = join(rt, second, || {});
        other
    };
    join(rt, first, beside)
}
