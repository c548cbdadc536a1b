//! Lanes as threads.
ghost use Rattle.std.specs.Prelude.{◌≡◌, ◌⊎◌, All, IfOk, length};
ghost use Rattle.rex_words.specs.Tables.{IsWords, assignment_of, table_of};
ghost use Rattle.rex_words.specs.Seats.{IsSeatOf};
ghost use Rattle.rex_words.specs.Turns.{IsIdle, IsFull};
ghost use Rattle.rex_words.specs.Dealing.{CanRecord, AreDealt};
ghost use Rattle.rex_words.specs.Histories.{IsRecording};
ghost use Rattle.rex_words.specs.Jobs.{IsJob, AreOver};

use crate::seat::WordSeat;
use crate::table::{WordTurn, Words};
use rex_event::Event;
use rex_list::List;
use rex_syntax::checked::Checked;
use rex_syntax::request::Request;
use rex_threads::map_vec;
use rex_traits::Gate;
use std::alloc::{AllocError, Global};
use std::sync::Wait;
use std::thread::Threads;

/// What the thread of a lane does: it passes the gate and tries the lane's next event, until the lane is idle with no request
/// that may begin, or has too many events to begin one.
fn work<R: Wait, G: Gate>(wait: &R, words: &Words, gate: &G, mut seat: WordSeat) -> WordSeat
    requires words { IsWords words.now }
    requires seat { IsSeatOf (assignment_of words.now) (table_of words.now) seat }
    ensures seat { IsSeatOf (assignment_of words.now) (table_of words.now) result }
    ensures lane { result.lane ≡ seat.lane }
    ensures over { IsIdle (assignment_of words.now) result ⊎ IsFull (assignment_of words.now) result }
{
    for _ in wait.forever() {
        gate.enter(seat.lane, seat.lane, seat.state.done(seat.lane));
        match words.step(&mut seat) {
            WordTurn::Idle | WordTurn::Full => return seat,
            _ => {}
        }
    }
    unreachable!()
}

/// All lanes work side by side, each on a thread. Where a thread can't be started the caller does its work.
fn together<T: Threads + Sync, R: Wait + Sync, G: Gate + Sync>(
    rt: &T,
    wait: &R,
    alloc: Global,
    words: &Words,
    gate: &G,
    seats: Vec<WordSeat>,
) -> Result<Vec<WordSeat>, AllocError>
    requires { All (IsJob words.now) seats.items }
    ensures long { IfOk result (λ r. length r.items ≡ length seats.items) }
    ensures over { IfOk result (λ r. AreOver words.now seats.items r.items) }
{
    map_vec(
        rt,
        alloc,
        seats,
        &|seat: WordSeat| -> WordSeat
            requires { IsJob words.now seat }
            ensures seat { IsSeatOf (assignment_of words.entry.now) (table_of words.entry.now) result }
            ensures lane { result.lane ≡ seat.lane }
            ensures over { IsIdle (assignment_of words.entry.now) result ⊎ IsFull (assignment_of words.entry.now) result }
        { work(wait, words, gate, seat) },
    )
}

/// Has the lanes of a service record requests, each lane on a thread, without a lock: each tries its next event again and
/// again until it is over. Each passes the gate before each try, as the worker of its number. The answer is the lanes' events
/// in order of stamp, then of lane; it fails only for want of memory. That the lanes get on isn't promised.
pub fn run_words<T: Threads + Sync, R: Wait + Sync, G: Gate + Sync>(
    rt: &T,
    wait: &R,
    alloc: Global,
    svc: &Checked,
    requests: &[Request],
    seed: u64,
    gate: &G,
) -> Result<List<Event>, AllocError>
    requires { CanRecord svc.now requests.now }
    ensures { IfOk result (IsRecording svc.now requests.now seed) }
{
    let (words, host, seats) = Words::new(alloc, svc, requests, seed)?;
    let seats = together(rt, wait, alloc, &words, gate, seats)?;
    let history = words.gather(alloc, host, seats)?;
    Ok(history)
}
