//! A floor, and its lanes as threads.

ghost use Rattle.std.specs.Prelude.{◌≡◌, ◌+◌, ◌<◌, ◌≤◌, IfErr, IfOk, length};
ghost use Rattle.rex_live.specs.Floor as spec;
ghost use Rattle.rex_live.specs.Halting.{Halts};
ghost use Rattle.rex_live.specs.Tally.{Tally};

use crate::desk::Desk;
use crate::permits::Permits;
use crate::segment::{Brought, Segment};
use crate::setting::Setting;
use crate::tries::{Halt, Made};
use crate::wakers::Wakers;
use crossbeam_utils::CachePadded;
use rex_event::Event;
use rex_list::List;
use rex_syntax::checked::Checked;
use rex_syntax::request::Request;
use rex_threads::processors;
use rex_traits::Gate;
use std::alloc::{AllocError, Global};
use std::hint::spin_loop;
use std::marker::Model;
use std::sync::ledger::{Blank, Share};
use std::sync::{Mutex, MutexGuard, Wait};
use std::thread::{Threads, join, yield_now};

/// How often a lane looks whether the lock is free before it lets other threads run. The looks take about half a millisecond:
/// far longer than the lock is held, and less than a thread's turn on a processor that others want, too.
const LOOKS: u32 = 2_000;

/// How many turns of a loop a lane waits between two looks. Each look takes the lock's cache line from the lane that has the lock.
const PAUSES: u32 = 4;

/// The most events that a lane makes before it gives the lock up, so that others get it, too.
const TRIES: u32 = 16;

/// One lock over the history, the state and the requests of a service whose lanes are threads. Contracts see how many parts
/// of the ledger it has, and how many events its lanes were answered.
#[derive(Drop)]
pub struct Floor<S: Setting> {
    /// Lanes that look for the lock don't slow the one that has it, since nothing that it writes is beside the lock.
    desk: Mutex<CachePadded<Desk<S>>>,
    share: Share<S>,
}

impl<S: Setting> Model for Floor<S> {
    ghost use Rattle.rex_live.specs.Tally.{Tally};

    ghost Value = { Tally };

    ghost view = { λ f. record { parts = f.share.parts; answered = f.share.amount } };
}

impl<S: Setting> Floor<S> {
    /// A floor with no events yet. The requests are taken in their order; random numbers are drawn with this seed, for the
    /// ballot of node 1's first election.
    pub fn new(
        alloc: Global,
        blank: Blank,
        svc: &Checked,
        requests: &[Request],
        seed: u64,
    ) -> Result<Floor<S>, AllocError>
        requires name { blank.name ≡ S.name }
        requires parts { blank.parts ≡ S.parts }
        requires service { svc.now ≡ S.service }
        requires requests { requests.now ≡ S.requests }
        requires dice { spec.dice_of seed ≡ S.dice }
        ensures parts { IfOk result (λ f. f.parts ≡ S.parts) }
        ensures answered { IfOk result (λ f. f.answered ≡ 0) }
    {
        let (events, share) = blank.open::<S>();
        let requests = List::from_vec(requests.to_vec(alloc)?);
        Ok(Floor {
            desk: Mutex::new(CachePadded::new(Desk::open(alloc, svc, requests, seed, events)?)),
            share,
        })
    }
}

/// Runs the lines that a lane is lent, outside the lock, for what they lead to. Where memory is short the lines are left to
/// the floor.
fn run_outside<S: Setting>(
    alloc: Global,
    svc: &Checked,
    lent: Option<Segment<S>>,
) -> Option<Brought<S>>
    requires { svc.now ≡ S.service }
{
    let segment = lent?;
    match segment.run(alloc, svc) {
        Ok(brought) => Some(brought),
        Err(_) => None,
    }
}

/// Takes the lock, if it is free at one of so many looks.
fn look_for_lock<S: Setting>(
    desk: &Mutex<CachePadded<Desk<S>>>,
) -> Option<MutexGuard<'_, CachePadded<Desk<S>>>> {
    for _ in 0..LOOKS {
        if let Some(guard) = desk.try_lock() {
            return Some(guard);
        }
        for _ in 0..PAUSES {
            spin_loop();
        }
    }
    None
}

/// Takes the lock. It is held for less time than a thread takes to fall asleep and to wake, so a lane looks for it, and lets other
/// threads run now and then.
fn take_lock<'a, S: Setting, R: Wait>(
    wait: &R,
    desk: &'a Mutex<CachePadded<Desk<S>>>,
) -> MutexGuard<'a, CachePadded<Desk<S>>> {
    for _ in wait.forever() {
        if let Some(guard) = look_for_lock(desk) {
            return guard;
        }
        yield_now();
    }
    unreachable!()
}

/// Whether a try made an event that leaves nothing to do outside the lock.
fn leaves_nothing<S: Setting>(turn: &Result<Made<S>, Halt>) -> bool {
    match turn {
        Ok(made) => made.lent.is_none() && made.woken.is_none(),
        Err(_) => false,
    }
}

/// A lane's tries under the lock, so many at most: a further one where the one before made an event that leaves nothing to do
/// outside. The answer is the last one's.
fn try_on<S: Setting>(
    alloc: Global,
    svc: &Checked,
    desk: &mut Desk<S>,
    lane: u8,
    mine: &mut Share<S>,
    tries: u32,
) -> Result<Made<S>, Halt>
    requires service { svc.now ≡ S.service }
    requires there { lane < S.service.lanes }
    requires tries { 0 < tries }
    requires part { 0 < mine.old.parts }
    ensures parts { mine.new.parts ≡ mine.old.parts }
    ensures few { mine.new.amount ≤ mine.old.amount + tries }
    ensures begun { desk.new.begun ≡ desk.old.begun }
    ensures halts { IfErr result (Halts S.service S.requests desk.new) }
{
    let mut turn = desk.step(alloc, svc, lane, mine);
    for made in 1..tries {
        if !leaves_nothing(&turn) {
            return turn;
        }
        turn = desk.step(alloc, svc, lane, mine);
    }
    turn
}

/// How many tries a lane makes before it gives the lock up: one, where it passes the gate before each.
fn tries_at<G: Gate>(gate: &G) -> u32
    ensures some { 0 < result }
    ensures few { result ≤ 16 }
{
    if gate.is_open() { TRIES } else { 1 }
}

/// How many lanes run at once: no more than there are processors. Where they pass a gate that may hold them all do.
fn lanes_at_once<T: Threads, G: Gate>(rt: &T, gate: &G, lanes: u8) -> u32
    ensures { result ≤ lanes }
{
    if gate.is_open() {
        processors(rt).min(lanes as usize) as u32
    } else {
        lanes as u32
    }
}

/// Makes the event of an index for a lane whose thread hasn't begun, if it is still the next one and the lane can go on, and
/// brings back what the lane's lines led to.
fn stand_in<S: Setting, R: Wait>(
    wait: &R,
    alloc: Global,
    svc: &Checked,
    desk: &Mutex<CachePadded<Desk<S>>>,
    wakers: &Wakers,
    lane: u8,
    index: u32,
    mine: &mut Share<S>,
)
    requires service { svc.now ≡ S.service }
    requires there { lane < S.service.lanes }
    requires part { 0 < mine.old.parts }
    ensures { mine.new.parts ≡ mine.old.parts }
{
    let mut guard = take_lock(wait, desk);
    if guard.done(lane) != index {
        return;
    }
    let made = guard.step_for(alloc, svc, lane, mine);
    drop(guard);
    if let Some(Made { lent, woken }) = made {
        wakers.wake(woken);
        if let Some(brought) = run_outside(alloc, svc, lent) {
            take_lock(wait, desk).bring_back(svc, lane, brought);
        }
    }
}

/// One lane's loop: once it may run, it passes the gate, takes the lock, brings back what its lines led to, and tries its next event.
/// Where the gate is open it tries the ones after it, too, as long as there is nothing to do outside the lock. Where it can't go on it
/// makes an event for a lane whose thread hasn't begun, or else sleeps and lets another one run. It ends when no lane can go on, or a
/// lane found no memory.
fn work<S: Setting, R: Wait, G: Gate>(
    wait: &R,
    alloc: Global,
    svc: &Checked,
    desk: &Mutex<CachePadded<Desk<S>>>,
    wakers: &Wakers,
    permits: &Permits,
    gate: &G,
    lane: u8,
    share: Share<S>,
) -> Share<S>
    requires service { svc.now ≡ S.service }
    requires there { lane < S.service.lanes }
    requires part { 0 < share.parts }
    ensures { result.parts ≡ share.parts }
{
    let _service = svc.declarations();
    let mut mine = share;
    let tries = tries_at(gate);
    permits.take(wait);
    let mut index = take_lock(wait, desk).begin(lane);
    let mut brought = None;
    for _ in wait.forever() {
        gate.enter(lane, lane, index);
        let mut guard = take_lock(wait, desk);
        if let Some(brought) = brought.take() {
            guard.bring_back(svc, lane, brought);
        }
        let turn = try_on(alloc, svc, &mut guard, lane, &mut mine, tries);
        index = guard.done(lane);
        match turn {
            Ok(Made { lent, woken }) => {
                drop(guard);
                wakers.wake(woken);
                brought = run_outside(alloc, svc, lent);
            }
            Err(Halt::Stays) => {
                permits.give_back(wait);
                wakers.sleep(wait, lane, guard);
                permits.take(wait);
            }
            Err(Halt::Absent { lane: other }) => {
                let next = guard.done(other);
                drop(guard);
                gate.enter(lane, other, next);
                stand_in(wait, alloc, svc, desk, wakers, other, next, &mut mine);
            }
            Err(Halt::Over | Halt::GaveUp) => {
                drop(guard);
                wakers.wake_all();
                break;
            }
        }
    }
    permits.give_back(wait);
    mine
}

/// The last lane as a thread: the caller, which made the threads of all lanes, only waits, so that none of them has to wait for its
/// processor.
fn work_last<S: Setting + Send + Sync, T: Threads + Sync, R: Wait + Sync, G: Gate + Sync>(
    rt: &T,
    wait: &R,
    alloc: Global,
    svc: &Checked,
    desk: &Mutex<CachePadded<Desk<S>>>,
    wakers: &Wakers,
    permits: &Permits,
    gate: &G,
    lane: u8,
    share: Share<S>,
) -> Share<S>
    requires service { svc.now ≡ S.service }
    requires there { lane < S.service.lanes }
    requires part { 0 < share.parts }
    ensures { result.parts ≡ share.parts }
{
    let (mine, ()) = join(
        rt,
        || -> Share<S>
            requires service { svc.now ≡ S.service }
            requires there { lane < S.service.lanes }
            requires part { 0 < share.parts }
            ensures { result.parts ≡ share.parts }
        { work(wait, alloc, svc, desk, wakers, permits, gate, lane, share) },
        || {},
    );
    mine
}

/// This lane and those above it, each as a thread.
fn work_from<S: Setting + Send + Sync, T: Threads + Sync, R: Wait + Sync, G: Gate + Sync>(
    rt: &T,
    wait: &R,
    alloc: Global,
    svc: &Checked,
    desk: &Mutex<CachePadded<Desk<S>>>,
    wakers: &Wakers,
    permits: &Permits,
    gate: &G,
    lane: u8,
    share: Share<S>,
) -> Share<S>
    requires service { svc.now ≡ S.service }
    requires there { lane < S.service.lanes }
    requires parts { S.service.lanes ≤ lane + share.parts }
    ensures { result.parts ≡ share.parts }
{
    let lanes = svc.declarations().lanes;
    if lanes - lane <= 1 {
        return work_last(
            rt, wait, alloc, svc, desk, wakers, permits, gate, lane, share,
        );
    }
    let next = lane + 1;
    let mut others = share;
    let mine = others.split_off(1, 0);
    let (mut first, rest) = join(
        rt,
        || -> Share<S>
            requires service { svc.now ≡ S.service }
            requires there { lane < S.service.lanes }
            requires part { 0 < mine.parts }
            ensures { result.parts ≡ mine.parts }
        { work(wait, alloc, svc, desk, wakers, permits, gate, lane, mine) },
        || -> Share<S>
            requires service { svc.now ≡ S.service }
            requires there { next < S.service.lanes }
            requires parts { S.service.lanes ≤ next + others.parts }
            ensures { result.parts ≡ others.parts }
        {
            work_from(
                rt, wait, alloc, svc, desk, wakers, permits, gate, next, others,
            )
        },
    );
    first.merge(rest);
    first
}

/// Runs the floor's lanes, each as a thread, until none can go on or the history is as long as may be, and gives the whole
/// history. Each try of an event passes the gate before, as the worker of the number of the lane whose thread makes it: the
/// lane of the event, or another one that can't go on, as long as that lane's thread hasn't begun. The index is that of the lane's
/// next event when the try is decided on; of another lane it may have been made before the try, which then makes none. What a
/// thread that can't be made would do begins when the lanes above have ended.
///
/// Where memory is short the floor stays as it is by then, and its lanes may run again.
pub fn run_lanes<S: Setting + Send + Sync, T: Threads + Sync, R: Wait + Sync, G: Gate + Sync>(
    rt: &T,
    wait: &R,
    alloc: Global,
    svc: &Checked,
    floor: &mut Floor<S>,
    gate: &G,
) -> Result<List<Event>, AllocError>
    requires service { svc.now ≡ S.service }
    requires whole { floor.old.parts ≡ S.parts }
    requires parts { S.service.lanes < S.parts }
    ensures history { IfOk result (λ h. spec.IsHistory S.service S.requests S.dice h) }
    ensures answered { IfOk result (λ h. length h ≡ floor.new.answered) }
    ensures whole { floor.new.parts ≡ S.parts }
{
    let lanes = svc.declarations().lanes;
    let Floor { desk, share } = floor;
    let wakers = Wakers::new();
    let permits = Permits::new(lanes_at_once(rt, gate, lanes));
    let theirs = share.split_off(lanes as u64, 0);
    let theirs = work_from(
        rt, wait, alloc, svc, desk, &wakers, &permits, gate, 0, theirs,
    );
    share.merge(theirs);
    desk.lock(wait).history(alloc, svc, share)
}
