//! What an event leaves to lanes that wait.
//!
//! A lane sleeps where it can make no event, and is woken where it can. Nothing is proved of that; it rests on what follows. A
//! lane that can make no event is idle and no request may begin, or a lock that it would take is held in its way, or it stands
//! in the queue of a condition, or would take down a semaphore that is at 0. At every other line it can go on, also at a `try`.
//! What a thread brings back lets no other lane go on, since only its own lane may read what its lines wrote.
//!
//! - A lock. Who holds it changes by events that name it alone. After each that may leave it free or shared, one lane that
//!   sleeps and can take it now is woken. Until that lane tries, it can take the lock, and its event names the lock; or another
//!   lane's event names the lock before, and then the same is done again. So while a lane sleeps that could take a lock,
//!   one that can is awake. An exclusive hold leaves nothing, a share what others may share.
//! - A queue. A lane in it is signalled by one that holds the condition's lock exclusively, as the check demands. So it can take
//!   the lock only once that is given up, and then it is one of those that wait for the lock.
//! - A semaphore. Each event that raises it wakes one lane that sleeps at it. So its value is at most the number of lanes
//!   that are awake at it, while one sleeps.
//! - A request. Nobody is woken: a reply lets at most one request more begin, that of its client, and leaves its lane idle and
//!   awake, or its thread not begun. A lane falls asleep idle only where no request may begin. So while one sleeps, at most as many
//!   clients may begin a request as lanes are idle that don't sleep, and these try next.
//! - A lane whose thread hasn't begun. It sleeps for nothing, and nobody wakes it: it may be that its thread begins only when those of
//!   other lanes have ended. Whoever finds no event of its own makes one for such a lane that may go on, and falls asleep only
//!   where there is none. So what lets such a lane go on wakes nobody: the thread that made that event looks for it before it
//!   falls asleep. An event is made for it only as long as its thread hasn't begun. So its thread, once begun, is one of those
//!   above, and nobody takes from it that it waits.
//! - The end. The lane that finds that no lane can go on, or no memory, wakes all.
//!
//! So not all lanes sleep where one could go on: the last one that falls asleep finds a lane that may, and all of those whose
//! threads haven't begun can't; so it is one that then is awake.

ghost use Rattle.std.specs.Prelude.{◌≡◌, ◌<◌, ◌≤◌};

use rex_event::{Kind, LANES};

/// What lanes wait for.
#[derive(Clone, Copy, PartialEq, Eq)]
pub(crate) enum Need {
    Lock(u8),
    Semaphore(u8),
}

/// What an event leaves to others: a lock that it gives up or shares, or a semaphore that it raises.
pub(crate) fn left_by(kind: &Kind) -> Option<Need> {
    match kind {
        Kind::RelEx { lock }
        | Kind::RelSh { lock }
        | Kind::AcqSh { lock }
        | Kind::Wait { lock, .. } => Some(Need::Lock(*lock)),
        Kind::Up { semaphore } => Some(Need::Semaphore(*semaphore)),
        _ => None,
    }
}

/// What an event needs that others leave: the lock that it takes, or the semaphore that it takes down.
fn needed_by(kind: &Kind) -> Option<Need> {
    match kind {
        Kind::AcqEx { lock } | Kind::AcqSh { lock } | Kind::Wake { lock, .. } => {
            Some(Need::Lock(*lock))
        }
        Kind::Down { semaphore } => Some(Need::Semaphore(*semaphore)),
        _ => None,
    }
}

/// Whether an event needs this.
pub(crate) fn needs(kind: &Kind, left: Need) -> bool {
    match needed_by(kind) {
        Some(needed) => needed == left,
        None => false,
    }
}

/// The lane so many places after another one, where the first lane comes after the last one.
pub(crate) fn lane_after(lane: u8, places: u8, lanes: u8) -> u8
    requires lane { lane < lanes }
    requires places { places < lanes }
    requires few { lanes ≤ LANES }
    ensures { result < lanes }
{
    let sum = lane + places;
    if sum < lanes { sum } else { sum - lanes }
}
