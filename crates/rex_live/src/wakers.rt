//! What lanes that wait sleep by.

ghost use Rattle.std.specs.Prelude.{◌<◌};

use crate::desk::Desk;
use crate::setting::Setting;
use crossbeam_utils::CachePadded;
use rex_syntax::service::LANES;
use std::array;
use std::sync::{Condvar, MutexGuard, Wait};

/// For each lane what it sleeps by, so that each is woken alone.
#[derive(Drop)]
pub(crate) struct Wakers {
    lanes: [Condvar; LANES],
}

impl Wakers {
    pub(crate) fn new() -> Wakers {
        Wakers {
            lanes: array::from_fn(|_| Condvar::new()),
        }
    }

    /// Gives the lock up, and sleeps until the lane is woken. It may return though nobody woke it.
    pub(crate) fn sleep<S: Setting, R: Wait>(
        &self,
        wait: &R,
        lane: u8,
        guard: MutexGuard<'_, CachePadded<Desk<S>>>,
    )
        requires { lane < LANES }
    {
        drop(self.lanes[lane as usize].wait(wait, guard));
    }

    /// Wakes a lane, if there is one.
    pub(crate) fn wake(&self, lane: Option<u8>) {
        if let Some(lane) = lane
            && let Some(found) = self.lanes.get(lane as usize)
        {
            found.notify_one();
        }
    }

    pub(crate) fn wake_all(&self) {
        for lane in &self.lanes {
            lane.notify_one();
        }
    }
}
