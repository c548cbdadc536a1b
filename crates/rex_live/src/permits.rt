//! How many lanes run at once.

use std::sync::{Condvar, Mutex, Wait};

/// How many more lanes may run. Where more threads run than there are processors, one that has the lock may lose its processor, and the
/// others look for the lock until it gets one again.
#[derive(Drop)]
pub(crate) struct Permits {
    left: Mutex<u32>,
    given_back: Condvar,
}

impl Permits {
    /// So many permits.
    pub(crate) fn new(count: u32) -> Permits {
        Permits {
            left: Mutex::new(count),
            given_back: Condvar::new(),
        }
    }

    /// Takes a permit, and sleeps until there is one.
    pub(crate) fn take<R: Wait>(&self, wait: &R) {
        let mut left = self.left.lock(wait);
        for _ in wait.forever() {
            if *left > 0 {
                *left -= 1;
                return;
            }
            left = self.given_back.wait(wait, left);
        }
    }

    /// Gives a permit back, and wakes a lane that waits for one.
    pub(crate) fn give_back<R: Wait>(&self, wait: &R) {
        let mut left = self.left.lock(wait);
        *left = left.saturating_add(1);
        drop(left);
        self.given_back.notify_one();
    }
}
