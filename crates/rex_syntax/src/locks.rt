//! Locks that are held, with their modes.

ghost use Rattle.std.specs.Prelude.{◌≡◌, ◌<◌, slice_index_or, slice_set};
ghost use Rattle.rex_syntax.specs.Locks.{mode_of, with_mode, no_locks, is_above, is_empty, is_only, only, is_free};
ghost use Rattle.std.specs.List.{list_all};
ghost use Rattle.std.specs.Bool.{Decides};

#[derive(Clone, Copy, PartialEq, Eq, Debug)]
pub enum Mode {
    Free,
    Shared,
    Exclusive,
}

/// The most locks that a service declares.
pub const LOCKS: usize = 64;

/// Per lock the mode in which it is held.
#[derive(Clone, Copy, PartialEq, Eq)]
pub struct Lockset {
    modes: [Mode; LOCKS],
}

impl Lockset {
    pub const fn new() -> Lockset
        ensures { result ≡ no_locks }
    {
        Lockset {
            modes: [Mode::Free; LOCKS],
        }
    }

    pub fn mode(&self, lock: u8) -> Mode
        requires { lock < LOCKS }
        ensures { result ≡ mode_of self.now lock }
    {
        self.modes[lock as usize]
    }

    pub fn with(mut self, lock: u8, mode: Mode) -> Lockset
        requires { lock < LOCKS }
        ensures { result ≡ with_mode self lock mode }
    {
        self.modes[lock as usize] = mode;
        self
    }

    /// The lock that is held exclusively, and no other.
    pub fn only(lock: u8) -> Lockset
        requires { lock < LOCKS }
        ensures { result ≡ only lock }
    {
        Lockset::new().with(lock, Mode::Exclusive)
    }

    /// Whether the lock's number is above those of all held locks.
    pub fn is_above(&self, lock: u8) -> bool
        requires { lock < LOCKS }
        ensures { result ≡ is_above self.now lock }
    {
        all_free(&self.modes[lock as usize..])
    }

    /// Whether the same locks are held in the same modes.
    pub fn is_same(&self, other: &Lockset) -> bool
        ensures { Decides result (self.now ≡ other.now) }
    {
        *self == *other
    }

    /// Whether nothing is held.
    pub fn is_empty(&self) -> bool
        ensures { result ≡ is_empty self.now }
    {
        all_free(&self.modes)
    }

    /// Whether the lock is held exclusively, and no other one is held.
    pub fn is_only(&self, lock: u8) -> bool
        requires { lock < LOCKS }
        ensures { result ≡ is_only self.now lock }
    {
        let place = lock as usize;
        self.modes[place] == Mode::Exclusive
            && all_free(&self.modes[..place])
            && all_free(&self.modes[place + 1..])
    }
}

fn all_free(modes: &[Mode]) -> bool
    ensures { result ≡ list_all is_free modes.now }
{
    modes.iter().all(|mode| *mode == Mode::Free)
}
