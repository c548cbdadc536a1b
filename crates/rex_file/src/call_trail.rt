//! Writes and syncs that clauses read and no code holds.

ghost use Rattle.std.specs.Prelude.{◌≡◌, ◌∷◌, [], List};
ghost use Rattle.std.specs.Borrow.{ftrue};
ghost use Rattle.rex_disk.specs.Record.{Done};
ghost use Rattle.rex_disk.specs.Record.Done.{Wrote, Synced};

use std::marker::{Model, PhantomData};

/// The writes and syncs that were made, the newest first. It takes no memory, and its methods do nothing when they run.
#[derive(Drop)]
pub(crate) struct CallTrail {
    marker: PhantomData<u8>,
    pub ghost done: { List Done },
}

impl Model for CallTrail {
    ghost also_owns = { λ _. ftrue };
}

impl CallTrail {
    /// None yet.
    pub(crate) fn new() -> CallTrail
        ensures { result.done ≡ [] }
    {
        CallTrail {
            marker: PhantomData,
        }
    }

    /// Notes a write, and whether it failed.
    pub(crate) fn wrote(&mut self, _at: u64, _bytes: &[u8], _failed: bool)
        ensures { self.new.done ≡ Wrote _at _bytes.now _failed ∷ self.old.done }
    {}

    /// Notes a sync, and whether it failed.
    pub(crate) fn synced(&mut self, _failed: bool)
        ensures { self.new.done ≡ Synced _failed ∷ self.old.done }
    {}
}
