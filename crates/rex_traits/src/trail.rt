//! Bytes that clauses read and no code holds.

ghost use Rattle.std.specs.Prelude.{◌≡◌, ◌++◌, [], List, ℕ};
ghost use Rattle.std.specs.Borrow.{ftrue};

use std::marker::{Model, PhantomData};

/// The bytes that went one way, from the first on. It takes no memory, and its methods do nothing when they run.
#[derive(Drop)]
pub(crate) struct Trail {
    marker: PhantomData<u8>,
    pub ghost bytes: { List ℕ },
}

impl Model for Trail {
    ghost also_owns = { λ _. ftrue };
}

impl Trail {
    /// No bytes yet.
    pub(crate) fn new() -> Trail
        ensures { result.bytes ≡ [] }
    {
        Trail {
            marker: PhantomData,
        }
    }

    /// Puts a piece behind the bytes.
    pub(crate) fn add(&mut self, _piece: &[u8])
        ensures { self.new.bytes ≡ self.old.bytes ++ _piece.now }
    {}
}
