//! The test of a value that may be known next.

ghost use Rattle.std.specs.Prelude.{◌≡◌, true, IfOk};
ghost use Rattle.rex_process.specs.Process.{IsProcess, IsTest, here};

use crate::process::Process;
use rex_fits::Applied;
use rex_traits::Keeper;
use std::alloc::AllocError;

impl<'a, K: Keeper> Process<'a, K> {
    /// What there is after all that the node knows and this value, if that fits.
    pub(crate) fn tested(&self, value: &[u8]) -> Result<Option<Applied>, AllocError>
        requires process { IsProcess K.records K.faults self.now }
        requires up { self.now.node.up ≡ true }
        ensures { IfOk result (IsTest self.now.service self.now.clock (here K.records self.now) value.now) }
    {
        let _service = self.svc.declarations();
        let clock = self.clock;
        let state = self.node.state().copy(self.alloc)?;
        let mut applied = Applied::after(state, clock);
        if applied.take(self.alloc, self.svc, value)? {
            Ok(Some(applied))
        } else {
            Ok(None)
        }
    }
}
