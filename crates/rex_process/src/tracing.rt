//! The trace of what a process knows.

ghost use Rattle.std.specs.Prelude.{◌≡◌, ◌++◌, OnOk, true};
ghost use Rattle.rex_process.specs.Process.{IsProcess};
ghost use Rattle.rex_process.specs.Tracing.{known_text};

use crate::process::Process;
use rex_steps::push_values;
use rex_traits::Keeper;
use std::alloc::AllocError;

impl<'a, K: Keeper> Process<'a, K> {
    /// Appends the trace of what the node knows: for each value, from instance 1 on, its delta, with its causes.
    pub fn push_trace(&self, out: &mut Vec<u8>) -> Result<(), AllocError>
        requires process { IsProcess K.records K.faults self.now }
        requires up { self.now.node.up ≡ true }
        ensures { OnOk result (out.new.items ≡ out.old.items ++ known_text K.records self.now) }
    {
        let known = self.node.window().values();
        push_values(out, self.alloc, self.svc.declarations(), known)
    }
}
