//! How a process keeps its records for good.

ghost use Rattle.std.specs.Prelude.{◌≡◌, Err, OnOk, true};
ghost use Rattle.rex_traits.specs.Causes.{HasCause};
ghost use Rattle.rex_traits.specs.Keeping.{IsKeeperFault, StandsUnlessFailed};
ghost use Rattle.rex_traits.specs.declared.keeper.KeepFault.TheVariants as fault;
ghost use Rattle.rex_flush.specs.Flushing.{Flushes};
ghost use Rattle.rex_process.specs.Process.{IsProcess, IsSame};

use crate::process::Process;
use rex_flush::Flush;
use rex_traits::KeepFault;

impl<'a, K: Flush> Process<'a, K> {
    /// Has the keeper keep all its records for good. Nothing else changes.
    pub fn flush(&mut self) -> Result<(), KeepFault>
        requires process { IsProcess K.records K.faults self.old }
        requires up { self.old.node.up ≡ true }
        ensures only { self.new ≡ record self.old { node = record self.old.node { keeper = self.new.node.keeper } } }
        ensures records { K.records self.new.node.keeper ≡ K.records self.old.node.keeper }
        ensures kept { Flushes (K.kept self.old.node.keeper) (K.kept self.new.node.keeper) (K.records self.old.node.keeper) result }
        ensures cause { HasCause IsKeeperFault (K.faults self.old.node.keeper) (K.faults self.new.node.keeper) result }
        ensures stands { StandsUnlessFailed (K.faults self.old.node.keeper) (K.faults self.new.node.keeper) result }
        ensures gives { K.flush_gives self.old.node.keeper result self.new.node.keeper }
        ensures process { OnOk result (IsProcess K.records K.faults self.new) }
        ensures still { result ≡ Err fault.OutOfMemory → IsProcess K.records K.faults self.new }
        ensures same { IsSame self.old self.new }
    {
        self.node.flush()
    }
}
