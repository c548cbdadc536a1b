//! How the keeper of a node keeps its records for good.

ghost use Rattle.std.specs.Prelude.{◌≡◌, ◌<◌, ◌-◌};
ghost use Rattle.rex_traits.specs.Causes.{HasCause};
ghost use Rattle.rex_traits.specs.Keeping.{IsKeeperFault, StandsUnlessFailed};
ghost use Rattle.rex_flush.specs.Flushing.{Flushes};
ghost use Rattle.rex_node.specs.Parts.{CanFail};

use crate::node::Node;
use rex_flush::Flush;
use rex_traits::KeepFault;

impl<K: Flush> Node<K> {
    /// Has the node's keeper keep all its records for good.
    pub fn flush(&mut self) -> Result<(), KeepFault>
        requires count { CanFail K.faults self.old }
        ensures only { self.new ≡ record self.old { keeper = self.new.keeper } }
        ensures records { K.records self.new.keeper ≡ K.records self.old.keeper }
        ensures kept { Flushes (K.kept self.old.keeper) (K.kept self.new.keeper) (K.records self.old.keeper) result }
        ensures cause { HasCause IsKeeperFault (K.faults self.old.keeper) (K.faults self.new.keeper) result }
        ensures stands { StandsUnlessFailed (K.faults self.old.keeper) (K.faults self.new.keeper) result }
        ensures gives { K.flush_gives self.old.keeper result self.new.keeper }
    {
        self.keeper.flush()
    }
}
