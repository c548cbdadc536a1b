//! How the keeper of a node is made to fail, and is reopened.

ghost use Rattle.std.specs.Prelude.{◌≡◌, ◌<◌, ◌-◌, ◌^◌, false, OnOk, OnErr};
ghost use Rattle.rex_traits.specs.Keeping.{armed_to};

use crate::node::Node;
use rex_traits::{Fate, Obedient, Store};
use std::alloc::AllocError;

impl<S: Store> Node<Obedient<S>> {
    /// Lets the next append of the node's keeper fail, with its record kept or lost.
    pub fn arm(&mut self, fate: Fate)
        ensures { self.new ≡ record self.old { keeper = armed_to fate self.old.keeper } }
    {
        self.keeper.arm(fate);
    }

    /// Reopens the node's keeper as a stop of the machine may have left it. After an error it may have to be reopened again;
    /// nothing else has changed.
    pub fn reopen(&mut self) -> Result<(), AllocError>
        requires { self.old.keeper.faults < 2 ^ 64 - 1 }
        ensures reopened { OnOk result (self.new ≡ record self.old { keeper = record self.old.keeper { broken = false } }) }
        ensures spared { OnErr result (self.new ≡ record self.old { keeper = record self.old.keeper { broken = self.new.keeper.broken } }) }
    {
        self.keeper.reopen()
    }
}
