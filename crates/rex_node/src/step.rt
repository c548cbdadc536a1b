//! What a call of a node came to.

ghost use Rattle.std.specs.Prelude.{◌≡◌, ◌++◌, ◌∷◌, [], OnOk};
ghost use Rattle.rex_node.specs.Going.{Sends};

use rex_event::{Event, Kind};
use rex_list::List;
use rex_msg::Message;
use rex_report::Effect;
use std::alloc::{AllocError, Global};

/// What a node did in a call: what is reported of it, and the messages that it sends, both in their order.
#[derive(Drop)]
pub struct Step {
    pub effects: List<Effect>,
    pub sends: List<Message>,
}

/// The same while the call goes on.
#[derive(Drop)]
pub struct Draft {
    pub effects: Vec<Effect>,
    pub sends: Vec<Message>,
}

impl Draft {
    /// Nothing was done yet.
    pub(crate) fn new(alloc: Global) -> Draft
        ensures effects { result.effects.items ≡ [] }
        ensures sends { result.sends.items ≡ [] }
    {
        Draft {
            effects: Vec::new(alloc),
            sends: Vec::new(alloc),
        }
    }

    /// Reports one effect more.
    pub(crate) fn tell(&mut self, effect: Effect) -> Result<(), AllocError>
        ensures effects { OnOk result (self.new.effects.items ≡ self.old.effects.items ++ effect ∷ []) }
        ensures sends { OnOk result (self.new.sends.items ≡ self.old.sends.items) }
    {
        let _event: Option<(Event, Kind)> = None;
        self.effects.push(effect)?;
        Ok(())
    }

    /// Sends one message more.
    pub(crate) fn send(&mut self, message: Message) -> Result<(), AllocError>
        ensures { OnOk result (Sends self.old self.new (message ∷ [])) }
    {
        self.sends.push(message)?;
        Ok(())
    }

    /// The step that it is. It takes no memory.
    pub(crate) fn done(self) -> Step
        ensures effects { result.effects ≡ self.effects.items }
        ensures sends { result.sends ≡ self.sends.items }
    {
        Step {
            effects: List::from_vec(self.effects),
            sends: List::from_vec(self.sends),
        }
    }
}
