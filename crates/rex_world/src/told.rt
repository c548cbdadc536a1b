//! What a schedule line reports while it is done.

ghost use Rattle.std.specs.Prelude.{◌≡◌, []};

use rex_report::Effect;
use std::alloc::Global;

/// What the line did, and the messages that it sent, which are told last.
#[derive(Drop)]
pub struct Told {
    pub(crate) effects: Vec<Effect>,
    pub(crate) sent: Vec<Effect>,
}

impl Told {
    /// Nothing so far.
    pub(crate) fn new(alloc: Global) -> Told
        ensures effects { result.effects.items ≡ [] }
        ensures sent { result.sent.items ≡ [] }
    {
        Told {
            effects: Vec::new(alloc),
            sent: Vec::new(alloc),
        }
    }
}
