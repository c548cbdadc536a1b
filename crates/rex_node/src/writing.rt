//! How a node appends a record, and how a call that may append ends.

ghost use Rattle.std.specs.Prelude.{◌<◌, ◌-◌};
ghost use Rattle.rex_durable.specs.Spelling.{HasSpelling, record_bytes};
ghost use Rattle.rex_node.specs.Parts.{CanFail, Writes, whole};
ghost use Rattle.rex_node.specs.Going.{AppendsOr, Finishes};

use crate::going::Going;
use crate::node::Node;
use crate::refusal::Refusal;
use crate::step::{Draft, Step};
use rex_durable::Rec;
use rex_log::Past;
use rex_report::Effect;
use rex_traits::{KeepFault, Keeper};
use std::alloc::AllocError;

impl<K: Keeper> Node<K> {
    /// Appends a record. Where the keeper fails the node is down.
    pub(crate) fn write<P: Past>(&mut self, rec: &Rec) -> Result<(), KeepFault>
        requires count { CanFail K.faults self.old }
        requires spelling { HasSpelling rec.now }
        ensures { Writes K.records K.faults K.append_gives (whole P.past self.old) (whole P.past self.new) (record_bytes rec.now) result }
    {
        let written = rex_durable::append(self.alloc, &mut self.keeper, rec);
        if let Err(KeepFault::Failed) = written {
            self.fall();
        }
        written
    }

    /// Appends a record, and the call goes on; or the keeper fails, and the node is down with nothing sent.
    pub(crate) fn append<P: Past>(
        &mut self,
        draft: &mut Draft,
        rec: &Rec,
    ) -> Result<Going, AllocError>
        requires count { CanFail K.faults self.old }
        requires spelling { HasSpelling rec.now }
        ensures { AppendsOr K.records K.faults K.append_gives P.past self.old self.new draft.old draft.new (record_bytes rec.now) result }
    {
        let node = self.id;
        draft.effects.push(Effect::Down { node })?;
        match self.write::<P>(rec) {
            Ok(()) => {
                draft.effects.pop();
                Ok(Going::On)
            }
            Err(KeepFault::Failed) => {
                draft.sends.clear();
                Ok(Going::Down)
            }
            Err(KeepFault::OutOfMemory) => Err(AllocError),
        }
    }

    /// Ends a call that came to this, where the keeper had so many records before it: where memory was short after an append
    /// the node is down.
    pub(crate) fn finish<P: Past>(
        &mut self,
        before: usize,
        draft: Draft,
        end: Result<Going, AllocError>,
    ) -> Result<Step, Refusal>
        ensures { Finishes K.records before draft end (whole P.past self.old) (whole P.past self.new) result }
    {
        match end {
            Ok(_) => Ok(draft.done()),
            Err(_) => {
                if self.keeper.len() > before {
                    self.fall();
                }
                Err(Refusal::OutOfMemory)
            }
        }
    }
}
