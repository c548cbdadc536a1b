//! How a node writes down its last checkpoint again, in the new version.

ghost use Rattle.std.specs.Prelude.{◌≡◌, ◌<◌, ◌-◌};
ghost use Rattle.rex_durable.specs.Spelling.{HasSpelling, record_bytes};
ghost use Rattle.rex_cluster.specs.Calls as calls;
ghost use Rattle.rex_cluster.specs.Values.{service_of};
ghost use Rattle.rex_node.specs.Calls.{Refuses, refusal_of_migrate};
ghost use Rattle.rex_node.specs.Checkpointing.{MigratesOr};
ghost use Rattle.rex_node.specs.Migrating.{StillSay};
ghost use Rattle.rex_node.specs.Parts.{CanFail, IsNode, here_of, whole};
ghost use Rattle.rex_node.specs.Performing.{PerformsAtOnce};

use crate::checkpointing::{only, record_of};
use crate::node::Node;
use crate::refusal::Refusal;
use crate::step::Step;
use rex_durable::Rec;
use rex_list::List;
use rex_log::Past;
use rex_report::Effect;
use rex_syntax::checked::Checked;
use rex_syntax::version::Version;
use rex_traits::{KeepFault, Keeper};

impl<K: Keeper> Node<K> {
    // Why the node writes down nothing.
    fn migrate_refusal<P: Past>(&self, svc: &Checked) -> Option<Refusal>
        requires { IsNode K.records svc.now P.past self.now }
        ensures { result ≡ refusal_of_migrate (here_of K.records svc.now P.past self.now) }
    {
        let _service = svc.declarations();
        if !self.up {
            return Some(Refusal::Down);
        }
        if !self.old_base {
            return Some(Refusal::Nothing);
        }
        None
    }

    // Appends the record of the last checkpoint in the new version. Where the keeper fails the node is down.
    fn save_again<P: Past>(&mut self, rec: &Rec) -> Result<(), KeepFault>
        requires count { CanFail K.faults self.old }
        requires spelling { HasSpelling rec.now }
        ensures { MigratesOr K.records K.faults K.append_gives (whole P.past self.old) (whole P.past self.new) (record_bytes rec.now) result }
    {
        let written = self.write::<P>(rec);
        if let Ok(()) = written {
            self.old_base = false;
        }
        written
    }

    /// Writes down the state at the last checkpoint again, in the new version, where the checkpoint is in the old one. A node
    /// that comes up does so first.
    pub fn migrate<P: Past>(&mut self, svc: &Checked) -> Result<Step, Refusal>
        requires node { IsNode K.records svc.now P.past self.old }
        requires count { CanFail K.faults self.old }
        ensures performs { PerformsAtOnce K.records K.append_gives K.faults svc.now P.past
            (calls.migrate (service_of svc.now self.old.seed) self.old.id) (Refuses (refusal_of_migrate (here_of K.records svc.now P.past self.old)))
            self.old self.new result }
        ensures again { StillSay svc.now self.old.start (K.records self.old.keeper) (K.records self.new.keeper) }
    {
        let _service = svc.declarations();
        if let Some(refusal) = self.migrate_refusal::<P>(svc) {
            return Err(refusal);
        }
        let node = self.id;
        let deltas = self.base;
        let rec = record_of(self.alloc, svc, Version::Two, deltas, &self.start)?;
        let migrated = only(self.alloc, Effect::Migrated { node, deltas })?;
        let down = only(self.alloc, Effect::Down { node })?;
        let sends = List::new(self.alloc);
        match self.save_again::<P>(&rec) {
            Ok(()) => Ok(Step {
                effects: migrated,
                sends,
            }),
            Err(KeepFault::Failed) => Ok(Step {
                effects: down,
                sends,
            }),
            Err(KeepFault::OutOfMemory) => Err(Refusal::OutOfMemory),
        }
    }
}
