//! The world of a run, whose nodes keep their records in lists or in journals.

ghost use Rattle.std.specs.Prelude.{◌≡◌, IfOk};
ghost use Rattle.rex_journal.specs.Storing.{journal_value};
ghost use Rattle.rex_schedule.specs.Fits.{ScenarioFits};
ghost use Rattle.rex_world.specs.Members.{AreFresh};
ghost use Rattle.rex_cli.specs.Worlds.{IsBegun, is_in_journals};

use crate::answers::Plan;
use rex_disk::MemDisk;
use rex_journal::JournalKeeper;
use rex_traits::MemKeeper;
use rex_world::World;
use std::alloc::{AllocError, Global};

/// A keeper of records on a disk in memory.
type Journal = JournalKeeper<MemDisk>;

/// A world whose nodes keep their records in lists, or in journals on disks in memory.
#[derive(Drop)]
pub(crate) enum KeptWorld {
    Lists(World<MemKeeper>),
    Journals(World<Journal>),
}

// An empty journal for each node, each on a disk of its own.
fn journals(alloc: Global, nodes: u8) -> Result<Vec<Journal>, AllocError>
    ensures { IfOk result (λ keepers. AreFresh journal_value nodes keepers.items) }
{
    let mut keepers = Vec::new(alloc);
    for _ in 0..nodes {
        let keeper = JournalKeeper::in_memory(alloc)?;
        keepers.push(keeper)?;
    }
    Ok(keepers)
}

/// The world of a plan before its first line.
pub(crate) fn begin(alloc: Global, plan: &Plan) -> Result<KeptWorld, AllocError>
    requires { ScenarioFits plan.now.service plan.now.scenario }
    ensures kept { IfOk result (λ w. is_in_journals w ≡ plan.now.in_journals) }
    ensures begun { IfOk result (IsBegun plan.now.service plan.now.scenario) }
{
    if plan.in_journals {
        let keepers = journals(alloc, plan.scenario.nodes)?;
        let world = World::with_keepers(alloc, &plan.service, &plan.scenario, keepers)?;
        return Ok(KeptWorld::Journals(world));
    }
    let world = World::new(alloc, &plan.service, &plan.scenario)?;
    Ok(KeptWorld::Lists(world))
}
