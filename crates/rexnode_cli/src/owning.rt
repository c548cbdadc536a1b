//! Whose a journal is.

ghost use Rattle.std.specs.Prelude.{◌≡◌, ◌<◌, ◌-◌, ◌^◌, IfErr, IfOk, MatchResult};
ghost use Rattle.rex_traits.specs.Causes.{Rose};
ghost use Rattle.rex_process.specs.Keeping.{ByAppends};
ghost use Rattle.rexnode_command.specs.Laws.{Fits};
ghost use Rattle.rexnode_cli.specs.Running.{IsNotOwned, IsOwnedAs, identity_of};
ghost use Rattle.rexnode_cli.specs.declared.statuses.TheConstants.{DISK_FAILED, WRITE_FAILED};

use crate::handed_back::HandedBack;
use crate::loading::Loaded;
use crate::statuses::{OUT_OF_MEMORY, claim_status};
use rex_group::GroupKeeper;
use rex_identity::{Identity, Owned};
use rex_traits::Keeper;
use rexnode_command::Command;
use std::alloc::Global;

/// Sees to it that a keeper is the node's that a command asks for: one without records becomes it. The records behind the one that says so
/// are read as groups.
///
/// # Errors
/// The keeper is handed back: it is another's, it failed in this call, or memory was short.
pub(crate) fn own<K: Keeper + Drop>(
    alloc: Global,
    command: &Command<'_>,
    loaded: &Loaded,
    keeper: K,
) -> Result<GroupKeeper<Owned<K>>, HandedBack<K>>
    requires fits { Fits command.now }
    requires count { K.faults keeper < 2 ^ 64 - 1 }
    ensures owned { IfOk result (IsOwnedAs K.records K.append_gives (identity_of command.now loaded.now.digest) keeper) }
    ensures count { IfOk result (λ g. K.faults g.keeper.keeper ≡ K.faults keeper) }
    ensures refused { IfErr result (λ r. IsNotOwned K.records K.faults (identity_of command.now loaded.now.digest) keeper r.status r.back) }
    ensures appends { MatchResult result (λ g. ByAppends K.append_gives keeper g.keeper.keeper) (λ r. ByAppends K.append_gives keeper r.back) }
    ensures failed { IfErr result (λ r. r.status ≡ DISK_FAILED → Rose (K.faults keeper) (K.faults r.back)) }
    // The status is none of those that a source and a sink tell.
    ensures above { IfErr result (λ r. WRITE_FAILED < r.status) }
{
    let Ok(identity) = Identity::new(
        alloc,
        command.cluster,
        command.id,
        command.nodes,
        command.seed,
        loaded.digest,
    ) else {
        return Err(HandedBack {
            status: OUT_OF_MEMORY,
            back: keeper,
        });
    };
    match Owned::claim(alloc, keeper, identity) {
        Ok(owned) => match GroupKeeper::read(alloc, owned) {
            Ok(grouped) => Ok(grouped),
            Err(not_read) => Err(HandedBack {
                status: OUT_OF_MEMORY,
                back: not_read.keeper.into_keeper(),
            }),
        },
        Err(not_owned) => Err(HandedBack {
            status: claim_status(not_owned.fault),
            back: not_owned.keeper,
        }),
    }
}
