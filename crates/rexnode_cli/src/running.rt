//! A node that runs on a disk.

ghost use Rattle.std.specs.Prelude.{◌≡◌, ◌≢◌, ◌<◌, ◌≤◌, ◌⊎◌, ◌-◌, ◌^◌, true};
ghost use Rattle.rex_traits.specs.Causes.{Rose};
ghost use Rattle.rex_ballot.specs.Limits.{most_nodes};
ghost use Rattle.rex_process.specs.Keeping.{ByAppends, ByAppendsAndFlushes};
ghost use Rattle.rexnode_command.specs.Laws.{Fits, IsMember};
ghost use Rattle.rex_serve.specs.Serving.{GrowsBy};
ghost use Rattle.rexnode_cli.specs.Running.{Runs, RunsOn, RunsOwned, identity_of};
ghost use Rattle.rexnode_cli.specs.declared.statuses.TheConstants.{DISK_FAILED, READ_FAILED, WRITE_FAILED};

use crate::handed_back::HandedBack;
use crate::loading::Loaded;
use crate::owning::own;
use crate::statuses::{ended_status, open_status, start_status};
use rex_file::ByteAtomic;
use rex_flush::Flush;
use rex_process::Process;
use rex_serve::serve;
use rex_syntax::checked::Checked;
use rex_traits::{Keeper, Sink, Source};
use rex_wal::WalKeeper;
use rexnode_command::Command;
use std::alloc::Global;

// Runs a node with the records of a keeper, which are all kept for good.
fn run_process<K: Flush + Drop, S: Source, W: Sink>(
    alloc: Global,
    command: &Command<'_>,
    svc: &Checked,
    keeper: K,
    source: &mut S,
    sink: &mut W,
) -> HandedBack<K>
    requires fits { Fits command.now }
    requires count { K.faults keeper < 2 ^ 64 - 1 }
    requires settled { K.kept keeper ≡ K.records keeper }
    ensures runs { GrowsBy (λ input. Runs K.records K.kept K.faults svc.now command.now.id command.now.nodes command.now.seed keeper input
        (W.taken sink.old) (W.taken sink.new) result.status result.back) (S.given source.old) (S.given source.new) }
    ensures keeper { ByAppendsAndFlushes K.append_gives K.flush_gives keeper result.back }
    ensures failed { result.status ≡ DISK_FAILED → Rose (K.faults keeper) (K.faults result.back) }
    ensures over { result.status ≡ 0 → S.ended source.new ≡ true }
    ensures unread { result.status ≡ READ_FAILED → Rose (S.faults source.old) (S.faults source.new) ⊎ (2 ^ 64 - 1 ≤ S.calls source.new) }
    ensures unwritten { result.status ≡ WRITE_FAILED → Rose (W.faults sink.old) (W.faults sink.new) }
{
    match Process::start(alloc, command.id, command.nodes, command.seed, svc, keeper) {
        Ok(mut process) => {
            let ended = serve(alloc, &mut process, source, sink);
            HandedBack {
                status: ended_status(ended),
                back: process.stop(),
            }
        }
        Err(not_started) => HandedBack {
            status: start_status(not_started.fault),
            back: not_started.keeper,
        },
    }
}

// Runs a node with the records of a keeper that is its own.
fn run_owned<K: Keeper + Drop, S: Source, W: Sink>(
    alloc: Global,
    command: &Command<'_>,
    loaded: &Loaded,
    keeper: K,
    source: &mut S,
    sink: &mut W,
) -> HandedBack<K>
    requires fits { Fits command.now }
    requires count { K.faults keeper < 2 ^ 64 - 1 }
    ensures runs { GrowsBy (λ input. RunsOwned K.records K.append_gives K.faults loaded.now.service (identity_of command.now loaded.now.digest) keeper input
        (W.taken sink.old) (W.taken sink.new) result.status result.back) (S.given source.old) (S.given source.new) }
    ensures keeper { ByAppends K.append_gives keeper result.back }
    ensures failed { result.status ≡ DISK_FAILED → Rose (K.faults keeper) (K.faults result.back) }
    ensures over { result.status ≡ 0 → S.ended source.new ≡ true }
    ensures unread { result.status ≡ READ_FAILED → Rose (S.faults source.old) (S.faults source.new) ⊎ (2 ^ 64 - 1 ≤ S.calls source.new) }
    ensures unwritten { result.status ≡ WRITE_FAILED → Rose (W.faults sink.old) (W.faults sink.new) }
{
    match own(alloc, command, loaded, keeper) {
        Ok(owned) => {
            let ran = run_process(alloc, command, &loaded.service, owned, source, sink);
            HandedBack {
                status: ran.status,
                back: ran.back.into_keeper().into_keeper(),
            }
        }
        Err(refused) => refused,
    }
}

/// Runs the node that a command asks for: opens the journal on a disk, sees to it that it is this node's, brings the node up with its
/// records, and answers the frames that a source gives, until it ends. It hands the disk back, with the program's status: 0 where the
/// source ended; 4 where a read failed; 5 where a write failed; 6 for want of memory; 7 where the journal is bad, has a record that
/// this node doesn't write, or is another's; 8 where its disk failed; 10 where a frame is longer than any may be.
pub fn node_main<D: ByteAtomic + Drop, S: Source, W: Sink>(
    alloc: Global,
    command: &Command<'_>,
    loaded: &Loaded,
    disk: D,
    source: &mut S,
    sink: &mut W,
) -> HandedBack<D>
    requires fits { Fits command.now }
    requires count { D.faults disk < 2 ^ 64 - 1 }

    // With which records of the disk the node came up, which of the frames that the source gave in this call it answered, to what it came
    // thereby, which of its records are kept for good, and which of the answers the sink took; or why it read and wrote nothing. What a
    // stop leaves of the disk that is handed back holds the records that are kept for good.
    ensures runs { GrowsBy (λ input. RunsOn D.meets D.seen D.may_leave D.gives D.faults loaded.now.service (identity_of command.now loaded.now.digest) disk
        input (W.taken sink.old) (W.taken sink.new) result.status result.back) (S.given source.old) (S.given source.new) }
    ensures model { D.meets result.back ≡ D.meets disk }

    // The causes that the disk, the source and the sink tell.
    ensures failed { result.status ≡ DISK_FAILED → Rose (D.faults disk) (D.faults result.back) }
    ensures over { result.status ≡ 0 → S.ended source.new ≡ true }
    ensures unread { result.status ≡ READ_FAILED → Rose (S.faults source.old) (S.faults source.new) ⊎ (2 ^ 64 - 1 ≤ S.calls source.new) }
    ensures unwritten { result.status ≡ WRITE_FAILED → Rose (W.faults sink.old) (W.faults sink.new) }
{
    match WalKeeper::open(alloc, disk) {
        Ok(keeper) => {
            let ran = run_owned(alloc, command, loaded, keeper, source, sink);
            HandedBack {
                status: ran.status,
                back: ran.back.into_disk(),
            }
        }
        Err(refused) => HandedBack {
            status: open_status(refused.fault),
            back: refused.disk,
        },
    }
}
