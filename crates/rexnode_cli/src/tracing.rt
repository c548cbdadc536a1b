//! The trace of a journal.

ghost use Rattle.std.specs.Prelude.{◌≡◌, ◌<◌, ◌-◌, ◌^◌, true};
ghost use Rattle.rex_traits.specs.Causes.{Rose};
ghost use Rattle.rex_process.specs.Process.{IsProcess};
ghost use Rattle.rex_process.specs.Tracing.{known_text};
ghost use Rattle.rexnode_command.specs.Laws.{Fits};
ghost use Rattle.rexnode_cli.specs.Running.{identity_of};
ghost use Rattle.rexnode_cli.specs.Tracing.{IsWritten, Traces, TracesOn, TracesOwned};
ghost use Rattle.rexnode_cli.specs.declared.statuses.TheConstants.{WRITE_FAILED};

use crate::handed_back::HandedBack;
use crate::loading::Loaded;
use crate::owning::own;
use crate::statuses::{OUT_OF_MEMORY, open_status, start_status};
use rex_answer::Answer;
use rex_file::ByteAtomic;
use rex_process::Process;
use rex_syntax::checked::Checked;
use rex_traits::{Keeper, Sink};
use rex_wal::WalKeeper;
use rexnode_command::Command;
use std::alloc::Global;

// Writes the trace of what a process knows.
fn write_trace<K: Keeper, W: Sink>(alloc: Global, process: &Process<'_, K>, sink: &mut W) -> u8
    requires process { IsProcess K.records K.faults process.now }
    requires up { process.now.node.up ≡ true }
    ensures written { IsWritten (known_text K.records process.now) (W.taken sink.old) (W.taken sink.new) result }
    ensures unwritten { result ≡ WRITE_FAILED → Rose (W.faults sink.old) (W.faults sink.new) }
{
    let mut text = Vec::new(alloc);
    match process.push_trace(&mut text) {
        Ok(()) => Answer { status: 0, text }.give(sink),
        Err(_) => OUT_OF_MEMORY,
    }
}

// Writes the trace of what a node knows that comes up with the records of a keeper.
fn trace_process<K: Keeper + Drop, W: Sink>(
    alloc: Global,
    command: &Command<'_>,
    svc: &Checked,
    keeper: K,
    sink: &mut W,
) -> HandedBack<K>
    requires fits { Fits command.now }
    requires count { K.faults keeper < 2 ^ 64 - 1 }
    ensures traces { Traces K.records K.faults svc.now command.now.id command.now.nodes command.now.seed keeper
        (W.taken sink.old) (W.taken sink.new) result.status }
    ensures keeper { result.back ≡ keeper }
    ensures unwritten { result.status ≡ WRITE_FAILED → Rose (W.faults sink.old) (W.faults sink.new) }
{
    match Process::start(alloc, command.id, command.nodes, command.seed, svc, keeper) {
        Ok(process) => HandedBack {
            status: write_trace(alloc, &process, sink),
            back: process.stop(),
        },
        Err(not_started) => HandedBack {
            status: start_status(not_started.fault),
            back: not_started.keeper,
        },
    }
}

// Writes the trace of a keeper that is the node's own. One without records isn't claimed.
fn trace_owned<K: Keeper + Drop, W: Sink>(
    alloc: Global,
    command: &Command<'_>,
    loaded: &Loaded,
    keeper: K,
    sink: &mut W,
) -> HandedBack<K>
    requires fits { Fits command.now }
    requires count { K.faults keeper < 2 ^ 64 - 1 }
    ensures traces { TracesOwned K.records K.append_gives K.faults loaded.now.service (identity_of command.now loaded.now.digest) keeper
        (W.taken sink.old) (W.taken sink.new) result.status }
    ensures keeper { result.back ≡ keeper }
    ensures unwritten { result.status ≡ WRITE_FAILED → Rose (W.faults sink.old) (W.faults sink.new) }
{
    if keeper.len() == 0 {
        return HandedBack {
            status: 0,
            back: keeper,
        };
    }
    match own(alloc, command, loaded, keeper) {
        Ok(owned) => {
            let traced = trace_process(alloc, command, &loaded.service, owned, sink);
            HandedBack {
                status: traced.status,
                back: traced.back.into_keeper().into_keeper(),
            }
        }
        Err(refused) => refused,
    }
}

/// Writes the trace of the journal that a command names: opens it on a disk, sees to it that it is the node's, brings the node up with
/// its records, and writes the lines of all values that it knows. It appends nothing, and a journal without records has an empty trace.
/// It hands the disk back, with the program's status: 0 where all was written; 5 where a write failed; 6 for want of memory; 7 where
/// the journal is bad, has a record that this node doesn't write, or is another's; 8 where its disk failed.
pub fn trace_main<D: ByteAtomic + Drop, W: Sink>(
    alloc: Global,
    command: &Command<'_>,
    loaded: &Loaded,
    disk: D,
    sink: &mut W,
) -> HandedBack<D>
    requires fits { Fits command.now }
    requires count { D.faults disk < 2 ^ 64 - 1 }

    // With which records of the disk the node came up, and that the sink took the lines of all that it knew, or a front of them; or
    // why nothing was written. The disk is handed back as opening the journal left it.
    ensures traces { TracesOn D.meets D.seen D.may_leave D.gives D.faults loaded.now.service (identity_of command.now loaded.now.digest) disk
        (W.taken sink.old) (W.taken sink.new) result.status result.back }

    // The cause that the sink tells.
    ensures unwritten { result.status ≡ WRITE_FAILED → Rose (W.faults sink.old) (W.faults sink.new) }
{
    match WalKeeper::open(alloc, disk) {
        Ok(keeper) => {
            let traced = trace_owned(alloc, command, loaded, keeper, sink);
            HandedBack {
                status: traced.status,
                back: traced.back.into_disk(),
            }
        }
        Err(refused) => HandedBack {
            status: open_status(refused.fault),
            back: refused.disk,
        },
    }
}
