//! How a frame is answered.

ghost use Rattle.std.specs.Prelude.{◌≡◌, true, OnErr, OnOk};
ghost use Rattle.rex_frames.specs.Asking.{AskedFits};
ghost use Rattle.rex_process.specs.Keeping.{ByAppends};
ghost use Rattle.rex_process.specs.Process.{IsProcess, IsSame};
ghost use Rattle.rex_serve.specs.Answering.{Answered, AnswersFrame, BreaksOff, asked_of};
ghost use Rattle.rex_serve.specs.Serving.{GrowsBy, IsUpOrFailed};

use crate::acting::{ask, cut, elect, foretell, hear, read, run, submit, turn};
use crate::answering::push_standing;
use rex_frames::letters::NOTHING;
use rex_frames::{Asked, asked_in, push_letter};
use rex_process::Process;
use rex_traits::Keeper;
use std::alloc::{AllocError, Global};

// Does what is asked for, and appends what came of it.
fn act<K: Keeper>(
    process: &mut Process<'_, K>,
    asked: &Asked,
    out: &mut Vec<u8>,
) -> Result<(), AllocError>
    requires process { IsProcess K.records K.faults process.old }
    requires up { process.old.node.up ≡ true }
    requires fits { AskedFits process.old.service process.old.node.id process.old.node.nodes asked.now }
    ensures answered { OnOk result (GrowsBy (Answered K.records K.faults process.old process.new asked.now) out.old.items out.new.items) }
    ensures left { OnErr result (BreaksOff K.records K.faults process.old process.new asked.now) }
    ensures process { OnOk result (IsProcess K.records K.faults process.new) }
    ensures same { IsSame process.old process.new }
    ensures appends { ByAppends K.append_gives process.old.node.keeper process.new.node.keeper }
    ensures counts { OnOk result (IsUpOrFailed K.faults process.old process.new) }
{
    match asked {
        Asked::Elect => elect(process, out),
        Asked::Submit { request } => submit(process, request, out),
        Asked::Run { clock } => run(process, *clock, out),
        Asked::Turn { lane, clock } => turn(process, *lane, *clock, out),
        Asked::Cut => cut(process, out),
        Asked::Hear { message } => hear(process, message, out),
        Asked::Foretell { message } => foretell(process, message, out),
        Asked::Ask { to } => ask(process, *to, out),
        Asked::Read {
            client,
            variable,
            seen,
        } => read(process, *client, *variable, *seen, out),
        Asked::Look => Ok(()),
        Asked::Nothing => push_letter(out, NOTHING),
    }
}

/// Answers a frame: appends what came of what it asks for, and then what the node is, while it is up.
pub(crate) fn answer<K: Keeper>(
    alloc: Global,
    process: &mut Process<'_, K>,
    frame: &[u8],
    out: &mut Vec<u8>,
) -> Result<(), AllocError>
    requires process { IsProcess K.records K.faults process.old }
    requires up { process.old.node.up ≡ true }
    ensures answers { OnOk result (GrowsBy (AnswersFrame K.records K.faults process.old process.new frame.now) out.old.items out.new.items) }
    ensures left { OnErr result (BreaksOff K.records K.faults process.old process.new (asked_of process.old frame.now)) }
    ensures process { OnOk result (IsProcess K.records K.faults process.new) }
    ensures same { IsSame process.old process.new }
    ensures appends { ByAppends K.append_gives process.old.node.keeper process.new.node.keeper }
    ensures counts { OnOk result (IsUpOrFailed K.faults process.old process.new) }
{
    let asked = asked_in(
        alloc,
        process.service(),
        process.id(),
        process.nodes(),
        frame,
    )?;
    act(process, &asked, out)?;
    push_standing(out, process)
}
