//! What a process does that it is asked for, and the bytes that tell what came of it.

ghost use Rattle.std.specs.Prelude.{◌≡◌, ◌<◌, true, OnErr, OnOk};
ghost use Rattle.rex_schedule.specs.Fits.{RequestFits};
ghost use Rattle.rex_processes.specs.Processes.Task.{Ask as ToAsk};
ghost use Rattle.rex_frames.specs.declared.asking.Asked.TheVariants.{Ask, Cut, Elect, Foretell, Hear, Read, Run, Submit, Turn};
ghost use Rattle.rex_process.specs.Hearing.{IsHeard};
ghost use Rattle.rex_process.specs.Keeping.{ByAppends};
ghost use Rattle.rex_process.specs.Process.{IsProcess, IsSame};
ghost use Rattle.rex_process.specs.Sending.{MayBeTold};
ghost use Rattle.rex_serve.specs.Answering.{Answered, BreaksOff};
ghost use Rattle.rex_serve.specs.Serving.{GrowsBy, IsUpOrFailed};

use crate::answering::{push_answer, push_effects, push_ran, push_step};
use rex_frames::push_effect;
use rex_msg::Message;
use rex_process::Process;
use rex_syntax::request::Request;
use rex_traits::Keeper;
use std::alloc::AllocError;

pub(crate) fn elect<K: Keeper>(
    process: &mut Process<'_, K>,
    out: &mut Vec<u8>,
) -> Result<(), AllocError>
    requires process { IsProcess K.records K.faults process.old }
    requires up { process.old.node.up ≡ true }
    ensures answered { OnOk result (GrowsBy (Answered K.records K.faults process.old process.new Elect) out.old.items out.new.items) }
    ensures left { OnErr result (BreaksOff K.records K.faults process.old process.new Elect) }
    ensures process { OnOk result (IsProcess K.records K.faults process.new) }
    ensures same { IsSame process.old process.new }
    ensures appends { ByAppends K.append_gives process.old.node.keeper process.new.node.keeper }
    ensures counts { OnOk result (IsUpOrFailed K.faults process.old process.new) }
{
    let answer = process.elect()?;
    push_answer(out, process.service().declarations(), &answer)
}

pub(crate) fn submit<K: Keeper>(
    process: &mut Process<'_, K>,
    request: &Request,
    out: &mut Vec<u8>,
) -> Result<(), AllocError>
    requires process { IsProcess K.records K.faults process.old }
    requires up { process.old.node.up ≡ true }
    requires request { RequestFits process.old.service request.now }
    ensures answered { OnOk result (GrowsBy (Answered K.records K.faults process.old process.new (Submit request.now)) out.old.items out.new.items) }
    ensures left { OnErr result (BreaksOff K.records K.faults process.old process.new (Submit request.now)) }
    ensures process { OnOk result (IsProcess K.records K.faults process.new) }
    ensures same { IsSame process.old process.new }
    ensures appends { ByAppends K.append_gives process.old.node.keeper process.new.node.keeper }
    ensures counts { OnOk result (IsUpOrFailed K.faults process.old process.new) }
{
    let step = process.submit(request)?;
    push_step(out, process.service().declarations(), &step)
}

pub(crate) fn run<K: Keeper>(
    process: &mut Process<'_, K>,
    clock: i64,
    out: &mut Vec<u8>,
) -> Result<(), AllocError>
    requires process { IsProcess K.records K.faults process.old }
    requires up { process.old.node.up ≡ true }
    ensures answered { OnOk result (GrowsBy (Answered K.records K.faults process.old process.new (Run clock)) out.old.items out.new.items) }
    ensures left { OnErr result (BreaksOff K.records K.faults process.old process.new (Run clock)) }
    ensures process { OnOk result (IsProcess K.records K.faults process.new) }
    ensures same { IsSame process.old process.new }
    ensures appends { ByAppends K.append_gives process.old.node.keeper process.new.node.keeper }
    ensures counts { OnOk result (IsUpOrFailed K.faults process.old process.new) }
{
    let ran = process.run(clock)?;
    push_ran(out, process.service().declarations(), &ran)
}

pub(crate) fn turn<K: Keeper>(
    process: &mut Process<'_, K>,
    lane: u8,
    clock: i64,
    out: &mut Vec<u8>,
) -> Result<(), AllocError>
    requires process { IsProcess K.records K.faults process.old }
    requires up { process.old.node.up ≡ true }
    requires lane { lane < process.old.service.lanes }
    ensures answered { OnOk result (GrowsBy (Answered K.records K.faults process.old process.new (Turn lane clock)) out.old.items out.new.items) }
    ensures left { OnErr result (BreaksOff K.records K.faults process.old process.new (Turn lane clock)) }
    ensures process { OnOk result (IsProcess K.records K.faults process.new) }
    ensures same { IsSame process.old process.new }
    ensures appends { ByAppends K.append_gives process.old.node.keeper process.new.node.keeper }
    ensures counts { OnOk result (IsUpOrFailed K.faults process.old process.new) }
{
    let step = process.turn(lane, clock)?;
    push_step(out, process.service().declarations(), &step)
}

pub(crate) fn cut<K: Keeper>(
    process: &mut Process<'_, K>,
    out: &mut Vec<u8>,
) -> Result<(), AllocError>
    requires process { IsProcess K.records K.faults process.old }
    requires up { process.old.node.up ≡ true }
    ensures answered { OnOk result (GrowsBy (Answered K.records K.faults process.old process.new Cut) out.old.items out.new.items) }
    ensures left { OnErr result (BreaksOff K.records K.faults process.old process.new Cut) }
    ensures process { OnOk result (IsProcess K.records K.faults process.new) }
    ensures same { IsSame process.old process.new }
    ensures appends { ByAppends K.append_gives process.old.node.keeper process.new.node.keeper }
    ensures counts { OnOk result (IsUpOrFailed K.faults process.old process.new) }
{
    let step = process.cut()?;
    push_step(out, process.service().declarations(), &step)
}

pub(crate) fn hear<K: Keeper>(
    process: &mut Process<'_, K>,
    message: &Message,
    out: &mut Vec<u8>,
) -> Result<(), AllocError>
    requires process { IsProcess K.records K.faults process.old }
    requires up { process.old.node.up ≡ true }
    requires message { IsHeard process.old.node.id process.old.node.nodes message.now }
    ensures answered { OnOk result (GrowsBy (Answered K.records K.faults process.old process.new (Hear message.now)) out.old.items out.new.items) }
    ensures left { OnErr result (BreaksOff K.records K.faults process.old process.new (Hear message.now)) }
    ensures process { OnOk result (IsProcess K.records K.faults process.new) }
    ensures same { IsSame process.old process.new }
    ensures appends { ByAppends K.append_gives process.old.node.keeper process.new.node.keeper }
    ensures counts { OnOk result (IsUpOrFailed K.faults process.old process.new) }
{
    let answer = process.hear(message)?;
    push_answer(out, process.service().declarations(), &answer)
}

pub(crate) fn foretell<K: Keeper>(
    process: &Process<'_, K>,
    message: &Message,
    out: &mut Vec<u8>,
) -> Result<(), AllocError>
    requires process { IsProcess K.records K.faults process.now }
    requires up { process.now.node.up ≡ true }
    requires message { IsHeard process.now.node.id process.now.node.nodes message.now }
    ensures { OnOk result (GrowsBy (Answered K.records K.faults process.now process.now (Foretell message.now)) out.old.items out.new.items) }
{
    let effects = process.early_replies(message)?;
    push_effects(out, process.service().declarations(), effects.as_slice())
}

pub(crate) fn ask<K: Keeper>(
    process: &mut Process<'_, K>,
    to: u8,
    out: &mut Vec<u8>,
) -> Result<(), AllocError>
    requires process { IsProcess K.records K.faults process.old }
    requires up { process.old.node.up ≡ true }
    requires to { MayBeTold process.old.node.nodes process.old.node.id (ToAsk to) }
    ensures answered { OnOk result (GrowsBy (Answered K.records K.faults process.old process.new (Ask to)) out.old.items out.new.items) }
    ensures left { OnErr result (BreaksOff K.records K.faults process.old process.new (Ask to)) }
    ensures process { OnOk result (IsProcess K.records K.faults process.new) }
    ensures same { IsSame process.old process.new }
    ensures appends { ByAppends K.append_gives process.old.node.keeper process.new.node.keeper }
    ensures counts { OnOk result (IsUpOrFailed K.faults process.old process.new) }
{
    let step = process.ask(to)?;
    push_step(out, process.service().declarations(), &step)
}

pub(crate) fn read<K: Keeper>(
    process: &Process<'_, K>,
    client: u16,
    variable: u16,
    seen: u32,
    out: &mut Vec<u8>,
) -> Result<(), AllocError>
    requires { IsProcess K.records K.faults process.now }
    ensures { OnOk result (GrowsBy (Answered K.records K.faults process.now process.now (Read client variable seen)) out.old.items out.new.items) }
{
    let effect = process.read(client, variable, seen);
    push_effect(out, process.service().declarations(), &effect)
}
