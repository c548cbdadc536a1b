//! The bytes that tell what came of what was asked for.

ghost use Rattle.std.specs.Prelude.{◌≡◌, ◌++◌, OnOk};
ghost use Rattle.std.specs.List.{All, flat_map};
ghost use Rattle.rex_msg.specs.Spelling.{IsMessage};
ghost use Rattle.rex_frames.specs.Answering.{effect_frame, message_frame};
ghost use Rattle.rex_process.specs.Process.{IsProcess};
ghost use Rattle.rex_process.specs.Sending.{AllSent};
ghost use Rattle.rex_serve.specs.Answering as spec;

use rex_event::{Event, Kind};
use rex_frames::letters::UNFIT;
use rex_frames::{push_count, push_effect, push_letter, push_message, push_status};
use rex_msg::Message;
use rex_node::Step;
use rex_process::{Answer, Process, Ran};
use rex_report::Effect;
use rex_syntax::service::Declarations;
use rex_traits::Keeper;
use std::alloc::AllocError;

/// Appends effects.
pub(crate) fn push_effects(
    out: &mut Vec<u8>,
    service: &Declarations,
    effects: &[Effect],
) -> Result<(), AllocError>
    ensures { OnOk result (out.new.items ≡ out.old.items ++ flat_map (effect_frame service.now) effects.now) }
{
    let _event: Option<(Event, Kind)> = None;
    for effect in effects {
        push_effect(out, service, effect)?;
    }
    Ok(())
}

fn push_messages(out: &mut Vec<u8>, messages: &[Message]) -> Result<(), AllocError>
    requires { All IsMessage messages.now }
    ensures { OnOk result (out.new.items ≡ out.old.items ++ flat_map message_frame messages.now) }
{
    for message in messages {
        push_message(out, message)?;
    }
    Ok(())
}

/// Appends what a step reports, and then the messages that it sends.
pub(crate) fn push_step(
    out: &mut Vec<u8>,
    service: &Declarations,
    step: &Step,
) -> Result<(), AllocError>
    requires { All IsMessage step.now.sends }
    ensures { OnOk result (out.new.items ≡ out.old.items ++ spec.step_frames service.now step.now) }
{
    push_effects(out, service, step.effects.as_slice())?;
    push_messages(out, step.sends.as_slice())
}

/// Appends a step, or that a value doesn't fit.
pub(crate) fn push_answer(
    out: &mut Vec<u8>,
    service: &Declarations,
    answer: &Answer,
) -> Result<(), AllocError>
    requires { AllSent answer.now }
    ensures { OnOk result (out.new.items ≡ out.old.items ++ spec.answer_frames service.now answer.now) }
{
    match answer {
        Answer::Did(step) => push_step(out, service, step),
        Answer::Unfit => push_letter(out, UNFIT),
    }
}

/// Appends how many events the lanes made, or why the node refused.
pub(crate) fn push_ran(
    out: &mut Vec<u8>,
    service: &Declarations,
    ran: &Ran,
) -> Result<(), AllocError>
    ensures { OnOk result (out.new.items ≡ out.old.items ++ spec.ran_frames service.now ran.now) }
{
    match ran {
        Ran::Made { events } => push_count(out, *events),
        Ran::Refused { effect } => push_effect(out, service, effect),
    }
}

/// Appends what the node is, while it is up.
pub(crate) fn push_standing<K: Keeper>(
    out: &mut Vec<u8>,
    process: &Process<'_, K>,
) -> Result<(), AllocError>
    requires { IsProcess K.records K.faults process.now }
    ensures { OnOk result (out.new.items ≡ out.old.items ++ spec.standing_frame K.records process.now) }
{
    if process.is_up() {
        push_status(out, process.status())?;
    }
    Ok(())
}
