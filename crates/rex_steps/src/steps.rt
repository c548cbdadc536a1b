//! The steps that are made of what a node answered.

ghost use Rattle.std.specs.Prelude.{◌≡◌, ◌∷◌, ◌++◌, [], IfOk, IfErr};
ghost use Rattle.rex_cluster.specs.Lanes as lanes;
ghost use Rattle.rex_cluster.specs.Lanes.{effect_of};
ghost use Rattle.rex_steps.specs.Steps.{TellsOf};

use rex_event::{Event, Kind};
use rex_gate::Answer;
use rex_list::List;
use rex_node::{Refusal, Step};
use rex_record::Turn;
use rex_report::Effect;
use rex_syntax::request::Request;
use std::alloc::Global;

/// A step that reports this, and sends nothing.
pub fn step_of(alloc: Global, effect: Effect) -> Result<Step, Refusal>
    ensures effects { IfOk result (λ step. step.effects ≡ effect ∷ []) }
    ensures sends { IfOk result (λ step. step.sends ≡ []) }
    ensures memory { IfErr result (λ e. e ≡ Refusal.OutOfMemory) }
{
    let _event: Option<(Event, Kind)> = None;
    let mut effects = List::new(alloc);
    effects.push(effect)?;
    Ok(Step {
        effects,
        sends: List::new(alloc),
    })
}

// What is reported of an answer to a request.
fn answer_effect(request: &Request, answer: Answer) -> Effect
    ensures { result ≡ effect_of request.now answer }
{
    match answer {
        Answer::Queued => Effect::Queued,
        Answer::Waiting => Effect::Waiting,
        Answer::Released(value) => Effect::Released {
            client: request.client,
            sequence: request.sequence,
            value,
        },
        Answer::Old { last } => Effect::Old { last },
        Answer::Gap { expected } => Effect::Gap { expected },
    }
}

// What is reported of a lane's turn.
fn turn_effect(lane: u8, turn: Turn) -> Effect
    ensures { result ≡ lanes.turn_effect lane turn }
{
    match turn {
        Turn::Done(event) => Effect::Recorded { event },
        Turn::Full => Effect::Full { lane },
        Turn::Idle => Effect::Idle { lane },
        Turn::Held { by } => Effect::Held { lane, by },
        Turn::Unsignalled => Effect::Unsignalled { lane },
        Turn::Zero { semaphore } => Effect::Zero { lane, semaphore },
        // No turn of a lane comes to this.
        Turn::Unfit => Effect::Nothing,
    }
}

/// The step of an answer.
pub fn answered(
    alloc: Global,
    request: &Request,
    outcome: Result<Answer, Refusal>,
) -> Result<Step, Refusal>
    ensures { TellsOf (effect_of request.now) outcome result }
{
    match outcome {
        Ok(answer) => step_of(alloc, answer_effect(request, answer)),
        Err(refusal) => Err(refusal),
    }
}

/// The step of a turn.
pub fn turned(alloc: Global, lane: u8, outcome: Result<Turn, Refusal>) -> Result<Step, Refusal>
    ensures { TellsOf (lanes.turn_effect lane) outcome result }
{
    match outcome {
        Ok(turn) => step_of(alloc, turn_effect(lane, turn)),
        Err(refusal) => Err(refusal),
    }
}

/// What two steps did, one after the other.
pub fn joined(alloc: Global, first: Step, second: Step) -> Result<Step, Refusal>
    ensures effects { IfOk result (λ step. step.effects ≡ first.effects ++ second.effects) }
    ensures sends { IfOk result (λ step. step.sends ≡ first.sends ++ second.sends) }
    ensures memory { IfErr result (λ e. e ≡ Refusal.OutOfMemory) }
{
    let _event: Option<(Event, Kind)> = None;
    let mut effects = first.effects.into_vec();
    let mut more = second.effects.into_vec();
    effects.append(&mut more)?;
    let mut sends = first.sends.into_vec();
    let mut more = second.sends.into_vec();
    sends.append(&mut more)?;
    Ok(Step {
        effects: List::from_vec(effects),
        sends: List::from_vec(sends),
    })
}
