//! How a node serves a call, whatever that asks of it.

ghost use Rattle.std.specs.Prelude.{◌≡◌, ◌∷◌, ◌<◌, ◌-◌, ◌^◌, [], false, true, IfOk, OnErr};
ghost use Rattle.rex_report.specs.declared.effect.Effect.TheVariants as effect;
ghost use Rattle.rex_cluster.specs.Lanes.{effect_of};
ghost use Rattle.rex_node.specs.Parts.{IsNode, StaysNode, here_of};
ghost use Rattle.rex_steps.specs.Serving.{IsShort, MayServe, Serves, Spares, call_for};
ghost use Rattle.rex_steps.specs.Steps.{IsStepOf, IsTelling};

use crate::effects::effect_of;
use crate::steps::{answered, step_of, turned};
use rex_ballot::Value;
use rex_list::List;
use rex_log::Past;
use rex_msg::Message;
use rex_node::{Node, Refusal, Step};
use rex_replay::Replayer;
use rex_report::Effect;
use rex_syntax::checked::Checked;
use rex_syntax::request::Request;
use rex_syntax::version::Version;
use rex_traits::Keeper;
use std::alloc::{AllocError, Global};

/// What is asked of a node.
#[derive(Clone, Copy)]
pub enum Call<'a> {
    /// To ask the others for the lead.
    Elect,
    /// To do what a message of another node asks for.
    Receive { message: &'a Message },
    /// To answer a client's request.
    Submit { request: &'a Request },
    /// To let a lane have its turn, where the clock reads this.
    Lane { lane: u8, clock: i64 },
    /// To propose live events: all of them, or at most so many of each lane.
    Cut { limits: Option<&'a [u32]> },
    /// To replay what it knows.
    Replay,
    /// To ask another node for what it doesn't know.
    Ask { other: u8 },
    /// To write down the state that it has replayed, in a version.
    Checkpoint { version: Version },
    /// To forget the values up to its base.
    DropKnown,
}

/// The step of a call: what it came to, or what is reported of why it was refused.
pub fn told(alloc: Global, node: u8, outcome: Result<Step, Refusal>) -> Result<Step, AllocError>
    ensures { IsStepOf node outcome result }
{
    match outcome {
        Ok(step) => Ok(step),
        Err(Refusal::OutOfMemory) => Err(AllocError),
        Err(refusal) => only(alloc, effect_of(node, refusal)),
    }
}

// A step that reports this, and sends nothing.
fn only(alloc: Global, effect: Effect) -> Result<Step, AllocError>
    ensures { IfOk result (IsTelling effect) }
{
    match step_of(alloc, effect) {
        Ok(step) => Ok(step),
        Err(_) => Err(AllocError),
    }
}

/// Has a node serve a call, beside the values of a past, and answers what it did: of a refusal, and of a node that is down, what
/// is reported. Where memory was short its keeper is as it was, or the node has written a record in this call, and is down.
pub fn serve<P: Past, K: Keeper, R: Replayer>(
    node: &mut Node<K>,
    _past: &List<Value>,
    alloc: Global,
    svc: &Checked,
    replayer: &mut R,
    call: &Call<'_>,
) -> Result<Step, AllocError>
    requires node { IsNode K.records svc.now P.past node.old }
    requires may { MayServe svc.now P.past node.old.seed node.old.nodes node.old.id (here_of K.records svc.now P.past node.old) call.now }
    requires count { K.faults node.old.keeper < 2 ^ 64 - 1 }
    ensures serves { IfOk result (Serves K.records K.append_gives K.faults svc.now P.past
        (call_for svc.now P.past node.old.seed node.old.nodes node.old.id (here_of K.records svc.now P.past node.old) call.now) node.old node.new) }
    ensures short { OnErr result (IsShort K.records K.append_gives K.faults svc.now P.past
        (call_for svc.now P.past node.old.seed node.old.nodes node.old.id (here_of K.records svc.now P.past node.old) call.now) node.old node.new) }
    ensures kept { StaysNode K.records svc.now P.past node.old node.new }
    ensures spares { Spares call.now node.old node.new }
{
    let _service = svc.declarations();
    let id = node.id();
    if !node.is_up() {
        return only(alloc, Effect::IsDown { node: id });
    }
    match call {
        Call::Elect => told(alloc, id, node.elect::<P, R>(svc, replayer)),
        Call::Receive { message } => {
            told(alloc, id, node.on_message::<P, R>(svc, replayer, message))
        }
        Call::Submit { request } => {
            let outcome = node.submit::<P>(svc, request);
            told(alloc, id, answered(alloc, request, outcome))
        }
        Call::Lane { lane, clock } => {
            let outcome = node.lane::<P>(svc, *lane, *clock);
            told(alloc, id, turned(alloc, *lane, outcome))
        }
        Call::Cut { limits } => told(alloc, id, node.cut::<P>(svc, *limits)),
        Call::Replay => told(alloc, id, node.replay::<P, R>(svc, replayer)),
        Call::Ask { other } => told(alloc, id, node.ask::<P>(svc, *other)),
        Call::Checkpoint { version } => told(alloc, id, node.checkpoint_in::<P>(svc, *version)),
        Call::DropKnown => told(alloc, id, node.drop_known::<P>(svc)),
    }
}
