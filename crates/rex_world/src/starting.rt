//! How a node is stopped, and starts again.

ghost use Rattle.std.specs.Prelude.{◌≡◌, ◌∷◌, [], length, IfOk, IfErr};
ghost use Rattle.rex_cluster.specs.Calls.{stop};
ghost use Rattle.rex_cluster.specs.Records.{known, promise};
ghost use Rattle.rex_cluster.specs.Values.{service_of};
ghost use Rattle.rex_report.specs.declared.effect.Effect.TheVariants as effect;
ghost use Rattle.rex_world.specs.Members.{IsOwnMember, StaysOwnMember, here_at};
ghost use Rattle.rex_world.specs.Calls.{CanStart, ComesQuietly, IsUpMember, IsWhole, served, started};
ghost use Rattle.rex_world.specs.Starting.{CameBack};

use rex_ballot::Value;
use rex_list::List;
use rex_log::Past;
use rex_node::{Node, Refusal, RestartFault, Step};
use rex_report::Effect;
use rex_steps::{joined, step_of, told};
use rex_syntax::checked::Checked;
use rex_traits::{Obedient, Store};
use std::alloc::{AllocError, Global};

/// The node is stopped, unless it is down: its keeper is left.
pub(crate) fn stop_at<P: Past, S: Store>(
    node: &mut Node<Obedient<S>>,
    _agreed: &List<Value>,
    alloc: Global,
    svc: &Checked,
) -> Result<Step, AllocError>
    requires member { IsOwnMember svc.now P.past node.old }
    ensures { IfOk result (ComesQuietly svc.now P.past (served node.old.id (stop node.old.id)) node.old node.new) }
{
    let _service = svc.declarations();
    let number = node.id();
    if !node.is_up() {
        return told(alloc, number, Err(Refusal::Down));
    }
    let step = told(
        alloc,
        number,
        step_of(alloc, Effect::Stopped { node: number }),
    )?;
    node.halt();
    Ok(step)
}

/// The node is started, unless it is up, from what its keeper has, which is reopened first. These are its own records, so none is
/// bad, and a start that doesn't come up is short of memory.
pub(crate) fn start_at<P: Past, S: Store>(
    node: &mut Node<Obedient<S>>,
    _agreed: &List<Value>,
    alloc: Global,
    svc: &Checked,
) -> Result<Step, AllocError>
    requires { CanStart svc.now P.past node.old }
    ensures { IfOk result (ComesQuietly svc.now P.past (started (service_of svc.now node.old.seed) node.old.id) node.old node.new) }
{
    let number = node.id();
    if node.is_up() {
        return told(alloc, number, step_of(alloc, Effect::IsUp { node: number }));
    }
    node.reopen()?;
    match node.start::<P>(svc) {
        Ok(()) => told(alloc, number, come_back::<P, S>(alloc, svc, node)),
        Err(RestartFault::OutOfMemory) => Err(AllocError),
        Err(RestartFault::BadRecord { .. }) => unreachable!(),
    }
}

// The step of a node that has come up.
fn came_up<P: Past, S: Store>(
    alloc: Global,
    svc: &Checked,
    node: &Node<Obedient<S>>,
) -> Result<Step, Refusal>
    requires { IsUpMember svc.now P.past node.now }
    ensures effects { IfOk result (λ step. step.effects ≡ effect.Started node.now.id (promise (here_at svc.now P.past node.now).log)
        (length (known (here_at svc.now P.past node.now).log)) node.now.replayed ∷ []) }
    ensures sends { IfOk result (λ step. step.sends ≡ []) }
    ensures memory { IfErr result (λ e. e ≡ Refusal.OutOfMemory) }
{
    let _service = svc.declarations();
    step_of(
        alloc,
        Effect::Started {
            node: node.id(),
            promised: node.promised(),
            known: node.known(),
            replayed: node.replayed(),
        },
    )
}

// What a node does that has come up: it says so, and writes its last checkpoint down again where that is in the old version.
fn come_back<P: Past, S: Store>(
    alloc: Global,
    svc: &Checked,
    node: &mut Node<Obedient<S>>,
) -> Result<Step, Refusal>
    requires { IsUpMember svc.now P.past node.old }
    ensures back { IfOk result (CameBack (service_of svc.now node.old.seed) node.old.id (here_at svc.now P.past node.old) (here_at svc.now P.past node.new)) }
    ensures memory { IfErr result (λ e. e ≡ Refusal.OutOfMemory) }
    ensures stays { IsWhole result → StaysOwnMember svc.now P.past node.old node.new }
{
    let step = came_up::<P, S>(alloc, svc, node)?;
    if !node.has_old_base() {
        return Ok(step);
    }
    let migrated = node.migrate::<P>(svc)?;
    joined(alloc, step, migrated)
}
