//! What clients have seen of the agreed values: replies that were released to them, and values that they read.

ghost use Rattle.std.specs.Prelude.{◌≡◌, ◌≤◌, ◌∷◌, [], replicate, IfOk, OnOk};
ghost use Rattle.rex_reads.specs.Reads.{seen_after};
ghost use Rattle.rex_cluster.specs.Reading as reading;
ghost use Rattle.rex_cluster.specs.Reading.{released_to, seen_by_release, seen_by_releases, stamp_at};
ghost use Rattle.rex_world.specs.Calls.{CanShow};
ghost use Rattle.rex_world.specs.Members.{IsOwnMember, here_at};

use rex_ballot::Value;
use rex_event::{CLIENTS, Event, Kind};
use rex_list::List;
use rex_log::Past;
use rex_node::Node;
use rex_reads::{Read, Seen};
use rex_report::Effect;
use rex_syntax::checked::Checked;
use rex_traits::{Obedient, Store};
use std::alloc::{AllocError, Global};

/// So many clients that have seen nothing.
pub(crate) fn unseen(alloc: Global, count: usize) -> Result<Vec<Seen>, AllocError>
    ensures { IfOk result (λ seen. seen.items ≡ replicate count 0) }
{
    let mut seen = Vec::new(alloc);
    for _ in 0..count {
        seen.push(Seen::new())?;
    }
    Ok(seen)
}

/// What a client is told that reads a variable at the node and has seen so much.
pub(crate) fn read_at<P: Past, S: Store>(
    node: &Node<Obedient<S>>,
    _agreed: &List<Value>,
    svc: &Checked,
    variable: u16,
    seen: &mut Seen,
) -> Read
    requires member { IsOwnMember svc.now P.past node.now }
    ensures answer { result ≡ reading.read_at svc.now (here_at svc.now P.past node.now) variable seen.old }
    ensures seen { seen.new ≡ seen_after seen.old result }
{
    node.read::<P>(svc, variable, seen)
}

// Where the node released a reply by this effect, its client has seen it.
fn show_one<P: Past, S: Store>(
    node: &Node<Obedient<S>>,
    svc: &Checked,
    effect: &Effect,
    seen: &mut [Seen],
) -> Result<(), AllocError>
    requires { CanShow svc.now P.past node.now seen.old (effect.now ∷ []) }
    ensures { OnOk result (seen.new ≡ seen_by_release (stamp_at (here_at svc.now P.past node.now)) (released_to effect.now) seen.old) }
{
    let _event: Option<(Event, Kind)> = None;
    let Effect::Released { client, .. } = effect else {
        return Ok(());
    };
    // A number that no client has is nowhere kept.
    let place = *client as usize;
    if place >= seen.len() {
        return Ok(());
    }
    let stamp = node.stamp::<P>(svc, *client)?;
    seen[place].raise(stamp);
    Ok(())
}

/// The clients to which the node released replies by these effects have seen them.
pub(crate) fn show<P: Past, S: Store>(
    node: &Node<Obedient<S>>,
    _agreed: &List<Value>,
    svc: &Checked,
    effects: &[Effect],
    seen: &mut [Seen],
) -> Result<(), AllocError>
    requires { CanShow svc.now P.past node.now seen.old effects.now }
    ensures { OnOk result (seen.new ≡ seen_by_releases (stamp_at (here_at svc.now P.past node.now)) effects.now seen.old) }
{
    for effect in effects {
        show_one::<P, S>(node, svc, effect, seen)?;
    }
    Ok(())
}
