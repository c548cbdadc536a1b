//! The history that a service's lanes make.

ghost use Rattle.std.specs.Prelude.{◌≡◌, ◌<◌, IfOk};
ghost use Rattle.rex_live.specs.Floor.{IsHistory, dice_of};
ghost use Rattle.rex_words.specs.Dealing.{CanRecord};
ghost use Rattle.rexlive_cli.specs.Recording.{IsHistoryBy};
ghost use Rattle.rexlive_cli.specs.declared.recording.Recording.TheVariants.{Words};

use crate::recording::Recording;
use rex_event::Event;
use rex_list::List;
use rex_live::{Floor, Setting, run_lanes};
use rex_syntax::checked::Checked;
use rex_syntax::request::Request;
use rex_traits::Gate;
use rex_words::run_words;
use std::alloc::{AllocError, Global};
use std::marker::Brand;
use std::sync::Wait;
use std::sync::ledger::Blank;
use std::thread::Threads;

// The history that lanes make on a floor of a setting.
fn play<S: Setting + Send + Sync, R: Threads + Sync, W: Wait + Sync, G: Gate + Sync>(
    rt: &R,
    wait: &W,
    alloc: Global,
    blank: Blank,
    svc: &Checked,
    requests: &[Request],
    seed: u64,
    gate: &G,
) -> Result<List<Event>, AllocError>
    requires name { blank.name ≡ S.name }
    requires parts { blank.parts ≡ S.parts }
    requires lanes { svc.now.lanes < blank.parts }
    requires service { svc.now ≡ S.service }
    requires requests { requests.now ≡ S.requests }
    requires dice { dice_of seed ≡ S.dice }
    ensures { IfOk result (IsHistory S.service S.requests S.dice) }
{
    let mut floor = Floor::<S>::new(alloc, blank, svc, requests, seed)?;
    run_lanes(rt, wait, alloc, svc, &mut floor, gate)
}

// The history that a service's lanes make of requests on a floor, each lane a thread, until none can go on. Random numbers are
// drawn with this seed.
fn history<R: Threads + Sync, W: Wait + Sync, G: Gate + Sync>(
    rt: &R,
    wait: &W,
    alloc: Global,
    svc: &Checked,
    requests: &[Request],
    seed: u64,
    gate: &G,
) -> Result<List<Event>, AllocError>
    ensures { IfOk result (IsHistory svc.now requests.now (dice_of seed)) }
{
    let parts = svc.declarations().lanes as u64 + 1;
    play::<Brand, R, W, G>(
        rt,
        wait,
        alloc,
        Blank::new(parts),
        svc,
        requests,
        seed,
        gate,
    )
}

/// The history that a service's lanes record of requests, each lane a thread. Random numbers are drawn with this seed.
pub(crate) fn history_by<R: Threads + Sync, W: Wait + Sync, G: Gate + Sync>(
    rt: &R,
    wait: &W,
    alloc: Global,
    recording: Recording,
    svc: &Checked,
    requests: &[Request],
    seed: u64,
    gate: &G,
) -> Result<List<Event>, AllocError>
    requires { recording ≡ Words → CanRecord svc.now requests.now }
    ensures { IfOk result (IsHistoryBy recording svc.now requests.now seed) }
{
    match recording {
        Recording::Floor => history(rt, wait, alloc, svc, requests, seed, gate),
        Recording::Words => run_words(rt, wait, alloc, svc, requests, seed, gate),
    }
}
