//! What an input is answered.

ghost use Rattle.std.specs.Prelude.{◌≡◌, ◌<◌, ◌≤◌, Some, None, IfOk, IsSome, length};
ghost use Rattle.std.specs.List.{All};
ghost use Rattle.rex_delta.specs.Spelling.{HasTypedKind};
ghost use Rattle.rex_state.specs.Counts.{AreCounted};
ghost use Rattle.rex_state.specs.Machine.{run};
ghost use Rattle.rex_state.specs.Sound.{IsSound};
ghost use Rattle.rex_state.specs.Start.{start_of};
ghost use Rattle.rex_cluster.specs.Takes.{BeginsInRange};
ghost use Rattle.rex_lead.specs.Lead.{blocks_of, live_text};
ghost use Rattle.rex_lockset.specs.Refusal.{refusal_of as refusal};
ghost use Rattle.rex_scenario.specs.Beyond.{IsPlain, beyond_words};
ghost use Rattle.rex_schedule.specs.Fits.{ScenarioFits};
ghost use Rattle.rex_traits.specs.declared.reading.TheConstants.{READ_BYTES};
ghost use Rattle.rex_answer.specs.Causes.{Judges};
ghost use Rattle.rexlive_cli.specs.declared.recording.Recording.TheVariants.{Words};
ghost use Rattle.rexlive_cli.specs.Due as due;
ghost use Rattle.rexlive_cli.specs.Outcome.{played_service, unless_beyond};

use crate::histories::history_by;
use crate::recording::Recording;
use rex_answer::{Answer, refused, scenario_code, unchecked};
use rex_crew::Crew;
use rex_event::{Event, HISTORY_EVENTS};
use rex_lead::laws::histories_are_led;
use rex_lead::lead;
use rex_live::laws::{events_are_told, histories_run};
use rex_replay::{ByCall, ReplayCall};
use rex_scenario::{Scenario, ScenarioError, read_unscheduled};
use rex_state::state::State;
use rex_syntax::checked::Checked;
use rex_syntax::service::Service;
use rex_threads::{WORKERS, processors};
use rex_traits::{Gate, OpenGate};
use std::alloc::{AllocError, Global};
use std::sync::Wait;
use std::thread::Threads;

/// What words are answered that are no command line.
pub(crate) fn usage(alloc: Global) -> Result<Answer, AllocError>
    ensures { IfOk result (λ a. a ≡ due.due_usage) }
{
    let text = Vec::from_slice(alloc, b"usage: rexlive [--words]\n")?;
    Ok(Answer { status: 2, text })
}

// What nodes agree on that are led through a history, and what they came to. A call finds to which states its events lead.
fn lead_by_call<R: Threads + Sync, C: ReplayCall + Send + Drop>(
    rt: &R,
    alloc: Global,
    svc: &Checked,
    scenario: &Scenario,
    call: C,
    history: &[Event],
) -> Result<Vec<u8>, AllocError>
    requires replays { C.replays call }
    requires fits { ScenarioFits svc.now scenario.now }
    requires few { length history.now ≤ 268431360 }
    requires begins { All BeginsInRange history.now }
    requires runs { IsSome (run svc.now (start_of svc.now) history.now) }
    ensures text { IfOk result (λ text. text.items ≡ live_text svc.now scenario.now (blocks_of history.now)) }
    ensures typed { IfOk result (λ text. All HasTypedKind history.now) }
{
    lead(rt, alloc, svc, scenario, ByCall::new(call), history)
}

// What nodes agree on that are led through a history, and what they came to. A crew finds to which states its events lead.
fn lead_by_crew<R: Threads + Sync>(
    rt: &R,
    alloc: Global,
    recording: Recording,
    svc: &Checked,
    scenario: &Scenario,
    history: &[Event],
) -> Result<Vec<u8>, AllocError>
    requires fits { ScenarioFits svc.now scenario.now }
    requires few { length history.now ≤ HISTORY_EVENTS }
    requires begins { All BeginsInRange history.now }
    requires runs { IsSome (run svc.now (start_of svc.now) history.now) }
    ensures text { IfOk result (λ text. text.items ≡ live_text svc.now scenario.now (blocks_of history.now)) }
    ensures typed { IfOk result (λ text. All HasTypedKind history.now) }
{
    let gate = OpenGate;
    let crew = Crew::new(rt, workers_for(rt, recording, svc), &gate);
    let call = |alloc: Global, svc: &Checked, from: &State, events: &[Event]| -> Result<
        State,
        AllocError,
    >
        requires sound { IsSound svc.now from.now }
        requires runs { IsSome (run svc.now from.now events.now) }
        requires counted { AreCounted events.now }
        ensures runs { IfOk result (λ s. run svc.now from.now events.now ≡ Some s) }
        ensures sound { IfOk result (λ s. IsSound svc.now s) }
    { crew.replay(alloc, svc, from, events) };
    lead_by_call(rt, alloc, svc, scenario, call, history)
}

// So many workers replay what the lanes of a service did. On a floor most events come after one of another lane, and workers would
// wait for each other; lanes that record by lock words seldom meet.
fn workers_for<R: Threads>(rt: &R, recording: Recording, svc: &Checked) -> u8
    ensures { (0 < result) × (result ≤ WORKERS) }
{
    match recording {
        Recording::Floor => 1,
        Recording::Words => svc
            .declarations()
            .lanes
            .min(processors(rt).min(WORKERS as usize) as u8),
    }
}

// What a scenario is answered whose service is checked: its lanes record a history, which is led to agreement.
fn play_scenario<R: Threads + Sync, W: Wait + Sync, G: Gate + Sync>(
    rt: &R,
    wait: &W,
    alloc: Global,
    recording: Recording,
    svc: &Checked,
    scenario: &Scenario,
    gate: &G,
) -> Result<Answer, AllocError>
    requires fits { ScenarioFits svc.now scenario.now }
    requires plain { recording ≡ Words → IsPlain svc.now }
    ensures { IfOk result (due.IsPlayed recording svc.now scenario.now) }
{
    histories_run();
    events_are_told();
    histories_are_led();
    let _service = svc.declarations();
    let requests = scenario.requests.as_slice();
    let seed = scenario.seed as u64;
    let events = history_by(rt, wait, alloc, recording, svc, requests, seed, gate)?;
    let text = lead_by_crew(rt, alloc, recording, svc, scenario, events.as_slice())?;
    Ok(Answer { status: 0, text })
}

// What a scenario is answered whose lanes can record so.
fn answer_service<R: Threads + Sync, W: Wait + Sync, G: Gate + Sync>(
    rt: &R,
    wait: &W,
    alloc: Global,
    recording: Recording,
    scenario: &Scenario,
    service: Service,
    gate: &G,
) -> Result<Answer, AllocError>
    requires fits { ScenarioFits service scenario.now }
    requires plain { recording ≡ Words → IsPlain service }
    ensures due { IfOk result (due.IsDueTo recording scenario.now service (refusal service)) }
    ensures judges { IfOk result (λ a. Judges (Some service) a.status) }
{
    if let Some(answer) = unchecked(alloc, service.declarations())? {
        return Ok(answer);
    }
    let service = Checked::of(service);
    let _service = service.declarations();
    play_scenario(rt, wait, alloc, recording, &service, scenario, gate)
}

// The line of a scenario that its lanes can't record so.
fn line_beyond(recording: Recording, scenario: &Scenario) -> Option<u32>
    ensures line { result ≡ due.line_beyond recording scenario.now.beyond }
    ensures words { result ≡ None → recording ≡ Words → scenario.now.beyond ≡ None }
{
    match recording {
        Recording::Floor => None,
        Recording::Words => scenario.beyond_words(),
    }
}

// What a scenario is answered.
fn answer_scenario<R: Threads + Sync, W: Wait + Sync, G: Gate + Sync>(
    rt: &R,
    wait: &W,
    alloc: Global,
    recording: Recording,
    scenario: &Scenario,
    service: Service,
    gate: &G,
) -> Result<Answer, AllocError>
    requires fits { ScenarioFits service scenario.now }
    requires plain { scenario.now.beyond ≡ None → IsPlain service }
    ensures due { IfOk result (due.IsDueAt recording scenario.now service (due.line_beyond recording scenario.now.beyond)) }
    ensures judges { IfOk result (λ a. Judges (unless_beyond service (due.line_beyond recording scenario.now.beyond)) a.status) }
{
    match line_beyond(recording, scenario) {
        Some(line) => refused(alloc, line, b"W1"),
        None => answer_service(rt, wait, alloc, recording, scenario, service, gate),
    }
}

/// What an input is answered, whose lanes are to record so.
pub(crate) fn answer_input<R: Threads + Sync, W: Wait + Sync, G: Gate + Sync>(
    rt: &R,
    wait: &W,
    alloc: Global,
    recording: Recording,
    input: &[u8],
    gate: &G,
) -> Result<Answer, AllocError>
    requires { length input.now ≤ READ_BYTES }
    ensures due { IfOk result (due.IsDue recording input.now) }
    ensures judges { IfOk result (λ a. Judges (played_service recording input.now) a.status) }
{
    match read_unscheduled(alloc, input) {
        Ok((scenario, service)) => {
            answer_scenario(rt, wait, alloc, recording, &scenario, service, gate)
        }
        Err(ScenarioError::Refused { line, code }) => refused(alloc, line, scenario_code(code)),
        Err(ScenarioError::OutOfMemory) => Err(AllocError),
    }
}
