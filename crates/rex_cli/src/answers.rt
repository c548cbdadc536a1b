//! What an input is answered.

ghost use Rattle.std.specs.Prelude.{◌≡◌, ◌≤◌, ◌++◌, ℕ, Bool, false, Some, IfOk, OnOk, length};
ghost use Rattle.rex_syntax.specs.Service.{IsService};
ghost use Rattle.rex_lockset.specs.Refusal.{refusal_of as refusal};
ghost use Rattle.rex_schedule.specs.Fits.{ScenarioFits};
ghost use Rattle.rex_schedule.specs.Typed.{ScenarioIsTyped};
ghost use Rattle.rex_traits.specs.declared.reading.TheConstants.{READ_BYTES};
ghost use Rattle.rex_answer.specs.Causes.{Judges};
ghost use Rattle.rex_report.specs.Pieces.{spaced};
ghost use Rattle.rex_cli.specs.Due as due;
ghost use Rattle.rex_cli.specs.Causes.{JudgesCommand, service_in};
ghost use Rattle.rex_cli.specs.Headline.{Committed, IsCommitted};
ghost use Rattle.rex_cli.specs.Commands.{keeps_journals};
ghost use Rattle.rex_cli.specs.Response.{IsKept, MayRun, due_of};
ghost use Rattle.rex_command.specs.Laws.{Fits};
ghost use Rattle.rex_command.specs.declared.commands.Command.TheVariants as commands;

use crate::generated::{generate, soak};
use rex_answer::{Answer, refused, scenario_code, service_code, unchecked};
use rex_command::Command;
use rex_parse::{ReadError, read_service};
use rex_replay::{OneThread, Replayer};
use rex_report::{Piece, push_pieces};
use rex_scenario::{SCENARIO_BYTES, Scenario, ScenarioCode, ScenarioError, read_scenario};
use rex_syntax::checked::Checked;
use rex_syntax::service::{Declarations, Service};
use rex_traits::READ_BYTES;
use rex_world::laws::{headline_holds, runs_stay_faithful};
use rex_world::trace;
use std::alloc::{AllocError, Global};

// What is read of an input is enough to tell one that is too long.
const _: () = prove!(READ_BYTES == SCENARIO_BYTES + 1);

/// A scenario, its checked service, and whether its nodes keep their records in journals or in lists.
#[derive(Drop)]
pub(crate) struct Plan {
    pub(crate) scenario: Scenario,
    pub(crate) service: Checked,
    pub(crate) in_journals: bool,
}

/// What words and an input ask for: a text that is written before the program ends with its status, or a run, whose report
/// is written as it goes.
#[derive(Drop)]
pub(crate) enum Response {
    Told(Answer),
    Run(Plan),
}

/// What words are answered that are no command line.
pub(crate) fn usage(alloc: Global) -> Result<Answer, AllocError>
    ensures { IfOk result (λ a. a ≡ due.due_usage) }
{
    let text = Vec::from_slice(alloc, b"usage: rex run|trace|check|gen|soak\n")?;
    Ok(Answer { status: 2, text })
}

// What a scenario asks for.
fn run_scenario(
    alloc: Global,
    scenario: Scenario,
    service: Service,
    in_journals: bool,
) -> Result<Response, AllocError>
    requires fits { ScenarioFits service scenario }
    requires typed { ScenarioIsTyped service scenario }
    ensures due { IfOk result (λ r. due_of r ≡ due.due_report scenario service (refusal service)) }
    ensures judges { IfOk result (λ r. Judges (Some service) (due_of r).status) }
    ensures headline { IfOk result (λ r. (due_of r).status ≡ 0 → IsCommitted service scenario) }
    ensures fits { IfOk result MayRun }
    ensures kept { IfOk result (IsKept in_journals) }
{
    headline_holds();
    runs_stay_faithful();
    if let Some(answer) = unchecked(alloc, service.declarations())? {
        return Ok(Response::Told(answer));
    }
    let service = Checked::of(service);
    let _service = service.declarations();
    Ok(Response::Run(Plan {
        scenario,
        service,
        in_journals,
    }))
}

// What a scenario is answered that asks for its agreed trace.
fn trace_scenario(alloc: Global, scenario: Scenario, service: Service) -> Result<Answer, AllocError>
    requires { ScenarioFits service scenario }
    ensures due { IfOk result (λ a. a ≡ due.due_agreed scenario service (refusal service)) }
    ensures judges { IfOk result (λ a. Judges (Some service) a.status) }
{
    if let Some(answer) = unchecked(alloc, service.declarations())? {
        return Ok(answer);
    }
    let service = Checked::of(service);
    let _service = service.declarations();
    let text = trace(alloc, &service, &mut OneThread, &scenario)?;
    Ok(Answer { status: 0, text })
}

// What `trace` answers.
fn trace_input(alloc: Global, input: &[u8]) -> Result<Answer, AllocError>
    requires { length input.now ≤ READ_BYTES }
    ensures due { IfOk result (λ a. a ≡ due.due_command commands.Trace input.now) }
    ensures judges { IfOk result (λ a. Judges (service_in commands.Trace input.now) a.status) }
{
    match read_scenario(alloc, input) {
        Ok((scenario, service)) => trace_scenario(alloc, scenario, service),
        Err(ScenarioError::Refused { line, code }) => refused(alloc, line, scenario_code(code)),
        Err(ScenarioError::OutOfMemory) => Err(AllocError),
    }
}

// What `run` asks for.
fn run_input(alloc: Global, input: &[u8], in_journals: bool) -> Result<Response, AllocError>
    requires { length input.now ≤ READ_BYTES }
    ensures due { IfOk result (λ r. due_of r ≡ due.due_command (commands.Run 1 false) input.now) }
    ensures judges { IfOk result (λ r. Judges (service_in (commands.Run 1 false) input.now) (due_of r).status) }
    ensures headline { IfOk result (λ r. (due_of r).status ≡ 0 → Committed input.now) }
    ensures fits { IfOk result MayRun }
    ensures kept { IfOk result (IsKept in_journals) }
{
    match read_scenario(alloc, input) {
        Ok((scenario, service)) => run_scenario(alloc, scenario, service, in_journals),
        Err(ScenarioError::Refused { line, code }) => {
            let answer = refused(alloc, line, scenario_code(code))?;
            Ok(Response::Told(answer))
        }
        Err(ScenarioError::OutOfMemory) => Err(AllocError),
    }
}

// Appends how many semaphores a service declares, where there are some.
fn push_semaphore_count(out: &mut Vec<u8>, count: usize) -> Result<(), AllocError>
    ensures { OnOk result (out.new.items ≡ out.old.items ++ spaced (due.semaphores_counted count)) }
{
    if count == 0 {
        return Ok(());
    }
    push_pieces(
        out,
        &[Piece::Word(b"semaphores"), Piece::Number(count as u64)],
    )
}

// How many handlers, locks, conditions, variables and semaphores a service declares.
fn counts(alloc: Global, service: &Declarations) -> Result<Vec<u8>, AllocError>
    ensures { IfOk result (λ text. text.items ≡ due.counts_line service.now) }
{
    let mut text = Vec::from_slice(alloc, b"checked")?;
    push_pieces(
        &mut text,
        &[
            Piece::Word(b"handlers"),
            Piece::Number(service.handlers.len() as u64),
            Piece::Word(b"locks"),
            Piece::Number(service.locks.len() as u64),
            Piece::Word(b"conditions"),
            Piece::Number(service.conditions.len() as u64),
            Piece::Word(b"variables"),
            Piece::Number(service.variables.len() as u64),
        ],
    )?;
    push_semaphore_count(&mut text, service.semaphores.len())?;
    text.push(b'\n')?;
    Ok(text)
}

// What a service is answered.
fn check_service(alloc: Global, service: &Declarations) -> Result<Answer, AllocError>
    requires { IsService service.now }
    ensures due { IfOk result (λ a. a ≡ due.due_counts service.now (refusal service.now)) }
    ensures judges { IfOk result (λ a. Judges (Some service.now) a.status) }
{
    if let Some(answer) = unchecked(alloc, service)? {
        return Ok(answer);
    }
    let text = counts(alloc, service)?;
    Ok(Answer { status: 0, text })
}

// What `check` answers.
fn check_input(alloc: Global, input: &[u8]) -> Result<Answer, AllocError>
    requires { length input.now ≤ READ_BYTES }
    ensures due { IfOk result (λ a. a ≡ due.due_command commands.Check input.now) }
    ensures judges { IfOk result (λ a. Judges (service_in commands.Check input.now) a.status) }
{
    if input.len() > SCENARIO_BYTES {
        return refused(alloc, 0, scenario_code(ScenarioCode::TooLong));
    }
    match read_service(alloc, input) {
        Ok(service) => check_service(alloc, service.declarations()),
        Err(ReadError::Refused { line, code }) => refused(alloc, line, service_code(code)),
        Err(ReadError::OutOfMemory) => Err(AllocError),
    }
}

/// What a command asks for, given an input.
pub(crate) fn response_to<R: Replayer>(
    alloc: Global,
    replayer: &mut R,
    command: Command,
    input: &[u8],
) -> Result<Response, AllocError>
    requires long { length input.now ≤ READ_BYTES }
    requires fits { Fits command }
    ensures due { IfOk result (λ r. due_of r ≡ due.due_command command input.now) }
    ensures judges { IfOk result (λ r. JudgesCommand command input.now (due_of r).status) }
    ensures headline { (workers : ℕ) (journal : Bool) → command ≡ commands.Run workers journal
        → IfOk result (λ r. (due_of r).status ≡ 0 → Committed input.now) }
    ensures fits { IfOk result MayRun }
    ensures kept { IfOk result (IsKept (keeps_journals command)) }
{
    let answer = match command {
        Command::Run { journal, .. } => return run_input(alloc, input, journal),
        Command::Trace => trace_input(alloc, input)?,
        Command::Check => check_input(alloc, input)?,
        Command::Generate { seed, size } => generate(alloc, seed, size)?,
        Command::Soak { seed, size, .. } => soak(alloc, replayer, seed, size)?,
    };
    Ok(Response::Told(answer))
}
