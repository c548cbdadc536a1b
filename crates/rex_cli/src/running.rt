//! The top call: an input is read where the command reads one, what is asked for is written, and a status is answered.

ghost use Rattle.std.specs.Prelude.{◌≡◌, ◌≤◌, ◌<◌, ◌+◌, ◌⊎◌, ℕ, Bool, true, false, Some, IsSome, map, IfOk, IfSome, IsErrOf, string_bytes};
ghost use Rattle.rex_traits.specs.Causes.{Rose};
ghost use Rattle.rex_traits.specs.Growth.{ForGrowth, Grows};
ghost use Rattle.rex_traits.specs.Inputs.{IsWholeInput};
ghost use Rattle.rex_traits.specs.declared.reading.TheConstants.{READ_BYTES};
ghost use Rattle.rex_threads.specs.declared.parallelism.TheConstants.{WORKERS};
ghost use Rattle.rex_answer.specs.Outcome.{Gives, Ends};
ghost use Rattle.rex_command.specs.Laws.{Fits};
ghost use Rattle.rex_command.specs.Reading as spec;
ghost use Rattle.rex_command.specs.declared.commands.Command.TheVariants as commands;
ghost use Rattle.rex_cli.specs.Commands as inputs;
ghost use Rattle.rex_cli.specs.Due as due;
ghost use Rattle.rex_cli.specs.Causes.{JudgesFor, IsCaused};
ghost use Rattle.rex_schedule.specs.Fits.{ScenarioFits};
ghost use Rattle.rex_cluster.specs.World.{beginning};
ghost use Rattle.rex_world.specs.Kept.{IsOf, IsRunning};
ghost use Rattle.rex_world.specs.Report.{report_of};
ghost use Rattle.rex_world.specs.World.{world_of};
ghost use Rattle.rex_cli.specs.Response.{IsKept, MayRun, due_of};
ghost use Rattle.rex_cli.specs.Headline.{Committed};
ghost use Rattle.rex_state.specs.Counts.{AreCounted};
ghost use Rattle.rex_state.specs.Machine.{run};
ghost use Rattle.rex_state.specs.Sound.{IsSound};
ghost use Rattle.rex_traits.specs.declared.reading.ReadFault.TheVariants as fault;

use crate::answers::{Plan, Response, response_to, usage};
use crate::worlds::{KeptWorld, begin};
use rex_command::{Command, command_of};
use rex_crew::Crew;
use rex_event::Event;
use rex_replay::{ByCall, ReplayCall, Replayer};
use rex_state::state::State;
use rex_syntax::checked::Checked;
use rex_traits::{Gate, ReadFault, Sink, Source, Store, read_input};
use rex_world::{RunFault, World};
use std::alloc::{AllocError, Global};
use std::thread::Threads;

// Whether a command reads an input.
fn reads_input(command: Command) -> bool
    ensures { result ≡ inputs.reads_input command }
{
    match command {
        Command::Run { .. } => true,
        Command::Trace => true,
        Command::Check => true,
        Command::Generate { .. } => false,
        Command::Soak { .. } => false,
    }
}

// What a command is answered that reads an input.
fn read_and_respond<R: Replayer, S: Source>(
    alloc: Global,
    replayer: &mut R,
    command: Command,
    source: &mut S,
) -> Result<Response, ReadFault>
    requires fits { Fits command }
    requires reads { inputs.reads_input command ≡ true }
    ensures due { IfOk result (λ r. ForGrowth (S.given source.old) (S.given source.new) (λ input. due_of r ≡ due.due_command command input)) }
    ensures judges { IfOk result (λ r. ForGrowth (S.given source.old) (S.given source.new) (λ input. JudgesFor (Some command) input (due_of r).status)) }
    ensures grows { Grows (S.given source.old) (S.given source.new) }
    ensures whole { IfOk result (λ _. ForGrowth (S.given source.old) (S.given source.new)
        (IsWholeInput (S.ended source.new) (S.left source.old) (S.left source.new))) }
    ensures headline { (workers : ℕ) (journal : Bool) → command ≡ commands.Run workers journal
        → IfOk result (λ r. (due_of r).status ≡ 0 → ForGrowth (S.given source.old) (S.given source.new) Committed) }
    ensures low { IfOk result (λ r. (due_of r).status < 4) }
    ensures fits { IfOk result MayRun }
    ensures kept { IfOk result (IsKept (inputs.keeps_journals command)) }
    ensures later { S.faults source.old ≤ S.faults source.new }
    ensures reads { S.calls source.new ≤ S.calls source.old + READ_BYTES }
    ensures failed { IsErrOf result fault.Failed → Rose (S.faults source.old) (S.faults source.new) }
{
    match read_input(alloc, source) {
        Ok(input) => match response_to(alloc, replayer, command, &input.bytes) {
            Ok(response) => Ok(response),
            Err(_) => Err(ReadFault::OutOfMemory),
        },
        Err(fault) => Err(fault),
    }
}

// What is answered; an input is read where the command reads one.
fn respond<R: Replayer, S: Source>(
    alloc: Global,
    replayer: &mut R,
    command: Option<Command>,
    source: &mut S,
) -> Result<Response, ReadFault>
    requires fits { IfSome command Fits }
    ensures due { IfOk result (λ r. ForGrowth (S.given source.old) (S.given source.new) (λ input. due_of r ≡ due.due_for command input)) }
    ensures judges { IfOk result (λ r. ForGrowth (S.given source.old) (S.given source.new) (λ input. JudgesFor command input (due_of r).status)) }
    ensures grows { Grows (S.given source.old) (S.given source.new) }
    ensures whole { inputs.reads command ≡ true → IfOk result (λ _. ForGrowth (S.given source.old) (S.given source.new)
        (IsWholeInput (S.ended source.new) (S.left source.old) (S.left source.new))) }
    ensures unread { inputs.reads command ≡ false → (source.new ≡ source.old) × (IsErrOf result fault.Failed → ⊥) }
    ensures headline { (workers : ℕ) (journal : Bool) → command ≡ Some (commands.Run workers journal)
        → IfOk result (λ r. (due_of r).status ≡ 0 → ForGrowth (S.given source.old) (S.given source.new) Committed) }
    ensures low { IfOk result (λ r. (due_of r).status < 4) }
    ensures fits { IfOk result MayRun }
    ensures kept { IfOk result (IsKept (inputs.keeps_journals_for command)) }
    ensures later { S.faults source.old ≤ S.faults source.new }
    ensures reads { S.calls source.new ≤ S.calls source.old + READ_BYTES }
    ensures failed { IsErrOf result fault.Failed → Rose (S.faults source.old) (S.faults source.new) }
{
    let Some(command) = command else {
        return match usage(alloc) {
            Ok(answer) => Ok(Response::Told(answer)),
            Err(_) => Err(ReadFault::OutOfMemory),
        };
    };
    if reads_input(command) {
        return read_and_respond(alloc, replayer, command, source);
    }
    match response_to(alloc, replayer, command, &[]) {
        Ok(response) => Ok(response),
        Err(_) => Err(ReadFault::OutOfMemory),
    }
}

// Runs a plan from its world before the first line, and answers the status.
fn run_world<T: Store, R: Replayer, K: Sink>(
    mut world: World<T>,
    replayer: &mut R,
    plan: &Plan,
    sink: &mut K,
) -> u8
    requires fits { ScenarioFits plan.now.service plan.now.scenario }
    requires running { IsRunning plan.now.service world }
    requires of { IsOf plan.now.scenario world }
    requires begins { world_of plan.now.service world ≡ beginning plan.now.scenario.nodes }
    ensures gives { Gives (record { status = 0; text = report_of plan.now.service plan.now.scenario }) (K.taken sink.old) (K.taken sink.new) result }
    ensures ends { Ends (record { status = 0; text = report_of plan.now.service plan.now.scenario }) (K.faults sink.old) (K.faults sink.new) result }
{
    match world.run(&plan.service, replayer, &plan.scenario, sink) {
        Ok(()) => 0,
        Err(RunFault::Failed) => 5,
        Err(RunFault::OutOfMemory) => 6,
    }
}

// Runs a plan, and answers the status.
fn run_plan<R: Replayer, K: Sink>(alloc: Global, replayer: &mut R, plan: &Plan, sink: &mut K) -> u8
    requires fits { ScenarioFits plan.now.service plan.now.scenario }
    ensures gives { Gives (record { status = 0; text = report_of plan.now.service plan.now.scenario }) (K.taken sink.old) (K.taken sink.new) result }
    ensures ends { Ends (record { status = 0; text = report_of plan.now.service plan.now.scenario }) (K.faults sink.old) (K.faults sink.new) result }
{
    match begin(alloc, plan) {
        Ok(KeptWorld::Lists(world)) => run_world(world, replayer, plan, sink),
        Ok(KeptWorld::Journals(world)) => run_world(world, replayer, plan, sink),
        Err(_) => 6,
    }
}

// Gives what was asked for.
fn give<R: Replayer, K: Sink>(
    alloc: Global,
    replayer: &mut R,
    response: &Response,
    sink: &mut K,
) -> u8
    requires fits { MayRun response.now }
    requires low { (due_of response.now).status < 4 }
    ensures gives { Gives (due_of response.now) (K.taken sink.old) (K.taken sink.new) result }
    ensures ends { Ends (due_of response.now) (K.faults sink.old) (K.faults sink.new) result }
{
    match response {
        Response::Told(answer) => answer.give(sink),
        Response::Run(plan) => run_plan(alloc, replayer, plan, sink),
    }
}

// Does what a command asks for, and replays by a call. The clauses are those of `rex_main`.
fn obey<C: ReplayCall + Drop, S: Source, K: Sink>(
    alloc: Global,
    call: C,
    command: Option<Command>,
    source: &mut S,
    sink: &mut K,
) -> u8
    requires replays { C.replays call }
    requires fits { IfSome command Fits }
    ensures run { ForGrowth (S.given source.old) (S.given source.new) (λ input. Gives (due.due_for command input) (K.taken sink.old)
        (K.taken sink.new) result) }
    ensures causes { result < 4 → ForGrowth (S.given source.old) (S.given source.new) (λ input. IsCaused command input result) }
    ensures grows { Grows (S.given source.old) (S.given source.new) }
    ensures whole { inputs.reads command ≡ true → result < 4 → ForGrowth (S.given source.old) (S.given source.new)
        (IsWholeInput (S.ended source.new) (S.left source.old) (S.left source.new)) }
    ensures unread { inputs.reads command ≡ false → (source.new ≡ source.old) × (result ≡ 4 → ⊥) }
    ensures reads { S.calls source.new ≤ S.calls source.old + READ_BYTES }
    ensures read_fault { result ≡ 4 → Rose (S.faults source.old) (S.faults source.new) }
    ensures write_fault { result ≡ 5 → Rose (K.faults sink.old) (K.faults sink.new) }
    ensures known { result ≤ 6 }
    ensures complete { ForGrowth (S.given source.old) (S.given source.new) (λ input. (due.due_for command input).status ≡ 0
        → (Rose (S.faults source.old) (S.faults source.new) → ⊥) → (Rose (K.faults sink.old) (K.faults sink.new) → ⊥)
        → (result ≡ 0) ⊎ (result ≡ 6)) }
    ensures headline { (workers : ℕ) (journal : Bool) → command ≡ Some (commands.Run workers journal) → result ≡ 0
        → ForGrowth (S.given source.old) (S.given source.new) Committed }
{
    let mut replayer = ByCall::new(call);
    match respond(alloc, &mut replayer, command, source) {
        Ok(response) => give(alloc, &mut replayer, &response, sink),
        Err(ReadFault::Failed) => 4,
        Err(ReadFault::OutOfMemory) => 6,
    }
}

// How many workers replay.
fn workers_for(command: Option<Command>) -> u8
    requires { IfSome command Fits }
    ensures number { result ≡ inputs.workers_for command }
    ensures few { (0 < result) × (result ≤ WORKERS) }
{
    match command {
        Some(Command::Run { workers, .. }) => workers,
        Some(Command::Soak { workers, .. }) => workers,
        _ => 1,
    }
}

// The crew that replays in a command's run.
fn crew_for<'r, R: Threads + Sync, G: Gate + Sync>(
    rt: &'r R,
    command: Option<Command>,
    gate: &'r G,
) -> Crew<'r, R, G>
    requires { IfSome command Fits }
    ensures { result.workers ≡ inputs.workers_for command }
{
    Crew::new(rt, workers_for(command), gate)
}

/// Does all that the program `rex` does, and answers its status: 0 where all output was written; 1 where the input is no
/// scenario or, for `check`, no service; 2 where the words are no command line; 3 where the service isn't checked; 4
/// where a read failed, and nothing was written; 5 where a write failed; 6 for want of memory. After 5 and 6 a front of
/// the output was written. The words begin with the program's name. The runtime gives the threads on which `run` and
/// `soak` replay, and each of them passes the gate before it tries an event.
pub fn rex_main<R: Threads + Sync, S: Source, K: Sink, G: Gate + Sync>(
    rt: &R,
    alloc: Global,
    words: &[String],
    source: &mut S,
    sink: &mut K,
    gate: &G,
) -> u8
    // Below 4 the status and the bytes that the sink took are what the words ask for of the bytes that the source gave in this call,
    // however many workers replay, and whether the nodes keep their records in journals or not. At 4 the sink took none, and
    // above it a front of those.
    ensures run { ForGrowth (S.given source.old) (S.given source.new) (λ input. Gives (due.due (map string_bytes words.now) input) (K.taken sink.old)
        (K.taken sink.new) result) }

    // Below 4 it is 1 exactly where those bytes are no scenario or no service, 2 exactly where the words are no command
    // line, and 3 exactly where the service isn't checked.
    ensures causes { result < 4 → ForGrowth (S.given source.old) (S.given source.new)
        (λ input. IsCaused (spec.command_of (map string_bytes words.now)) input result) }

    // There are such bytes: those that the source gave before stay where they were.
    ensures grows { Grows (S.given source.old) (S.given source.new) }

    // Below 4, where an input is read, those bytes are a whole input: the source has ended, or gave 4,194,305 bytes; and of what
    // a source in memory had none is left then.
    ensures whole { inputs.reads (spec.command_of (map string_bytes words.now)) ≡ true → result < 4
        → ForGrowth (S.given source.old) (S.given source.new) (IsWholeInput (S.ended source.new) (S.left source.old) (S.left source.new)) }

    // Where none is read, the source stays as it was, and no read fails.
    ensures unread { inputs.reads (spec.command_of (map string_bytes words.now)) ≡ false → (source.new ≡ source.old) × (result ≡ 4 → ⊥) }

    // At most 4,194,305 reads are made.
    ensures reads { S.calls source.new ≤ S.calls source.old + READ_BYTES }

    // A fault is answered only where it was counted.
    ensures read_fault { result ≡ 4 → Rose (S.faults source.old) (S.faults source.new) }
    ensures write_fault { result ≡ 5 → Rose (K.faults sink.old) (K.faults sink.new) }
    ensures known { result ≤ 6 }

    // Where 0 is due and no fault was counted, the status is 0, or want of memory.
    ensures complete { ForGrowth (S.given source.old) (S.given source.new) (λ input. (due.due (map string_bytes words.now) input).status ≡ 0
        → (Rose (S.faults source.old) (S.faults source.new) → ⊥) → (Rose (K.faults sink.old) (K.faults sink.new) → ⊥)
        → (result ≡ 0) ⊎ (result ≡ 6)) }

    // At 0 the run that the report tells of keeps its agreed trace, and what it has released.
    ensures headline { (workers : ℕ) (journal : Bool) → spec.command_of (map string_bytes words.now) ≡ Some (commands.Run workers journal)
        → result ≡ 0 → ForGrowth (S.given source.old) (S.given source.new) Committed }
{
    match command_of(alloc, words) {
        Ok(command) => {
            let crew = crew_for(rt, command, gate);
            let call = |alloc: Global, svc: &Checked, from: &State, events: &[Event]| -> Result<
                State,
                AllocError,
            >
                requires sound { IsSound svc.now from.now }
                requires runs { IsSome (run svc.now from.now events.now) }
                requires counted { AreCounted events.now }
                ensures runs { IfOk result (λ s. run svc.now from.now events.now ≡ Some s) }
                ensures sound { IfOk result (λ s. IsSound svc.now s) }
            { crew.replay(alloc, svc, from, events) };
            obey(alloc, call, command, source, sink)
        }
        Err(_) => 6,
    }
}
