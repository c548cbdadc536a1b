//! The top call.

ghost use Rattle.std.specs.Prelude.{◌≡◌, ◌≤◌, ◌<◌, ◌+◌, ◌⊎◌, IfOk, IsErrOf, IsSome, Some, None, map, string_bytes};
ghost use Rattle.rex_traits.specs.Causes.{Rose};
ghost use Rattle.rex_traits.specs.Growth.{ForGrowth, Grows};
ghost use Rattle.rex_traits.specs.Inputs.{IsWholeInput};
ghost use Rattle.rex_traits.specs.declared.reading.ReadFault.TheVariants as fault;
ghost use Rattle.rex_traits.specs.declared.reading.TheConstants.{READ_BYTES};
ghost use Rattle.rex_answer.specs.Causes.{Judges};
ghost use Rattle.rexlive_cli.specs.Due as due;
ghost use Rattle.rexlive_cli.specs.Outcome.{GivesSome, IsCaused, IsPlayable, played_service};
ghost use Rattle.rexlive_cli.specs.Recording as spec;

use crate::answers::{answer_input, usage};
use crate::recording::{Recording, recording_of};
use rex_answer::Answer;
use rex_traits::{Gate, ReadFault, Sink, Source, read_input};
use std::alloc::Global;
use std::sync::Wait;
use std::thread::Threads;

// What the input of a source is answered.
fn read_and_answer<R: Threads + Sync, W: Wait + Sync, S: Source, G: Gate + Sync>(
    rt: &R,
    wait: &W,
    alloc: Global,
    recording: Recording,
    source: &mut S,
    gate: &G,
) -> Result<Answer, ReadFault>
    ensures due { IfOk result (λ a. ForGrowth (S.given source.old) (S.given source.new) (λ input. due.IsDue recording input a)) }
    ensures judges { IfOk result (λ a. ForGrowth (S.given source.old) (S.given source.new) (λ input. Judges (played_service recording input) a.status)) }
    ensures grows { Grows (S.given source.old) (S.given source.new) }
    ensures whole { IfOk result (λ _. ForGrowth (S.given source.old) (S.given source.new)
        (IsWholeInput (S.ended source.new) (S.left source.old) (S.left source.new))) }
    ensures low { IfOk result (λ a. a.status < 4) }
    ensures later { S.faults source.old ≤ S.faults source.new }
    ensures reads { S.calls source.new ≤ S.calls source.old + READ_BYTES }
    ensures failed { IsErrOf result fault.Failed → Rose (S.faults source.old) (S.faults source.new) }
{
    match read_input(alloc, source) {
        Ok(input) => match answer_input(rt, wait, alloc, recording, &input.bytes, gate) {
            Ok(answer) => Ok(answer),
            Err(_) => Err(ReadFault::OutOfMemory),
        },
        Err(fault) => Err(fault),
    }
}

// Plays the scenario that a source gives, and answers the status. The clauses are those of `live_main`.
fn play_input<R: Threads + Sync, W: Wait + Sync, S: Source, K: Sink, G: Gate + Sync>(
    rt: &R,
    wait: &W,
    alloc: Global,
    recording: Recording,
    source: &mut S,
    sink: &mut K,
    gate: &G,
) -> u8
    ensures run { ForGrowth (S.given source.old) (S.given source.new) (λ input. GivesSome (due.IsDueFor (Some recording) input) (K.taken sink.old)
        (K.taken sink.new) result) }
    ensures causes { result < 4 → ForGrowth (S.given source.old) (S.given source.new) (λ input. IsCaused (Some recording) input result) }
    ensures grows { Grows (S.given source.old) (S.given source.new) }
    ensures whole { result < 4 → ForGrowth (S.given source.old) (S.given source.new)
        (IsWholeInput (S.ended source.new) (S.left source.old) (S.left source.new)) }
    ensures reads { S.calls source.new ≤ S.calls source.old + READ_BYTES }
    ensures read_fault { result ≡ 4 → Rose (S.faults source.old) (S.faults source.new) }
    ensures write_fault { result ≡ 5 → Rose (K.faults sink.old) (K.faults sink.new) }
    ensures known { result ≤ 6 }
    ensures complete { ForGrowth (S.given source.old) (S.given source.new) (λ input. IsPlayable (Some recording) input
        → (Rose (S.faults source.old) (S.faults source.new) → ⊥) → (Rose (K.faults sink.old) (K.faults sink.new) → ⊥)
        → (result ≡ 0) ⊎ (result ≡ 6)) }
{
    match read_and_answer(rt, wait, alloc, recording, source, gate) {
        Ok(answer) => answer.give(sink),
        Err(ReadFault::Failed) => 4,
        Err(ReadFault::OutOfMemory) => 6,
    }
}

/// Does all that the program `rexlive` does, and answers its status: 0 where all output was written; 1 where the input is no
/// scenario with an empty schedule, or lock words can't record it; 2 where the words are no command line; 3 where the service
/// isn't checked; 4 where a read failed, and nothing was written; 5 where a write failed; 6 for want of memory. After 5 and 6 a
/// front of the output was written. The words are the program's name, alone or with `--words`.
///
/// Each lane of the service is a thread, given by the runtime `rt`; they wait for each other by `wait`, and each passes the
/// gate before it tries an event. With `--words` they record by lock words, else on a floor under one lock. What they recorded,
/// in whatever order that came, is led to agreement by node 1 of the scenario's nodes, in blocks of 4,096 events; the other
/// nodes replay it. The output is the agreed trace, and what each node came to. That the lanes get on isn't promised: the
/// clauses hold where the call returns.
pub fn live_main<R: Threads + Sync, W: Wait + Sync, S: Source, K: Sink, G: Gate + Sync>(
    rt: &R,
    wait: &W,
    alloc: Global,
    words: &[String],
    source: &mut S,
    sink: &mut K,
    gate: &G,
) -> u8
    // Below 4 the status and the bytes that the sink took are what the words ask for of the bytes that the source gave in this call,
    // for one of the histories that lanes may record so. At 4 the sink took none, and above it none, or a front of such.
    ensures run { ForGrowth (S.given source.old) (S.given source.new) (λ input. GivesSome
        (due.IsDueFor (spec.recording_of (map string_bytes words.now)) input) (K.taken sink.old) (K.taken sink.new) result) }

    // Below 4 it is 1 exactly where those bytes are no scenario without schedule lines, or have a line that lock words can't record
    // and are to record, 2 exactly where the words are no command line, and 3 exactly where the service isn't checked.
    ensures causes { result < 4 → ForGrowth (S.given source.old) (S.given source.new)
        (λ input. IsCaused (spec.recording_of (map string_bytes words.now)) input result) }

    // There are such bytes: those that the source gave before stay where they were.
    ensures grows { Grows (S.given source.old) (S.given source.new) }

    // Below 4, where the words are a command line, those bytes are a whole input: the source has ended, or gave 4,194,305 bytes; and
    // of what a source in memory had none is left then.
    ensures whole { IsSome (spec.recording_of (map string_bytes words.now)) → result < 4
        → ForGrowth (S.given source.old) (S.given source.new) (IsWholeInput (S.ended source.new) (S.left source.old) (S.left source.new)) }

    // Where they are none, the source stays as it was, and no read fails.
    ensures unread { spec.recording_of (map string_bytes words.now) ≡ None → (source.new ≡ source.old) × (result ≡ 4 → ⊥) }

    // At most 4,194,305 reads are made.
    ensures reads { S.calls source.new ≤ S.calls source.old + READ_BYTES }

    // A fault is answered only where it was counted.
    ensures read_fault { result ≡ 4 → Rose (S.faults source.old) (S.faults source.new) }
    ensures write_fault { result ≡ 5 → Rose (K.faults sink.old) (K.faults sink.new) }
    ensures known { result ≤ 6 }

    // Where those bytes are a scenario with a checked service, no schedule line and no line that can't be recorded so, and no fault
    // was counted, the status is 0, or want of memory.
    ensures complete { ForGrowth (S.given source.old) (S.given source.new) (λ input. IsPlayable (spec.recording_of (map string_bytes words.now)) input
        → (Rose (S.faults source.old) (S.faults source.new) → ⊥) → (Rose (K.faults sink.old) (K.faults sink.new) → ⊥)
        → (result ≡ 0) ⊎ (result ≡ 6)) }
{
    if let Some(recording) = recording_of(words) {
        return play_input(rt, wait, alloc, recording, source, sink, gate);
    }
    match usage(alloc) {
        Ok(answer) => answer.give(sink),
        Err(_) => 6,
    }
}
