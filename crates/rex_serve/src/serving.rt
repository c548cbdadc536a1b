//! A process that is served.

ghost use Rattle.std.specs.Prelude.{◌≡◌, ◌≤◌, ◌-◌, ◌^◌, ◌++◌, true, false, drop, length, IfErr, IfOk, IsErrOf, OnErr, OnOk};
ghost use Rattle.rex_traits.specs.Causes.{Rose};
ghost use Rattle.rex_frames.specs.Frames.{front_of as at_front_of, has_frame};
ghost use Rattle.rex_process.specs.Keeping.{ByAppends, ByAppendsAndFlushes};
ghost use Rattle.rex_process.specs.Process.{IsProcess, IsSame};
ghost use Rattle.rex_serve.specs.declared.serving.Ended.TheVariants as ended;
ghost use Rattle.rex_serve.specs.Answering.{IsFlushed};
ghost use Rattle.rex_serve.specs.Serving.{EndsAs, GrowsBy, HasBroken, IsClean, IsServed, IsSettled, IsUpOrFailed, Serves, StandsAs, TellsAs};

use crate::asking::answer;
use rex_flush::Flush;
use rex_frames::{Front, front_of};
use rex_process::Process;
use rex_traits::{KeepFault, Keeper, Sink, SinkFault, Source, write_all};
use std::alloc::{AllocError, Global};

/// How serving ended.
#[derive(Clone, Copy, Debug, PartialEq, Eq)]
pub enum Ended {
    /// The source ended. A front of a frame at the end isn't answered.
    Over,
    /// The source was read 2^64 - 1 times.
    TooOften,
    /// A read failed.
    Unread,
    /// A frame is longer than any may be.
    TooLong,
    /// A record was not kept, and so the node is down; or records were not kept for good.
    Down,
    /// A write failed.
    Unwritten,
    /// Memory was short.
    OutOfMemory,
}

/// The most bytes that are read at once.
const PIECE: usize = 65_536;

// Answers the whole frames that bytes begin with, while the node is up; what is left of the bytes.
fn answer_all<'b, K: Keeper>(
    alloc: Global,
    process: &mut Process<'_, K>,
    bytes: &'b [u8],
    out: &mut Vec<u8>,
) -> Result<&'b [u8], AllocError>
    requires process { IsProcess K.records K.faults process.old }
    requires up { process.old.node.up ≡ true }
    ensures served { IfOk result (λ left. GrowsBy (Serves K.records K.faults process.old process.new bytes.now left.now) out.old.items out.new.items) }
    ensures broken { OnErr result (HasBroken K.records K.faults process.old process.new bytes.now) }
    ensures all { IfOk result (λ left. process.new.node.up ≡ true → has_frame (at_front_of left.now) ≡ false) }
    ensures process { OnOk result (IsProcess K.records K.faults process.new) }
    ensures same { IsSame process.old process.new }
    ensures appends { ByAppends K.append_gives process.old.node.keeper process.new.node.keeper }
    ensures counts { OnOk result (IsUpOrFailed K.faults process.old process.new) }
{
    let mut left = bytes;
    while process.is_up() {
        match front_of(left) {
            Front::Whole { frame, rest } => {
                answer(alloc, process, frame, out)?;
                left = rest;
            }
            _ => break,
        }
    }
    Ok(left)
}

// Keeps so many of the last bytes.
fn keep_last(held: &mut Vec<u8>, count: usize)
    requires { count ≤ length held.old.items }
    ensures { held.new.items ≡ drop (length held.old.items - count) held.old.items }
{
    let at = held.len() - count;
    held.drain(..at);
}

// Has all records kept for good that answers rest on, and then writes these.
fn tell<W: Sink, K: Flush>(
    process: &mut Process<'_, K>,
    out: &[u8],
    sink: &mut W,
) -> Result<(), Ended>
    requires process { IsProcess K.records K.faults process.old }
    ensures counts { K.faults process.old.node.keeper ≤ K.faults process.new.node.keeper }
    ensures flushed { IsFlushed K.records process.old process.new }
    ensures keeper { ByAppendsAndFlushes K.append_gives K.flush_gives process.old.node.keeper process.new.node.keeper }
    ensures tells { TellsAs K.records K.kept K.faults process.old process.new out.now (W.taken sink.old) (W.taken sink.new) result }
    ensures ok { OnOk result (IsProcess K.records K.faults process.new) }
    ensures err { IfErr result (λ e. IsClean e → IsProcess K.records K.faults process.new) }
    ensures unwritten { IsErrOf result ended.Unwritten → Rose (W.faults sink.old) (W.faults sink.new) }
    ensures later { W.faults sink.old ≤ W.faults sink.new }
{
    if !process.is_up() {
        return Err(Ended::Down);
    }
    match process.flush() {
        Ok(()) => {}
        Err(KeepFault::Failed) => return Err(Ended::Down),
        Err(KeepFault::OutOfMemory) => return Err(Ended::OutOfMemory),
    }
    match write_all(sink, out) {
        Ok(()) => Ok(()),
        Err(SinkFault::Failed) => Err(Ended::Unwritten),
        Err(SinkFault::OutOfMemory) => Err(Ended::OutOfMemory),
    }
}

// Whether more may be answered.
fn standing(held: &[u8]) -> Result<(), Ended>
    ensures { StandsAs held.now result }
{
    match front_of(held) {
        Front::TooLong => Err(Ended::TooLong),
        _ => Ok(()),
    }
}

// Answers the whole frames of what is held and of a piece that was read behind it, and tells the answers; what is left is held.
fn serve_piece<W: Sink, K: Flush>(
    alloc: Global,
    process: &mut Process<'_, K>,
    held: &mut Vec<u8>,
    piece: &[u8],
    sink: &mut W,
) -> Result<(), Ended>
    requires process { IsProcess K.records K.faults process.old }
    requires up { process.old.node.up ≡ true }
    requires settled { IsSettled K.records K.kept process.old }
    ensures served { IsServed K.records K.kept K.faults process.old process.new (held.old.items ++ piece.now) held.new.items
        (W.taken sink.old) (W.taken sink.new) result }
    ensures ok { OnOk result (IsProcess K.records K.faults process.new) }
    ensures err { IfErr result (λ e. IsClean e → IsProcess K.records K.faults process.new) }
    ensures unwritten { IsErrOf result ended.Unwritten → Rose (W.faults sink.old) (W.faults sink.new) }
    ensures later { W.faults sink.old ≤ W.faults sink.new }
    ensures down { IsErrOf result ended.Down → Rose (K.faults process.old.node.keeper) (K.faults process.new.node.keeper) }
    ensures counts { OnOk result (K.faults process.old.node.keeper ≤ K.faults process.new.node.keeper) }
    ensures same { IsSame process.old process.new }
    ensures keeper { ByAppendsAndFlushes K.append_gives K.flush_gives process.old.node.keeper process.new.node.keeper }
{
    if held.extend_from_slice(piece).is_err() {
        return Err(Ended::OutOfMemory);
    }
    let mut out = Vec::new(alloc);
    let left = match answer_all(alloc, process, held, &mut out) {
        Ok(left) => left.len(),
        Err(_) => return Err(Ended::OutOfMemory),
    };
    tell(process, &out, sink)?;
    keep_last(held, left);
    standing(held)
}

/// Answers frames as a source gives them, until it ends. Frames that were read together are answered together, before more is read: once
/// all records are kept for good that the answers rest on, these are written. Each frame is answered in turn: what came of what it asks
/// for, and then what the node is. Once the node is down no frame is answered.
pub fn serve<S: Source, W: Sink, K: Flush>(
    alloc: Global,
    process: &mut Process<'_, K>,
    source: &mut S,
    sink: &mut W,
) -> Ended
    requires process { IsProcess K.records K.faults process.old }
    requires up { process.old.node.up ≡ true }
    requires settled { IsSettled K.records K.kept process.old }

    // Which of the frames that the source gave in this call were answered, to what the process came thereby, which of its records are kept
    // for good, and which of the answers the sink took: none that rest on others.
    ensures served { GrowsBy (λ input. EndsAs K.records K.kept K.faults result process.old process.new input (W.taken sink.old) (W.taken sink.new))
        (S.given source.old) (S.given source.new) }

    // After a clean end the process may be served again; it is the same one anyway.
    ensures process { IsClean result → IsProcess K.records K.faults process.new }
    ensures same { IsSame process.old process.new }

    // Its keeper appended and flushed, and did nothing else.
    ensures keeper { ByAppendsAndFlushes K.append_gives K.flush_gives process.old.node.keeper process.new.node.keeper }

    // It is over only where the source ended, and each other way to end has its cause.
    ensures over { result ≡ ended.Over → S.ended source.new ≡ true }
    ensures often { result ≡ ended.TooOften → 2 ^ 64 - 1 ≤ S.calls source.new }
    ensures unread { result ≡ ended.Unread → Rose (S.faults source.old) (S.faults source.new) }
    ensures unwritten { result ≡ ended.Unwritten → Rose (W.faults sink.old) (W.faults sink.new) }
    ensures down { result ≡ ended.Down → Rose (K.faults process.old.node.keeper) (K.faults process.new.node.keeper) }
{
    let mut held = Vec::new(alloc);
    let mut buf = [0; PIECE];
    for _ in 0..u64::MAX {
        match source.read(&mut buf) {
            Ok(0) => return Ended::Over,
            Ok(count) => {
                if let Err(ended) = serve_piece(alloc, process, &mut held, &buf[..count], sink) {
                    return ended;
                }
            }
            Err(_) => return Ended::Unread,
        }
    }
    Ended::TooOften
}
