//! Schedule lines.

ghost use Rattle.std.specs.Prelude.{◌≡◌, ◌≤◌, ◌-◌, ◌&&◌, ◌==◌, not, nat_lt, None, Some, IfOk, option_map, option_and_then, if◌then◌else◌};
ghost use Rattle.rex_parse.specs.Answers.{texts};
ghost use Rattle.rex_parse.specs.Table.{in_range};
ghost use Rattle.rex_text.specs.Numbers.{u64_at};
ghost use Rattle.rex_scenario.specs.Answers.{Reads};
ghost use Rattle.rex_parse.specs.Words.{is_name};
ghost use Rattle.rex_scenario.specs.Requests.{client_of};
ghost use Rattle.rex_scenario.specs.Schedule as schedule;

use crate::requests::client_of;
use crate::scenario::{LineFault, ScenarioCode, ScheduleLine};
use rex_event::CLIENTS;
use rex_list::List;
use rex_parse::{Above, Meaning, is_name};
use rex_schedule::{REQUESTS, SCHEDULE_LINES};
use rex_syntax::service::LANES;
use rex_syntax::version::Version;
use rex_text::read_u64;
use std::alloc::{AllocError, Global};

/// A schedule line as it is spelled: its numbers are counted from 1, and may be of what isn't there.
#[derive(Drop)]
pub(crate) enum Step {
    Elect(u64),
    Submit(u64, u64),
    Lane(u64, u64),
    Cut(u64),
    CutBelow(u64, List<u32>),
    Deliver(u64),
    Flush,
    Replay(u64),
    Ask(u64, u64),
    Stop(u64),
    Start(u64),
    Checkpoint(u64, Version),
    DropKnown(u64),
    KeepFail(u64, bool),
    /// A node, a client, and the variable of the name, if one has it.
    ReadVariable(u64, u16, Option<u16>),
}

/// The step that words spell. Limits are all that takes memory.
pub(crate) fn step_of(
    alloc: Global,
    above: &Above,
    words: &[&[u8]],
) -> Result<Option<Step>, AllocError>
    ensures { IfOk result (λ step. step ≡ schedule.step_of above.now (texts words.now)) }
{
    match words {
        [] => Ok(None),
        [word, rest @ ..] if *word == b"read".as_slice() => Ok(reading(above, rest)),
        _ => plain_step(alloc, words),
    }
}

// A step that needs no name of the service.
fn plain_step(alloc: Global, words: &[&[u8]]) -> Result<Option<Step>, AllocError>
    ensures { IfOk result (λ step. step ≡ schedule.plain_step (texts words.now)) }
{
    match words {
        [word] => Ok(lone_step(word)),
        [word, number] => Ok(short_step(word, number)),
        [word, node, limits @ ..] if *word == b"cut".as_slice() => cut_step(alloc, node, limits),
        [word, node, other] => Ok(longer_step(word, node, other)),
        _ => Ok(None),
    }
}

// A step of a word alone.
fn lone_step(word: &[u8]) -> Option<Step>
    ensures { result ≡ schedule.lone_step word.now }
{
    if word == b"flush".as_slice() {
        Some(Step::Flush)
    } else {
        None
    }
}

// A step of one number.
fn short_step(word: &[u8], number: &[u8]) -> Option<Step>
    ensures { result ≡ option_and_then (schedule.short_step word.now) (u64_at number.now) }
{
    let number = read_u64(number)?;
    if word == b"elect".as_slice() {
        Some(Step::Elect(number))
    } else if word == b"cut".as_slice() {
        Some(Step::Cut(number))
    } else if word == b"deliver".as_slice() {
        Some(Step::Deliver(number))
    } else if word == b"replay".as_slice() {
        Some(Step::Replay(number))
    } else if word == b"checkpoint".as_slice() {
        Some(Step::Checkpoint(number, Version::Two))
    } else if word == b"drop".as_slice() {
        Some(Step::DropKnown(number))
    } else if word == b"stop".as_slice() {
        Some(Step::Stop(number))
    } else if word == b"start".as_slice() {
        Some(Step::Start(number))
    } else {
        None
    }
}

// A step of a node and one word more.
fn longer_step(word: &[u8], node: &[u8], other: &[u8]) -> Option<Step>
    ensures { result ≡ option_and_then (λ n. schedule.longer_step word.now n other.now) (u64_at node.now) }
{
    let node = read_u64(node)?;
    if word == b"keepfail".as_slice() {
        return Some(Step::KeepFail(node, kept_of(other)?));
    }
    if word == b"checkpoint".as_slice() {
        return old_step(node, other);
    }
    long_step(word, node, read_u64(other)?)
}

// A checkpoint in the old version.
fn old_step(node: u64, word: &[u8]) -> Option<Step>
    ensures { result ≡ schedule.old_step node word.now }
{
    if word == b"old".as_slice() {
        Some(Step::Checkpoint(node, Version::One))
    } else {
        None
    }
}

// A step of two numbers.
fn long_step(word: &[u8], node: u64, number: u64) -> Option<Step>
    ensures { result ≡ schedule.long_step word.now node number }
{
    if word == b"submit".as_slice() {
        Some(Step::Submit(node, number))
    } else if word == b"lane".as_slice() {
        Some(Step::Lane(node, number))
    } else if word == b"ask".as_slice() {
        Some(Step::Ask(node, number))
    } else {
        None
    }
}

// A node, a client and a name, and no word more.
fn reading(above: &Above, words: &[&[u8]]) -> Option<Step>
    ensures { result ≡ schedule.reading above.now (texts words.now) }
{
    match words {
        [node, client, name] => read_step(above, node, client, name),
        _ => None,
    }
}

// A read of a client at a node.
fn read_step(above: &Above, node: &[u8], client: &[u8], name: &[u8]) -> Option<Step>
    ensures { result ≡ schedule.read_of (u64_at node.now) (client_of client.now) (is_name name.now) (schedule.variable_named above.now name.now) }
{
    let node = read_u64(node)?;
    let client = client_of(client)?;
    if !is_name(name) {
        return None;
    }
    let variable = variable_named(above, name);
    Some(Step::ReadVariable(node, client, variable))
}

// The number of the variable with a name, if one has it.
fn variable_named(above: &Above, name: &[u8]) -> Option<u16>
    ensures { result ≡ schedule.variable_named above.now name.now }
{
    match above.meaning_of(name) {
        Some(Meaning::Variable(number)) => Some(number),
        _ => None,
    }
}

// Whether a record whose append fails is kept.
fn kept_of(word: &[u8]) -> Option<bool>
    ensures { result ≡ schedule.kept_at word.now }
{
    if word == b"kept".as_slice() {
        Some(true)
    } else if word == b"lost".as_slice() {
        Some(false)
    } else {
        None
    }
}

// A cut with limits.
fn cut_step(alloc: Global, node: &[u8], limits: &[&[u8]]) -> Result<Option<Step>, AllocError>
    ensures { IfOk result (λ step. step ≡ schedule.with_limits (u64_at node.now) (schedule.limits_at (texts limits.now))) }
{
    let Some(node) = read_u64(node) else {
        return Ok(None);
    };
    let Some(limits) = limits_of(alloc, limits)? else {
        return Ok(None);
    };
    Ok(Some(Step::CutBelow(node, limits)))
}

// The limits that words spell, if each spells one.
fn limits_of(alloc: Global, words: &[&[u8]]) -> Result<Option<List<u32>>, AllocError>
    ensures { IfOk result (λ limits. limits ≡ schedule.limits_at (texts words.now)) }
{
    let mut limits = List::new(alloc);
    for word in words {
        let Some(limit) = limit_of(word) else {
            return Ok(None);
        };
        limits.push(limit)?;
    }
    Ok(Some(limits))
}

fn limit_of(word: &[u8]) -> Option<u32>
    ensures value { result ≡ schedule.small (u64_at word.now) }
{
    u32::try_from(read_u64(word)?).ok()
}

/// The schedule line that words spell, or the code that fits, where so many nodes, requests and lanes are there, the service's
/// states have the old version or don't, so many schedule lines came before, and the schedule may have lines, or may not.
pub(crate) fn read_schedule_line(
    alloc: Global,
    above: &Above,
    words: &[&[u8]],
    scheduled: bool,
    nodes: u8,
    requests: usize,
    lanes: u64,
    old: bool,
    earlier: usize,
) -> Result<ScheduleLine, LineFault>
    requires requests { requests ≤ REQUESTS }
    requires lanes { lanes ≤ LANES }
    ensures { Reads result (schedule.schedule_code scheduled nodes requests lanes old earlier above.now (texts words.now))
        (option_map schedule.line_of (schedule.step_of above.now (texts words.now))) }
{
    let Some(step) = step_of(alloc, above, words)? else {
        return Err(LineFault::Refused(ScenarioCode::BadLine));
    };
    if !scheduled {
        return Err(LineFault::Refused(ScenarioCode::BadLine));
    }
    if earlier >= SCHEDULE_LINES {
        return Err(LineFault::Refused(ScenarioCode::TooManyLines));
    }
    let is_complete = has_limits(&step, lanes);
    let has_form = has_form(&step, old);
    let Some(line) = placed(step, nodes, requests as u64, lanes) else {
        return Err(LineFault::Refused(ScenarioCode::NotThere));
    };
    if !is_complete {
        return Err(LineFault::Refused(ScenarioCode::WrongLimits));
    }
    if !has_form {
        return Err(LineFault::Refused(ScenarioCode::NoOldForm));
    }
    Ok(line)
}

// Whether the limits of a cut are as many as the lanes.
fn has_limits(step: &Step, lanes: u64) -> bool
    ensures { result ≡ schedule.has_limits lanes step.now }
{
    match step {
        Step::CutBelow(_, limits) => limits.len() as u64 == lanes,
        _ => true,
    }
}

// Whether a checkpoint is in a version that the service's states have.
fn has_form(step: &Step, old: bool) -> bool
    ensures { result ≡ schedule.has_form old step.now }
{
    match step {
        Step::Checkpoint(_, Version::One) => old,
        _ => true,
    }
}

// The schedule line that a step is, if what it names is there.
fn placed(step: Step, nodes: u8, requests: u64, lanes: u64) -> Option<ScheduleLine>
    requires requests { requests ≤ REQUESTS }
    requires lanes { lanes ≤ LANES }
    ensures { result ≡ (if schedule.is_there nodes requests lanes step then Some (schedule.line_of step) else None) }
{
    let line = match step {
        Step::Elect(node) => ScheduleLine::Elect {
            node: node_of(node, nodes)?,
        },
        Step::Submit(node, request) => ScheduleLine::Submit {
            node: node_of(node, nodes)?,
            request: place_of(request, requests)? as u32,
        },
        Step::Lane(node, lane) => ScheduleLine::Lane {
            node: node_of(node, nodes)?,
            lane: place_of(lane, lanes)? as u8,
        },
        Step::Cut(node) => ScheduleLine::Cut {
            node: node_of(node, nodes)?,
        },
        Step::CutBelow(node, limits) => ScheduleLine::CutBelow {
            node: node_of(node, nodes)?,
            limits,
        },
        Step::Deliver(message) => ScheduleLine::Deliver {
            message: message_of(message)?,
        },
        Step::Flush => ScheduleLine::Flush,
        Step::Replay(node) => ScheduleLine::Replay {
            node: node_of(node, nodes)?,
        },
        Step::Ask(node, other) => ScheduleLine::Ask {
            node: node_of(node, nodes)?,
            other: other_of(node, other, nodes)?,
        },
        Step::Stop(node) => ScheduleLine::Stop {
            node: node_of(node, nodes)?,
        },
        Step::Start(node) => ScheduleLine::Start {
            node: node_of(node, nodes)?,
        },
        Step::Checkpoint(node, version) => ScheduleLine::Checkpoint {
            node: node_of(node, nodes)?,
            version,
        },
        Step::DropKnown(node) => ScheduleLine::DropKnown {
            node: node_of(node, nodes)?,
        },
        Step::KeepFail(node, kept) => ScheduleLine::KeepFail {
            node: node_of(node, nodes)?,
            kept,
        },
        Step::ReadVariable(node, client, variable) => ScheduleLine::ReadVariable {
            node: node_of(node, nodes)?,
            client: reader_of(client)?,
            variable: variable?,
        },
    };
    Some(line)
}

// The number of one of so many nodes.
fn node_of(number: u64, nodes: u8) -> Option<u8>
    ensures { result ≡ (if in_range 1 nodes number then Some number else None) }
{
    if 1 <= number && number <= nodes as u64 {
        Some(number as u8)
    } else {
        None
    }
}

// The number of a node that another one asks.
fn other_of(node: u64, number: u64, nodes: u8) -> Option<u8>
    ensures { result ≡ (if in_range 1 nodes number && not (node == number) then Some number else None) }
{
    let other = node_of(number, nodes)?;
    if node == number { None } else { Some(other) }
}

// The number of a client that reads.
fn reader_of(client: u16) -> Option<u16>
    ensures { result ≡ (if in_range 1 CLIENTS client then Some client else None) }
{
    if 1 <= client && client <= CLIENTS {
        Some(client)
    } else {
        None
    }
}

// The number of a message, which may be any but 0.
fn message_of(number: u64) -> Option<u64>
    ensures { result ≡ (if nat_lt 0 number then Some number else None) }
{
    if number > 0 { Some(number) } else { None }
}

// The place, from 0, of a number from 1 to `count`.
fn place_of(number: u64, count: u64) -> Option<u64>
    ensures { result ≡ (if in_range 1 count number then Some (number - 1) else None) }
{
    if 1 <= number && number <= count {
        Some(number - 1)
    } else {
        None
    }
}
