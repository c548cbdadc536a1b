//! The headings of a scenario's sections.

ghost use Rattle.std.specs.Prelude.{◌≡◌};
ghost use Rattle.rex_parse.specs.Answers.{texts};
ghost use Rattle.rex_text.specs.Text.{words_of};
ghost use Rattle.rex_scenario.specs.Headings as headings;

use crate::scenario::Stage;
use crate::words::count_of;
use rex_ballot::NODES;
use rex_text::{read_u64, words};

/// Whether the first word of a line begins with `%`.
pub(crate) fn is_heading(words: &[&[u8]]) -> bool
    ensures { result ≡ headings.is_heading (texts words.now) }
{
    match words {
        [] => false,
        [first, ..] => first.first() == Some(&b'%'),
    }
}

/// The same of a line that is not split into words.
pub(crate) fn is_heading_line(line: &[u8]) -> bool
    ensures { result ≡ headings.is_heading (words_of line.now) }
{
    match words(line).next() {
        None => false,
        Some(first) => first.first() == Some(&b'%'),
    }
}

/// The stage that a heading begins, where it is due.
pub(crate) fn next_stage(stage: Stage, word: &[u8]) -> Option<Stage>
    ensures { result ≡ headings.next_stage stage word.now }
{
    let next = begun_by(word)?;
    if is_due(stage, next) {
        Some(next)
    } else {
        None
    }
}

// The stage that a heading begins.
fn begun_by(word: &[u8]) -> Option<Stage>
    ensures { result ≡ headings.begun_by word.now }
{
    if word == b"%nodes".as_slice() {
        Some(Stage::Nodes)
    } else if word == b"%seed".as_slice() {
        Some(Stage::Seed)
    } else if word == b"%service".as_slice() {
        Some(Stage::Service)
    } else if word == b"%requests".as_slice() {
        Some(Stage::Requests)
    } else if word == b"%schedule".as_slice() {
        Some(Stage::Schedule)
    } else {
        None
    }
}

// Whether a stage may come right after another. The seed alone may be left out.
fn is_due(stage: Stage, next: Stage) -> bool
    ensures { result ≡ headings.is_due stage next }
{
    match stage {
        Stage::Start => next == Stage::Nodes,
        Stage::Nodes => next == Stage::Seed || next == Stage::Service,
        Stage::Seed => next == Stage::Service,
        Stage::Service => next == Stage::Requests,
        Stage::Requests => next == Stage::Schedule,
        Stage::Schedule => false,
    }
}

/// Whether the words after the first of the heading that begins a stage are right.
pub(crate) fn is_whole(next: Stage, words: &[&[u8]]) -> bool
    ensures { result ≡ headings.is_whole next (texts words.now) }
{
    match (next, words) {
        (Stage::Nodes, [nodes]) => nodes_of(nodes).is_some(),
        (Stage::Seed, [seed]) => seed_of(seed).is_some(),
        (Stage::Nodes | Stage::Seed, _) => false,
        _ => words.is_empty(),
    }
}

/// The number of nodes that a heading says, and else the one before.
pub(crate) fn nodes_after(next: Stage, words: &[&[u8]], before: u8) -> u8
    ensures { result ≡ headings.nodes_after next (texts words.now) before }
{
    match (next, words) {
        (Stage::Nodes, [nodes, ..]) => nodes_of(nodes).unwrap_or(before),
        _ => before,
    }
}

/// The seed that a heading says, and else the one before.
pub(crate) fn seed_after(next: Stage, words: &[&[u8]], before: u32) -> u32
    ensures { result ≡ headings.seed_after next (texts words.now) before }
{
    match (next, words) {
        (Stage::Seed, [seed, ..]) => seed_of(seed).unwrap_or(before),
        _ => before,
    }
}

// The number of nodes that a word spells, where there may be so many.
fn nodes_of(word: &[u8]) -> Option<u8>
    ensures value { result ≡ headings.nodes_of word.now }
{
    let n = read_u64(word)?;
    if n % 2 == 1 && n <= NODES as u64 {
        Some(n as u8)
    } else {
        None
    }
}

fn seed_of(word: &[u8]) -> Option<u32>
    ensures value { result ≡ headings.seed_of word.now }
{
    Some(count_of(0, 4_294_967_295, word)? as u32)
}
