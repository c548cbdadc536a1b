//! Lines that declare what lanes can't record by lock words.

ghost use Rattle.std.specs.Prelude.{◌≡◌};
ghost use Rattle.rex_text.specs.Text.{words_of};
ghost use Rattle.rex_scenario.specs.Beyond as beyond;

use rex_text::words;

// Whether a line's first word declares a readers-writer lock, a condition or a semaphore.
fn is_beyond(word: &[u8]) -> bool
    ensures { result ≡ beyond.is_beyond word.now }
{
    word == b"rwlock".as_slice() || (word == b"cond".as_slice() || word == b"sem".as_slice())
}

// Whether a line declares one.
fn declares_beyond(line: &[u8]) -> bool
    ensures { result ≡ beyond.declares_beyond (words_of line.now) }
{
    match words(line).next() {
        None => false,
        Some(first) => is_beyond(first),
    }
}

/// The number of the first line so far that declares one, after one line more.
pub(crate) fn beyond_after(before: Option<u32>, number: u32, line: &[u8]) -> Option<u32>
    ensures { result ≡ beyond.beyond_after before number (words_of line.now) }
{
    match before {
        Some(line) => Some(line),
        None if declares_beyond(line) => Some(number),
        None => None,
    }
}
