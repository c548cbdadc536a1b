//! The words of a line as a list, and whether its bytes are allowed.

ghost use Rattle.std.specs.Prelude.{◌≡◌, ◌≤◌, ◌++◌, OnOk, length, map};
ghost use Rattle.std.specs.List.{list_all};
ghost use Rattle.rex_text.specs.Text.{is_allowed, word_between, words_of};
ghost use Rattle.rex_text.specs.Text as text;

use crate::cuts::is_blank;
use std::alloc::AllocError;

/// Puts the words of a line in place of what a list held.
pub fn find_words<'a>(found: &mut Vec<&'a [u8]>, line: &'a [u8]) -> Result<(), AllocError>
    ensures { OnOk result (map (λ word. word.now) found.new.items ≡ words_of line.now) }
{
    // The list's room is used again, so that few lines take memory.
    found.clear();
    let mut start = 0;
    for (at, byte) in line.iter().enumerate() {
        // Most bytes stand above a space, so that one comparison settles them.
        if *byte <= b' ' && is_blank(*byte) {
            end_word(found, line, start, at)?;
            start = at + 1;
        }
    }
    end_word(found, line, start, line.len())
}

// The words, and one more that stands from `start` to `end`, if any byte does.
fn end_word<'a>(
    found: &mut Vec<&'a [u8]>,
    line: &'a [u8],
    start: usize,
    end: usize,
) -> Result<(), AllocError>
    requires order { start ≤ end }
    requires within { end ≤ length line.now }
    ensures { OnOk result (map (λ word. word.now) found.new.items ≡ map (λ word. word.now) found.old.items ++ word_between line.now start end) }
{
    if start < end {
        found.push(&line[start..end])?;
    }
    Ok(())
}

/// Whether each byte of a line is allowed. Every byte is looked at, so that a processor can look at several of them at once.
pub fn is_clean(line: &[u8]) -> bool
    ensures { result ≡ list_all is_allowed line.now }
{
    let mut has_other = false;
    for byte in line {
        has_other |= !is_allowed_byte(*byte);
    }
    !has_other
}

fn is_allowed_byte(byte: u8) -> bool
    ensures { result ≡ text.is_allowed byte }
{
    (32 <= byte && byte <= 126) || byte == b'\t'
}
