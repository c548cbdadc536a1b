//! The calls that split a text into lines, and a line into words.

ghost use Rattle.std.specs.Prelude.{◌≡◌, ◌+◌, ◌<◌, ◌^◌, length};
ghost use Rattle.rex_text.specs.Left.{lines_left, starts_below, words_left};
ghost use Rattle.rex_text.specs.Left.{word_lines_below, word_lines_left};
ghost use Rattle.rex_text.specs.Text.{lines_of, numbered, word_lines_of, words_of};

use crate::iterators::{Lines, RawLines, Words};

/// Every line of a text as it stands, with its number from 1.
///
/// A LF ends a line, a CR right before it is dropped, and bytes after the last LF are a last line.
pub fn raw_lines(bytes: &[u8]) -> RawLines<'_>
    requires { length bytes.now + 1 < 2 ^ 32 }
    ensures left { lines_left result ≡ numbered 1 (lines_of bytes.now) }
    ensures can { starts_below (2 ^ 32) result }
{
    RawLines {
        rest: bytes,
        number: 0,
    }
}

/// The words of a line, which spaces and tabs separate.
pub fn words(line: &[u8]) -> Words<'_>
    ensures { words_left result ≡ words_of line.now }
{
    Words { rest: line }
}

/// The lines of a text that are not skipped, as words, each with its number among all lines.
///
/// A line is skipped if it has no words, or if its first word begins with `#`.
pub fn lines(bytes: &[u8]) -> Lines<'_>
    requires { length bytes.now + 1 < 2 ^ 32 }
    ensures left { word_lines_left result ≡ word_lines_of bytes.now }
    ensures can { word_lines_below (2 ^ 32) result }
{
    Lines {
        raw: raw_lines(bytes),
    }
}
