//! Iterators over the lines of a text, as they stand or as words, and over the words of a line.

ghost use Rattle.std.specs.Prelude.{◌^◌, length};
ghost use Rattle.std.specs.Iterator.{YieldsFirstBy, YieldsFirstRef, at_most};

use crate::cuts::{first_line, is_skipped_line, word_end, word_start};

/// The lines of a text as they stand, with their numbers from 1.
#[derive(Drop)]
pub struct RawLines<'a> {
    pub(crate) rest: &'a [u8],
    pub(crate) number: u32,
}

impl<'a> Iterator for RawLines<'a> {
    ghost use Rattle.rex_text.specs.Left.{lines_left, starts_below};

    type Item = (u32, &'a [u8]);

    ghost can_next = { starts_below (2 ^ 32) };

    ghost next_gives = { YieldsFirstBy (λ x. (x.0, x.1.now)) lines_left };

    ghost remaining = { λ s. at_most (length s.rest.now) };

    fn next(&mut self) -> Option<(u32, &'a [u8])> {
        if self.rest.is_empty() {
            return None;
        }
        let (line, rest) = first_line(self.rest);
        self.rest = rest;
        self.number += 1;
        Some((self.number, line))
    }
}

/// The words of a line, which spaces and tabs separate.
#[derive(Drop)]
pub struct Words<'a> {
    pub(crate) rest: &'a [u8],
}

impl<'a> Iterator for Words<'a> {
    ghost use Rattle.rex_text.specs.Left.{words_left};

    type Item = &'a [u8];

    ghost next_gives = { YieldsFirstRef words_left };

    ghost remaining = { λ s. at_most (length s.rest.now) };

    fn next(&mut self) -> Option<&'a [u8]> {
        let start = word_start(self.rest);
        let word = &self.rest[start..];
        if word.is_empty() {
            self.rest = word;
            return None;
        }
        let end = word_end(word);
        self.rest = &word[end..];
        Some(&word[..end])
    }
}

/// The lines of a text that are not skipped, as words, with their numbers among all lines.
#[derive(Drop)]
pub struct Lines<'a> {
    pub(crate) raw: RawLines<'a>,
}

impl<'a> Iterator for Lines<'a> {
    ghost use Rattle.rex_text.specs.Left.{word_lines_below, word_lines_left, words_left};

    type Item = (u32, Words<'a>);

    ghost can_next = { word_lines_below (2 ^ 32) };

    ghost next_gives = { YieldsFirstBy (λ x. (x.0, words_left x.1)) word_lines_left };

    ghost remaining = { λ s. at_most (length s.raw.rest.now) };

    fn next(&mut self) -> Option<(u32, Words<'a>)> {
        while let Some((number, line)) = self.raw.next() {
            if !is_skipped_line(line) {
                return Some((number, Words { rest: line }));
            }
        }
        None
    }
}
