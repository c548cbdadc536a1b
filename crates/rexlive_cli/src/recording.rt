//! How lanes record their events, as the words of a command line say.

ghost use Rattle.std.specs.Prelude.{◌≡◌, map, string_bytes};
ghost use Rattle.rexlive_cli.specs.Recording as spec;

/// How lanes record their events.
#[derive(Clone, Copy, Debug, PartialEq, Eq)]
pub enum Recording {
    /// On a floor, under one lock.
    Floor,
    /// By lock words, without a lock around the whole.
    Words,
}

/// How the words of a command line have lanes record; `None` where they are no command line.
pub(crate) fn recording_of(words: &[String]) -> Option<Recording>
    ensures { result ≡ spec.recording_of (map string_bytes words.now) }
{
    match words {
        [_] => Some(Recording::Floor),
        [_, word] => recording_named(word),
        _ => None,
    }
}

// How the word after the program's name has lanes record.
fn recording_named(word: &String) -> Option<Recording>
    ensures { result ≡ spec.recording_named (string_bytes word.now) }
{
    if word.as_bytes() == b"--words".as_slice() {
        Some(Recording::Words)
    } else {
        None
    }
}
