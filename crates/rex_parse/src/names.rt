//! What words name, given what the lines above have declared.

ghost use Rattle.std.specs.Prelude.{◌≡◌, ◌≤◌, length, true, IfSome};
ghost use Rattle.rex_parse.specs.Above as above;
ghost use Rattle.rex_parse.specs.Words as spec;

use crate::blocks::BlockKind;
use crate::language::{Above, Meaning};
use crate::words::is_name;

impl Above {
    /// What a declared name stands for.
    pub fn meaning_of(&self, word: &[u8]) -> Option<Meaning>
        ensures meaning { result ≡ above.meaning_of self.now word.now }
        ensures named { IfSome result (λ _. spec.is_name word.now ≡ true) }
    {
        self.names.get(word)
    }

    pub(crate) fn is_declared(&self, word: &[u8]) -> bool
        ensures { result ≡ above.is_declared self.now word.now }
    {
        self.meaning_of(word).is_some()
    }

    /// Whether a word is a parameter or a local of the open handler.
    pub(crate) fn is_local(&self, word: &[u8]) -> bool
        ensures { result ≡ above.is_local self.now word.now }
    {
        for local in self.locals.as_slice() {
            if local.as_slice() == word {
                return true;
            }
        }
        false
    }

    /// The number of a local, from 0, or how many there are where it is none.
    pub(crate) fn local_place(&self, word: &[u8]) -> usize
        ensures place { result ≡ above.local_place self.now word.now }
        ensures within { result ≤ length self.now.locals }
    {
        let mut place = 0;
        for local in self.locals.as_slice() {
            if local.as_slice() == word {
                return place;
            }
            place += 1;
        }
        place
    }

    pub(crate) fn is_open(&self) -> bool
        ensures { result ≡ above.is_open self.now }
    {
        self.open_handler.is_some()
    }

    /// What the innermost open block is.
    pub(crate) fn innermost(&self) -> Option<BlockKind>
        ensures { result ≡ above.innermost self.now }
    {
        match &self.open_handler {
            None => None,
            Some(handler) => handler.blocks.innermost(),
        }
    }
}

/// Whether a word is a name, given what it stands for. What is declared is a name, so that most words aren't looked at.
pub(crate) fn is_name_of(word: &[u8], meaning: Option<Meaning>) -> bool
    requires { IfSome meaning (λ _. spec.is_name word.now ≡ true) }
    ensures { result ≡ spec.is_name word.now }
{
    match meaning {
        Some(_) => true,
        None => is_name(word),
    }
}
