//! Words that are kept.

ghost use Rattle.std.specs.Prelude.{◌≡◌, IfOk};
ghost use Rattle.rex_parse.specs.Answers.{texts};

use rex_list::List;
use std::alloc::{AllocError, Global};

/// A word of its own.
pub(crate) fn own_word(alloc: Global, word: &[u8]) -> Result<List<u8>, AllocError>
    ensures { IfOk result (λ own. own ≡ word.now) }
{
    Ok(List::from_vec(Vec::from_slice(alloc, word)?))
}

/// Words of their own.
pub(crate) fn own_words(alloc: Global, words: &[&[u8]]) -> Result<List<List<u8>>, AllocError>
    ensures { IfOk result (λ own. own ≡ texts words.now) }
{
    let mut own = List::new(alloc);
    for word in words {
        own.push(own_word(alloc, word)?)?;
    }
    Ok(own)
}
