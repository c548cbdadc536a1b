//! Words and their numbers.

ghost use Rattle.std.specs.Prelude.{◌≡◌, ◌<◌, ◌-◌, ◌^◌, [], ◌∷◌, length, Some, IfOk, OnOk, OnErr};
ghost use Rattle.std.specs.Cmp.Lexicographic.{bytes_decides, nat_list_eq_equiv};
ghost use Rattle.std.specs.Str.{bytes_eq};
ghost use Rattle.std.proofs.Common.{ap};
ghost use Rattle.rex_syntax.specs.Names.{number_of, with_word};

use indexmap::{Equivalent, IndexSet};
use std::alloc::{AllocError, Global};
use std::hash::{Hash, Hasher};
use std::marker::Model;

// A word as a key. It feeds a hasher all its bytes at once, where a `Vec` feeds one after the other.
#[derive(PartialEq, Eq, Drop)]
struct Key {
    bytes: Vec<u8>,
}

impl Hash for Key {
    ghost hash_input = { λ k. k.bytes.items ∷ [] };

    ghost respects_eq = { λ x y h. ap (λ bytes. bytes ∷ []) ((bytes_decides x.bytes.items y.bytes.items).0 h) };

    fn hash<H: Hasher>(&self, state: &mut H) {
        state.write(self.bytes.as_slice());
    }
}

// A word that is looked for among keys, and fed like them.
#[derive(Clone, Copy, PartialEq, Eq)]
struct Sought<'a> {
    bytes: &'a [u8],
}

impl<'a> Hash for Sought<'a> {
    ghost hash_input = { λ s. s.bytes.now ∷ [] };

    ghost respects_eq = { λ x y h. ap (λ bytes. bytes ∷ []) ((bytes_decides x.bytes.now y.bytes.now).0 h) };

    fn hash<H: Hasher>(&self, state: &mut H) {
        state.write(self.bytes);
    }
}

impl<'a> Equivalent<Key> for Sought<'a> {
    ghost equivalent = { λ s k. bytes_eq s.bytes.now k.bytes.items };

    ghost respects_hash = { λ s k h. ap (λ bytes. bytes ∷ []) ((bytes_decides s.bytes.now k.bytes.items).0 h) };

    ghost respects_eq = { λ s x y. nat_list_eq_equiv.congr s.bytes.now x.bytes.items y.bytes.items };

    fn equivalent(&self, key: &Key) -> bool {
        self.bytes == key.bytes.as_slice()
    }
}

/// Words, numbered from 1 in the order in which they came, and found in a time that doesn't grow with their count.
/// Contracts see them as the list of words.
#[derive(Drop)]
pub struct Names {
    alloc: Global,
    words: IndexSet<Key>,
}

impl Model for Names {
    ghost use Rattle.std.specs.Prelude.{◌<◌, ◌^◌, ℕ, List, length, map};

    ghost Value = { List (List ℕ) };

    ghost view = { λ n. map (λ k. k.bytes.items) n.words.keys };

    ghost invariant = { λ n. length n.words.keys < 2 ^ 32 };
}

impl Names {
    /// No words.
    pub fn new(alloc: Global) -> Names
        ensures { result ≡ [] }
    {
        Names {
            alloc,
            words: IndexSet::new(alloc),
        }
    }

    /// The number of a word, where it is one of these.
    pub fn get(&self, word: &[u8]) -> Option<u32>
        ensures { result ≡ number_of self.now word.now }
    {
        match self.words.get_index_of(Sought { bytes: word }) {
            None => None,
            Some(index) => Some(index as u32 + 1),
        }
    }

    /// The number of a word, which is the next one where the word is new. Where memory is short nothing changes.
    pub fn insert(&mut self, word: &[u8]) -> Result<u32, AllocError>
        requires { length self.old < 2 ^ 32 - 1 }
        ensures number { IfOk result (λ number. number_of self.new word.now ≡ Some number) }
        ensures words { OnOk result (self.new ≡ with_word self.old word.now) }
        ensures unchanged { OnErr result (self.new ≡ self.old) }
    {
        let bytes = Vec::from_slice(self.alloc, word)?;
        let (index, _) = self.words.insert_full(Key { bytes })?;
        Ok(index as u32 + 1)
    }
}
