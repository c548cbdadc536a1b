//! What declared names stand for.

ghost use Rattle.std.specs.Prelude.{◌≡◌, ◌++◌, ◌∷◌, [], None, find, option_map, slice_get, true, IfSome, OnOk};
ghost use Rattle.std.specs.Str.{bytes_eq};
ghost use Rattle.rex_parse.specs.Above.{meaning_in};
ghost use Rattle.rex_parse.specs.Words.{is_name};

use crate::language::Meaning;
use rex_syntax::names::Names;
use std::alloc::{AllocError, Global};
use std::marker::Model;

/// What each declared name stands for, found in a time that doesn't grow with the number of names. Contracts see it as
/// the entries in order of declaration.
#[derive(Drop)]
pub struct NameTable {
    names: Names,
    /// What the names stand for, in the same order.
    meanings: Vec<Meaning>,
}

impl Model for NameTable {
    ghost use Rattle.std.specs.Prelude.{List};
    ghost use Rattle.rex_parse.specs.declared.language.Entry.{Entry};
    ghost use Rattle.rex_parse.specs.Entries.{entries_of, AreNamed};

    ghost Value = { List Entry };

    ghost view = { λ t. entries_of t.names t.meanings.items };

    ghost invariant = { λ t. AreNamed t.names t.meanings.items };
}

impl NameTable {
    /// No names.
    pub fn new(alloc: Global) -> NameTable
        ensures { result ≡ [] }
    {
        NameTable {
            names: Names::new(alloc),
            meanings: Vec::new(alloc),
        }
    }

    /// What a name stands for.
    pub fn get(&self, name: &[u8]) -> Option<Meaning>
        ensures meaning { result ≡ option_map meaning_in (find (λ e. bytes_eq e.name name.now) self.now) }
        ensures named { IfSome result (λ _. is_name name.now ≡ true) }
    {
        match self.names.get(name) {
            None => None,
            Some(number) => meaning_at(&self.meanings, number as usize - 1),
        }
    }

    /// A name that isn't there goes last.
    pub fn insert(&mut self, name: &[u8], meaning: Meaning) -> Result<(), AllocError>
        requires name { is_name name.now ≡ true }
        requires new { find (λ e. bytes_eq e.name name.now) self.old ≡ None }
        ensures { OnOk result (self.new ≡ self.old ++ (record { name = name.now; meaning = meaning }) ∷ []) }
    {
        if self.meanings.len() >= u32::MAX as usize {
            return Err(AllocError);
        }
        self.meanings.push(meaning)?;
        if let Err(error) = self.names.insert(name) {
            self.meanings.pop();
            return Err(error);
        }
        Ok(())
    }
}

fn meaning_at(meanings: &[Meaning], place: usize) -> Option<Meaning>
    ensures { result ≡ slice_get meanings.now place }
{
    meanings.get(place).copied()
}
