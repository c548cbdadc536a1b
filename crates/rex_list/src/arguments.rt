//! The arguments of a request: a list of at most four numbers that takes no memory.

ghost use Rattle.std.specs.Prelude.{◌≡◌, ◌<◌, ◌++◌, ◌∷◌, [], length, ◌≤◌, ◌==◌};

use std::marker::Model;

/// The most arguments that a request has.
pub const ARGUMENTS: usize = 4;

/// The arguments of a request. A value that takes no memory and is copied.
#[derive(Clone, Copy, PartialEq, Eq)]
pub struct Arguments {
    values: [i64; ARGUMENTS],
    count: u8,
}

impl Model for Arguments {
    ghost use Rattle.std.specs.Prelude.{List, ℤ, pos, replicate, length, ◌++◌, ◌-◌};
    ghost use Rattle.rex_list.specs.Arguments.{arguments_view, IsArguments};
    ghost use Rattle.rex_list.specs.declared.arguments.TheConstants.{ARGUMENTS};
    ghost use Rattle.rex_list.specs.Inverse.{inverse_undoes};

    ghost Value = { List ℤ };

    ghost view = { λ a. arguments_view a.values a.count };

    ghost invariant = { λ a. IsArguments a.values a.count };

    ghost inverse = { λ xs. record { values = xs ++ replicate (ARGUMENTS - length xs) (pos 0); count = length xs } };

    ghost inverse_ok = { λ a h. inverse_undoes a.values a.count h };
}

impl Arguments {
    /// No arguments.
    pub fn new() -> Arguments
        ensures { result ≡ [] }
    {
        Arguments {
            values: [0; ARGUMENTS],
            count: 0,
        }
    }

    pub fn len(&self) -> usize
        ensures { result ≡ length self.now }
    {
        self.count as usize
    }

    pub fn is_empty(&self) -> bool
        ensures { result ≡ (length self.now == 0) }
    {
        self.count == 0
    }

    pub fn as_slice(&self) -> &[i64]
        ensures items { result.now ≡ self.now }
        ensures few { length self.now ≤ ARGUMENTS }
    {
        &self.values[..self.count as usize]
    }

    pub fn push(&mut self, value: i64)
        requires { length self.old < ARGUMENTS }
        ensures { self.new ≡ self.old ++ value ∷ [] }
    {
        self.values[self.count as usize] = value;
        self.count += 1;
    }
}
