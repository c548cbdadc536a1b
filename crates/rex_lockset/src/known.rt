//! What is known of what is held at a line.

ghost use Rattle.std.specs.Prelude.{◌≡◌};
ghost use Rattle.rex_lockset.specs.Known.{joined};

use rex_syntax::locks::Lockset;

/// What is known of what is held at a line, from the lines before it that lead there.
#[derive(Clone, Copy)]
pub(crate) enum Known {
    /// No line leads there so far.
    Nothing,
    /// Those that lead there do so with this lockset.
    Held(Lockset),
    /// Two lead there with different locksets.
    Differs,
}

impl Known {
    /// What is known once one more line leads there.
    pub(crate) fn joined(self, held: Lockset) -> Known
        ensures { result ≡ joined self held }
    {
        match self {
            Known::Nothing => Known::Held(held),
            Known::Held(before) => {
                if before.is_same(&held) {
                    self
                } else {
                    Known::Differs
                }
            }
            Known::Differs => Known::Differs,
        }
    }
}
