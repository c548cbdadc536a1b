//! A list of values beside bytes, as clauses see it.

ghost use Rattle.std.specs.Prelude.{[], List};
ghost use Rattle.rex_cluster.specs.Values.{Value};

use std::marker::Brand;

/// A list of values that clauses name beside the bytes of records and messages: a state that was taken over, or that is told, is
/// the one after so many first values of the list, which the bytes don't hold. It takes no bytes, and a function over a past
/// is proved for every list.
pub trait Past {
    ghost past: { List Value };
}

impl Past for Brand {
    ghost past = { [] };
}
