//! What holds of all keepers. Each function is the statement that its contract makes, and does nothing.

ghost use Rattle.rex_traits.specs.Chains.{AreChained};

use crate::Keeper;

/// Appends one after the other are one chain of appends.
pub fn appends_are_chained<K: Keeper>()
    ensures { AreChained K.append_gives }
{}
