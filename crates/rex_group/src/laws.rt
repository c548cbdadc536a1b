//! What follows from how groups are laid out, for any bytes. The function is the statement that its contract makes, and does nothing.

ghost use Rattle.rex_group.specs.Laws.{HoldAllOne, HoldsOne};

/// A record holds one list of records only, and so does a list of them.
pub fn groups_hold_one_list()
    ensures each { HoldsOne }
    ensures all { HoldAllOne }
{}
