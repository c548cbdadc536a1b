//! Causes that are the same.

ghost use Rattle.std.specs.Prelude.{◌≡◌};
ghost use Rattle.rex_cluster.specs.Same as same;

use rex_event::Cause;
use rex_list::List;

// Whether two events have the same causes.
fn has_same(first: &[Cause], second: &[Cause]) -> bool
    ensures { result ≡ same.same_causes first.now second.now }
{
    let mut left = first;
    let mut right = second;
    while let [cause, causes @ ..] = left {
        let [other, others @ ..] = right else {
            return false;
        };
        if cause.lane != other.lane || cause.index != other.index {
            return false;
        }
        left = causes;
        right = others;
    }
    right.is_empty()
}

/// Whether two lists of events have the same causes.
pub(crate) fn have_same(first: &[List<Cause>], second: &[List<Cause>]) -> bool
    ensures { result ≡ same.same_lists first.now second.now }
{
    let mut left = first;
    let mut right = second;
    while let [causes, rest @ ..] = left {
        let [other, others @ ..] = right else {
            return false;
        };
        if !has_same(causes.as_slice(), other.as_slice()) {
            return false;
        }
        left = rest;
        right = others;
    }
    right.is_empty()
}
