//! What is held at a line of a handler that passes the check, traced back to the handler's first line.

ghost use Rattle.std.specs.Prelude.{◌≡◌, ℕ, ◌-◌, ◌<◌, ◌≤◌, List, length, Option, Some};
ghost use Rattle.std.specs.Bool.{Decides};
ghost use Rattle.rex_syntax.specs.declared.locks.Lockset.{Lockset as TheLockset};
ghost use Rattle.rex_syntax.specs.declared.service.Declarations.{Declarations};
ghost use Rattle.rex_syntax.specs.Shape.{branch_of, is_divider};
ghost use Rattle.rex_syntax.specs.Flow.{entry, IsFlow};
ghost use Rattle.rex_syntax.specs.Held.{held_after, NamesLock, IsTraceable, ForksTo, ForksBy};

use crate::line::Line;
use crate::locks::{Lockset, Mode};

/// What is held at the next line, where a line leads there with this held.
fn held_after(line: &Line, held: Lockset) -> Lockset
    requires { NamesLock line.now }
    ensures { result ≡ held_after line.now held }
{
    match line {
        Line::Acquire { lock } | Line::Try { lock, .. } => held.with(*lock, Mode::Exclusive),
        Line::Share { lock } => held.with(*lock, Mode::Shared),
        Line::Release { lock } => held.with(*lock, Mode::Free),
        _ => held,
    }
}

/// Whether the line ends the first branch of an `if` or a `try`.
fn is_divider(line: &Line) -> bool
    ensures { result ≡ is_divider line.now }
{
    match line {
        Line::Else { .. } | Line::Busy { .. } => true,
        _ => false,
    }
}

/// Whether the line is an `if` or a `try` that goes on at this place where it doesn't take its first branch.
fn forks_to(line: &Line, place: u16) -> bool
    ensures { Decides result (branch_of line.now ≡ Some place) }
{
    match line {
        Line::If { otherwise, .. } => *otherwise == place,
        Line::Try { busy, .. } => *busy == place,
        _ => false,
    }
}

/// The line before this place that goes on there where it doesn't take its first branch.
fn fork_of(lines: &[Line], place: u16) -> u16
    requires some { 0 < place }
    requires there { place < length lines.now }
    requires forks { ForksBy lines.now place (place - 1) }
    ensures earlier { result < place }
    ensures forks { ForksTo lines.now place result }
{
    let mut from = place - 1;
    while !forks_to(&lines[from as usize], place) {
        from -= 1;
    }
    from
}

/// What is held at a line when a lane comes to it. A line after an `else` or a `busy` is come to from the `if` or the
/// `try` above, and each other line from the one before it.
pub(crate) fn held_at(lines: &[Line], place: u16) -> Lockset
    requires there { place < length lines.now }
    requires traceable { IsTraceable lines.now }
    ensures { (service : Declarations) (flow : List (Option TheLockset)) → IsFlow service lines.now flow → entry flow place ≡ Some result }
{
    if place == 0 {
        return Lockset::new();
    }
    let before = &lines[place as usize - 1];
    if is_divider(before) {
        held_at(lines, fork_of(lines, place))
    } else {
        held_after(before, held_at(lines, place - 1))
    }
}
