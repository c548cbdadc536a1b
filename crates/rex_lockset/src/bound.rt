//! The most steps that a handler may take.

ghost use Rattle.std.specs.Prelude.{◌≡◌, ◌≤◌, ◌<◌, ◌+◌, ◌-◌, ◌^◌, IfOk, length, map, slice_index};
ghost use Rattle.rex_syntax.specs.Check.{other_of, bound_of, bounds as bounds_of, step_bound as step_bound_of};
ghost use Rattle.rex_lockset.specs.Bound.{capped};

use rex_syntax::line::Line;
use rex_syntax::service::{LINES, STEPS};
use std::alloc::{AllocError, Global};

/// The other line to which a line may lead, or the next one.
fn other_line(line: &Line, place: usize) -> usize
    requires { place < 2 ^ 32 }
    ensures { result ≡ other_of line.now place }
{
    match line {
        Line::If { otherwise, .. } => *otherwise as usize,
        Line::Try { busy, .. } => *busy as usize,
        Line::Else { end } | Line::Busy { end } => *end as usize,
        Line::Repeat { after, .. } => *after as usize,
        _ => place + 1,
    }
}

/// The steps from a line on, by those from the next line and from the other one.
fn line_bound(line: &Line, next: u64, other: u64) -> u64
    requires next { next ≤ STEPS + 1 }
    requires other { other ≤ STEPS + 1 }
    ensures { result ≡ capped (bound_of line.now next other) }
{
    let bound = match line {
        Line::Else { .. } | Line::Busy { .. } => other,
        Line::EndIf | Line::EndTry => next,
        Line::EndRepeat => 0,
        Line::Repeat { turns, .. } => 1 + u64::from(*turns) * (next + 1) + other,
        Line::Reply { .. } => 1,
        _ => 1 + next.max(other),
    };
    bound.min(STEPS + 1)
}

/// The bound on the steps of a handler with these lines, where all above the most count as one more.
pub fn step_bound(alloc: Global, lines: &[Line]) -> Result<u64, AllocError>
    requires { length lines.now ≤ LINES }
    ensures { IfOk result (λ bound. bound ≡ capped (step_bound_of lines.now)) }
{
    let mut bounds = vec![in alloc; 0u64; lines.len()]?;
    fill_bounds(lines, &mut bounds);
    Ok(bounds.first().copied().unwrap_or(0))
}

/// Writes the bound from each line on, from the last one to the first.
fn fill_bounds(lines: &[Line], bounds: &mut [u64])
    requires short { length lines.now ≤ LINES }
    requires long { length bounds.old ≡ length lines.now }
    ensures { bounds.new ≡ map capped (bounds_of 0 lines.now) }
{
    let mut place = lines.len();
    while place > 0 {
        place -= 1;
        let line = &lines[place];
        let after = &bounds[place + 1..];
        let next = bound_at(after, 0);
        let other = bound_at(after, other_line(line, place).saturating_sub(place + 1));
        bounds[place] = line_bound(line, next, other);
    }
}

/// A bound of those that are known, and 0 past them.
fn bound_at(bounds: &[u64], place: usize) -> u64
    ensures { result ≡ slice_index bounds.now place }
{
    bounds.get(place).copied().unwrap_or(0)
}
