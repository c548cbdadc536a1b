//! Reading the variables' values.

ghost use Rattle.std.specs.Prelude.{◌≡◌, ◌≤◌, IfOk, length, FitsSigned};
ghost use Rattle.std.specs.Int.{w64};
ghost use Rattle.std.specs.List.{All};
ghost use Rattle.rex_wire.specs.Decoding.{ReadsOn};
ghost use Rattle.rex_snapshot.specs.Changes as spec;
ghost use Rattle.rex_snapshot.specs.Reading.{values_at, other_at, change_at, changes_at, changed_at, variables_at};

use crate::parts::Change;
use rex_list::List;
use rex_syntax::checked::Checked;
use rex_syntax::version::Version;
use rex_wire::{DecodeError, Reader, u16_between};
use std::alloc::{AllocError, Global};

/// As many values.
fn values(alloc: Global, reader: &mut Reader, count: usize) -> Result<List<i64>, DecodeError>
    ensures read { ReadsOn result reader.new (values_at count reader.old) }
    ensures typed { IfOk result (λ vs. All (FitsSigned w64) vs) }
{
    let mut values = List::new(alloc);
    for _ in 0..count {
        let value = reader.i64()?;
        values.push(value)?;
    }
    Ok(values)
}

/// A value that isn't the first one.
#[tactic(auto, unfolding(crate::specs::Reading::other_at))]
fn other(reader: &mut Reader, first: i64) -> Result<i64, DecodeError>
    ensures { ReadsOn result reader.new (other_at first reader.old) }
{
    let at = reader.at();
    let value = reader.i64()?;
    if value == first {
        return Err(DecodeError::Bad { at });
    }
    Ok(value)
}

/// A variable from this number on, with a value that isn't its first.
#[tactic(auto, unfolding(crate::specs::Reading::change_at))]
fn change(reader: &mut Reader, svc: &Checked, least: u16) -> Result<Change, DecodeError>
    requires { least ≤ length svc.now.variables }
    ensures read { ReadsOn result reader.new (change_at svc.now least reader.old) }
    ensures inside { IfOk result (spec.IsWithin (length svc.now.variables)) }
{
    let variables = svc.declarations().variables.as_slice();
    let n = u16_between(reader, least + 1, variables.len() as u16)?;
    let variable = n - 1;
    let value = other(reader, variables[variable as usize].first)?;
    Ok(Change { variable, value })
}

/// As many of them.
fn changes(
    alloc: Global,
    reader: &mut Reader,
    svc: &Checked,
    count: u16,
) -> Result<List<Change>, DecodeError>
    ensures read { ReadsOn result reader.new (changes_at svc.now count reader.old) }
    ensures inside { IfOk result (λ cs. All (spec.IsWithin (length svc.now.variables)) cs) }
{
    let _service = svc.declarations();
    let mut changes = List::new(alloc);
    let mut least = 0;
    for _ in 0..count {
        let change = change(reader, svc, least)?;
        least = change.variable + 1;
        changes.push(change)?;
    }
    Ok(changes)
}

/// The variables' first values.
fn firsts(alloc: Global, svc: &Checked) -> Result<Vec<i64>, AllocError>
    ensures values { IfOk result (λ v. v.items ≡ spec.firsts svc.now) }
    ensures typed { IfOk result (λ v. All (FitsSigned w64) v.items) }
{
    let mut firsts = Vec::new(alloc);
    for variable in svc.declarations().variables.as_slice() {
        firsts.push(variable.first)?;
    }
    Ok(firsts)
}

/// The first values, with those of these variables in their places.
fn with_changes(alloc: Global, svc: &Checked, changes: &[Change]) -> Result<List<i64>, AllocError>
    requires { All (spec.IsWithin (length svc.now.variables)) changes.now }
    ensures values { IfOk result (λ vs. vs ≡ spec.changed (spec.firsts svc.now) changes.now) }
    ensures typed { IfOk result (λ vs. All (FitsSigned w64) vs) }
{
    let mut values = firsts(alloc, svc)?;
    for change in changes {
        values[change.variable as usize] = change.value;
    }
    Ok(List::from_vec(values))
}

/// The values of which some aren't the first ones.
#[tactic(auto, unfolding(crate::specs::Reading::changed_at))]
fn changed(alloc: Global, reader: &mut Reader, svc: &Checked) -> Result<List<i64>, DecodeError>
    ensures read { ReadsOn result reader.new (changed_at svc.now reader.old) }
    ensures typed { IfOk result (λ vs. All (FitsSigned w64) vs) }
{
    let variables = svc.declarations().variables.len() as u16;
    let count = u16_between(reader, 0, variables)?;
    let changes = changes(alloc, reader, svc, count)?;
    let values = with_changes(alloc, svc, changes.as_slice())?;
    Ok(values)
}

/// The variables' values, as the version has them.
pub fn variables(
    alloc: Global,
    reader: &mut Reader,
    svc: &Checked,
    version: Version,
) -> Result<List<i64>, DecodeError>
    ensures read { ReadsOn result reader.new (variables_at svc.now version reader.old) }
    ensures typed { IfOk result (λ vs. All (FitsSigned w64) vs) }
{
    match version {
        Version::One => values(alloc, reader, svc.declarations().variables.len()),
        Version::Two => changed(alloc, reader, svc),
    }
}
