//! Writing the variables' values.

ghost use Rattle.std.specs.Prelude.{◌≡◌, ◌<◌, ◌+◌, ◌++◌, ◌^◌, length, OnOk, FitsSigned};
ghost use Rattle.std.specs.Int.{w64};
ghost use Rattle.std.specs.List.{All, flat_map};
ghost use Rattle.rex_snapshot.specs.Changes as spec;
ghost use Rattle.rex_snapshot.specs.Spelling.{change_bytes, changes_bytes, variables_bytes};

use crate::write_lanes::values as whole;
use rex_syntax::checked::Checked;
use rex_syntax::version::Version;
use rex_wire::Writer;
use std::alloc::AllocError;

/// How many of one variable are written: 1 if its value isn't the first, and else none.
fn count_if(_variable: usize, first: i64, value: i64) -> usize
    ensures { result ≡ length (spec.change_if _variable first value) }
{
    if value == first { 0 } else { 1 }
}

/// How many variables' values aren't the first.
fn change_count(svc: &Checked, values: &[i64]) -> usize
    requires { length values.now ≡ length svc.now.variables }
    ensures { result ≡ length (spec.changes_of svc.now values.now) }
{
    let variables = svc.declarations().variables.as_slice();
    let mut count = 0;
    for n in 0..values.len() {
        count += count_if(n, variables[n].first, values[n]);
    }
    count
}

/// A variable with its value.
fn change(writer: &mut Writer, variable: u16, value: i64) -> Result<(), AllocError>
    requires { variable + 1 < 2 ^ 16 }
    ensures { OnOk result (writer.new ≡ writer.old ++ change_bytes (spec.change_of variable value)) }
{
    writer.u16(variable + 1)?;
    writer.i64(value)
}

/// A variable with its value, if that isn't the first.
fn change_if(writer: &mut Writer, variable: u16, first: i64, value: i64) -> Result<(), AllocError>
    requires { variable + 1 < 2 ^ 16 }
    ensures { OnOk result (writer.new ≡ writer.old ++ flat_map change_bytes (spec.change_if variable first value)) }
{
    if value == first {
        return Ok(());
    }
    change(writer, variable, value)
}

/// The variables whose values aren't the first, with their values.
fn changes(writer: &mut Writer, svc: &Checked, values: &[i64]) -> Result<(), AllocError>
    requires { length values.now ≡ length svc.now.variables }
    ensures spelled { OnOk result (writer.new ≡ writer.old ++ flat_map change_bytes (spec.changes_of svc.now values.now)) }
    ensures typed { OnOk result (All (FitsSigned w64) values.now) }
{
    let variables = svc.declarations().variables.as_slice();
    for n in 0..values.len() as u16 {
        change_if(writer, n, variables[n as usize].first, values[n as usize])?;
    }
    Ok(())
}

/// How many variables' values aren't the first, and those.
fn changed(writer: &mut Writer, svc: &Checked, values: &[i64]) -> Result<(), AllocError>
    requires { length values.now ≡ length svc.now.variables }
    ensures spelled { OnOk result (writer.new ≡ writer.old ++ changes_bytes (spec.changes_of svc.now values.now)) }
    ensures typed { OnOk result (All (FitsSigned w64) values.now) }
{
    let _service = svc.declarations();
    writer.u16(change_count(svc, values) as u16)?;
    changes(writer, svc, values)
}

/// The variables' values, as the version has them.
pub fn variables(
    writer: &mut Writer,
    svc: &Checked,
    version: Version,
    values: &[i64],
) -> Result<(), AllocError>
    requires { length values.now ≡ length svc.now.variables }
    ensures spelled { OnOk result (writer.new ≡ writer.old ++ variables_bytes svc.now version values.now) }
    ensures typed { OnOk result (All (FitsSigned w64) values.now) }
{
    match version {
        Version::One => whole(writer, values),
        Version::Two => changed(writer, svc, values),
    }
}
