//! The lines of agreed values.

ghost use Rattle.std.specs.Prelude.{◌≡◌, ◌≤◌, ◌++◌, length, OnOk};
ghost use Rattle.rex_report.specs.Trace.{delta_text};
ghost use Rattle.rex_cluster.specs.Values as values;
ghost use Rattle.rex_cluster.specs.Values.{delta_of};
ghost use Rattle.rex_steps.specs.Tracing.{values_text};

use rex_ballot::{INSTANCES, Value};
use rex_delta::{DecodeError, decode};
use rex_event::Delta;
use rex_list::List;
use rex_report::push_delta;
use rex_syntax::service::Declarations;
use std::alloc::{AllocError, Global};

// Appends the lines of an agreed value.
fn push_value(
    out: &mut Vec<u8>,
    alloc: Global,
    service: &Declarations,
    instance: u32,
    value: &[u8],
) -> Result<(), AllocError>
    ensures { OnOk result (out.new.items ≡ out.old.items ++ delta_text service.now instance (delta_of value.now)) }
{
    match decode(alloc, value) {
        Ok(delta) => push_delta(out, service, instance, &delta),
        Err(DecodeError::OutOfMemory) => Err(AllocError),
        Err(DecodeError::Bad { .. }) => push_delta(out, service, instance, &no_delta(alloc)),
    }
}

// A delta of nothing.
fn no_delta(alloc: Global) -> Delta
    ensures { result ≡ values.no_delta }
{
    Delta {
        bases: List::new(alloc),
        events: List::new(alloc),
        causes: List::new(alloc),
    }
}

/// Appends the lines of agreed values, of which the first has instance 1: for each its delta, with its causes.
pub fn push_values(
    out: &mut Vec<u8>,
    alloc: Global,
    service: &Declarations,
    values: &[Value],
) -> Result<(), AllocError>
    requires { length values.now ≤ INSTANCES }
    ensures { OnOk result (out.new.items ≡ out.old.items ++ values_text service.now 1 values.now) }
{
    for place in 0..values.len() {
        let value = &values[place];
        push_value(out, alloc, service, place as u32 + 1, value.as_slice())?;
    }
    Ok(())
}
