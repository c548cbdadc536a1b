//! Writing records.

ghost use Rattle.std.specs.Prelude.{◌≡◌, ◌++◌, OnOk, IfOk};
ghost use Rattle.rex_ballot.specs.Proposals.{IsValue};
ghost use Rattle.rex_durable.specs.Spelling.{HasSpelling, code_of, content, record_bytes};
ghost use Rattle.rex_durable.specs.declared.records.Rec.TheVariants.{Accepted};

use crate::layout::{ACCEPTED, CHECKPOINT, DROPPED, KNOWN, LONGEST_HEAD, PROMISED, TRANSFERRED};
use crate::records::Rec;
use rex_wire::{Writer, write_value};
use std::alloc::{AllocError, Global};

/// The number of a record's kind.
fn code(rec: &Rec) -> u8
    ensures { result ≡ code_of rec.now }
{
    match rec {
        Rec::Promised { .. } => PROMISED,
        Rec::Accepted { .. } => ACCEPTED,
        Rec::Known { .. } => KNOWN,
        Rec::Checkpoint { .. } => CHECKPOINT,
        Rec::Dropped { .. } => DROPPED,
        Rec::Transferred { .. } => TRANSFERRED,
    }
}

fn accepted(writer: &mut Writer, ballot: u64, instance: u32, value: &[u8]) -> Result<(), AllocError>
    requires { IsValue value.now }
    ensures { OnOk result (writer.new ≡ writer.old ++ content (Accepted ballot instance value.now)) }
{
    writer.u64(ballot)?;
    writer.u32(instance)?;
    write_value(writer, value)
}

/// What follows the number of the kind.
fn fields(writer: &mut Writer, rec: &Rec) -> Result<(), AllocError>
    requires { HasSpelling rec.now }
    ensures { OnOk result (writer.new ≡ writer.old ++ content rec.now) }
{
    match rec {
        Rec::Promised { ballot } => writer.u64(*ballot),
        Rec::Accepted {
            ballot,
            instance,
            value,
        } => accepted(writer, *ballot, *instance, value.as_slice()),
        Rec::Known { instance, value } => {
            writer.u32(*instance)?;
            write_value(writer, value.as_slice())
        }
        Rec::Checkpoint { deltas, snapshot } => {
            writer.u32(*deltas)?;
            write_value(writer, snapshot.as_slice())
        }
        Rec::Dropped { deltas } => writer.u32(*deltas),
        Rec::Transferred { deltas, snapshot } => {
            writer.u32(*deltas)?;
            write_value(writer, snapshot.as_slice())
        }
    }
}

/// How many bytes the record's value or state has; 0 where it has none.
fn value_len(rec: &Rec) -> usize {
    match rec {
        Rec::Accepted { value, .. } | Rec::Known { value, .. } => value.len(),
        Rec::Checkpoint { snapshot, .. } | Rec::Transferred { snapshot, .. } => snapshot.len(),
        Rec::Promised { .. } | Rec::Dropped { .. } => 0,
    }
}

/// The one spelling of the record.
pub fn encode(alloc: Global, rec: &Rec) -> Result<Vec<u8>, AllocError>
    requires { HasSpelling rec.now }
    ensures { IfOk result (λ v. v.items ≡ record_bytes rec.now) }
{
    let mut writer = Writer::with_capacity(alloc, value_len(rec).saturating_add(LONGEST_HEAD))?;
    writer.u8(code(rec))?;
    fields(&mut writer, rec)?;
    Ok(writer.into_vec())
}
