//! Reading and writing values: bytes with their length before them.

ghost use Rattle.std.specs.Prelude.{◌≡◌, ◌≤◌, ◌++◌, length, OnOk};
ghost use Rattle.rex_wire.specs.Decoding.{ReadsOn};
ghost use Rattle.rex_wire.specs.Reading.{value_at};
ghost use Rattle.rex_wire.specs.Spelling.{value_bytes};

use crate::allowed::u32_at_most;
use crate::fault::DecodeError;
use crate::reader::Reader;
use crate::writer::Writer;
use rex_ballot::VALUE_BYTES;
use rex_list::List;
use std::alloc::{AllocError, Global};

/// A value: its length, a number of 32 bits, and its bytes, whatever they are.
#[tactic(auto, unfolding(crate::specs::Reading::value_at))]
pub fn read_value(alloc: Global, reader: &mut Reader) -> Result<List<u8>, DecodeError>
    ensures { ReadsOn result reader.new (value_at reader.old) }
{
    let length = u32_at_most(reader, VALUE_BYTES)?;
    let bytes = reader.bytes(length as usize)?;
    Ok(List::from_vec(bytes.to_vec(alloc)?))
}

/// Writes a value. Where memory is short, its length may be written without its bytes.
pub fn write_value(writer: &mut Writer, value: &[u8]) -> Result<(), AllocError>
    requires { length value.now ≤ VALUE_BYTES }
    ensures { OnOk result (writer.new ≡ writer.old ++ value_bytes value.now) }
{
    writer.u32(value.len() as u32)?;
    writer.bytes(value)
}
