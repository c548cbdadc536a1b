//! Reading a source to its end, or to one byte more than an input may have.

ghost use Rattle.std.specs.Prelude.{◌≡◌, ◌+◌, ◌++◌, ◌≤◌, length, IfOk, IsErrOf};
ghost use Rattle.rex_traits.specs.declared.reading.TheConstants.{READ_BYTES};
ghost use Rattle.rex_traits.specs.Causes.{Rose, TellsAlike};
ghost use Rattle.rex_traits.specs.Growth.{Grows};
ghost use Rattle.rex_traits.specs.Inputs.{IsWholeInput};
ghost use Rattle.rex_traits.specs.declared.reading.ReadFault.TheVariants as fault;

use crate::Source;
use std::alloc::Global;

/// Why an input was not read.
#[derive(Clone, Copy, Debug, PartialEq, Eq)]
pub enum ReadFault {
    Failed,
    OutOfMemory,
}

/// The most bytes that are read of a source: one more than an input may have.
pub const READ_BYTES: usize = 4_194_305;

/// The most bytes that are asked for at once.
const PIECE: usize = 65_536;

/// What was read, and in how many turns.
#[derive(Drop)]
pub struct Input {
    pub bytes: Vec<u8>,
    pub turns: usize,
}

/// Reads a source to its end, or `READ_BYTES` bytes of it. Each turn makes one read, and each but the last takes at least a byte.
pub fn read_input<S: Source>(alloc: Global, source: &mut S) -> Result<Input, ReadFault>
    ensures given { IfOk result (λ i. S.given source.new ≡ S.given source.old ++ i.bytes.items) }
    ensures whole { IfOk result (λ i. IsWholeInput (S.ended source.new) (S.left source.old) (S.left source.new) i.bytes.items) }
    ensures grows { Grows (S.given source.old) (S.given source.new) }
    ensures most { IfOk result (λ i. length i.bytes.items ≤ READ_BYTES) }
    ensures turns { IfOk result (λ i. i.turns ≤ length i.bytes.items + 1) }
    ensures few_turns { IfOk result (λ i. i.turns ≤ READ_BYTES) }
    ensures read_in_turns { IfOk result (λ i. S.calls source.new ≤ S.calls source.old + i.turns) }
    ensures few_reads { S.calls source.new ≤ S.calls source.old + READ_BYTES }
    ensures told { TellsAlike (S.left source.old) (S.left source.new) }
    ensures later { S.faults source.old ≤ S.faults source.new }
    ensures failed { IsErrOf result fault.Failed → Rose (S.faults source.old) (S.faults source.new) }
{
    let mut bytes = Vec::new(alloc);
    let mut buf = [0; PIECE];
    for turn in 0..READ_BYTES {
        let room = PIECE.min(READ_BYTES - bytes.len());
        match source.read(&mut buf[..room]) {
            Ok(0) => return Ok(Input {
                bytes,
                turns: turn + 1,
            }),
            Ok(count) => {
                if bytes.extend_from_slice(&buf[..count]).is_err() {
                    return Err(ReadFault::OutOfMemory);
                }
            }
            Err(_) => return Err(ReadFault::Failed),
        }
    }
    Ok(Input {
        bytes,
        turns: READ_BYTES,
    })
}
