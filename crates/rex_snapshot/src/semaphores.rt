//! The values of semaphores, both ways.

ghost use Rattle.std.specs.Prelude.{◌≡◌, ◌++◌, OnOk};
ghost use Rattle.std.specs.List.{flat_map};
ghost use Rattle.rex_wire.specs.Decoding.{ReadsOn};
ghost use Rattle.rex_snapshot.specs.Semaphores.{level_bytes, level_at, levels_at};

use rex_list::List;
use rex_state::MOST_VALUE;
use rex_wire::{DecodeError, Reader, Writer, u32_at_most};
use std::alloc::{AllocError, Global};

/// The value of a semaphore.
fn level(reader: &mut Reader) -> Result<u32, DecodeError>
    ensures { ReadsOn result reader.new (level_at reader.old) }
{
    u32_at_most(reader, MOST_VALUE)
}

/// As many of them.
pub fn read_semaphores(
    alloc: Global,
    reader: &mut Reader,
    count: usize,
) -> Result<List<u32>, DecodeError>
    ensures { ReadsOn result reader.new (levels_at count reader.old) }
{
    let mut levels = List::new(alloc);
    for _ in 0..count {
        let level = level(reader)?;
        levels.push(level)?;
    }
    Ok(levels)
}

/// Writes them one after the other.
pub fn write_semaphores(writer: &mut Writer, levels: &[u32]) -> Result<(), AllocError>
    ensures { OnOk result (writer.new ≡ writer.old ++ flat_map level_bytes levels.now) }
{
    for level in levels {
        writer.u32(*level)?;
    }
    Ok(())
}
