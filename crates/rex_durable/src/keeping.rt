//! Appending a record to a keeper.

ghost use Rattle.std.specs.Prelude.{◌<◌, ◌-◌, ◌^◌};
ghost use Rattle.rex_traits.specs.Causes.{HasCause};
ghost use Rattle.rex_traits.specs.Keeping.{AppendsRecord, IsKeeperFault, StandsUnlessFailed};
ghost use Rattle.rex_durable.specs.Spelling.{HasSpelling, record_bytes};

use crate::records::Rec;
use crate::write::encode;
use rex_traits::{KeepFault, Keeper};
use std::alloc::Global;

/// Appends the spelling of a record to a keeper. The bytes are made before anything is appended.
pub fn append<K: Keeper>(alloc: Global, keeper: &mut K, rec: &Rec) -> Result<(), KeepFault>
    requires count { K.faults keeper.old < 2 ^ 64 - 1 }
    requires spelling { HasSpelling rec.now }
    ensures records { AppendsRecord (K.records keeper.old) (K.records keeper.new) (record_bytes rec.now) result }
    ensures cause { HasCause IsKeeperFault (K.faults keeper.old) (K.faults keeper.new) result }
    ensures stands { StandsUnlessFailed (K.faults keeper.old) (K.faults keeper.new) result }
    ensures gives { K.append_gives keeper.old (record_bytes rec.now) result keeper.new }
{
    match encode(alloc, rec) {
        Ok(bytes) => keeper.append(&bytes),
        Err(_) => Err(KeepFault::OutOfMemory),
    }
}
