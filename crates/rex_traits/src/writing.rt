//! Writing a whole output to a sink, piece by piece.

ghost use Rattle.std.specs.Prelude.{◌≡◌, ◌≤◌, ◌++◌, OnOk, IsErrOf};
ghost use Rattle.rex_traits.specs.Causes.{Rose};
ghost use Rattle.rex_traits.specs.Growth.{GrowsByFront};
ghost use Rattle.rex_traits.specs.declared.sink.SinkFault.TheVariants as fault;

use crate::{Sink, SinkFault};

/// Writes all the bytes, piece by piece. After an error a front of them was written.
pub fn write_all<K: Sink>(sink: &mut K, bytes: &[u8]) -> Result<(), SinkFault>
    ensures whole { OnOk result (K.taken sink.new ≡ K.taken sink.old ++ bytes.now) }
    ensures front { GrowsByFront (K.taken sink.old) (K.taken sink.new) bytes.now }
    ensures later { K.faults sink.old ≤ K.faults sink.new }
    ensures failed { IsErrOf result fault.Failed → Rose (K.faults sink.old) (K.faults sink.new) }
{
    let mut at = 0;
    while at < bytes.len() {
        at += sink.write(&bytes[at..])?;
    }
    Ok(())
}
