//! Reading nodes, ballots and instances.

ghost use Rattle.std.specs.Prelude.{nat_lt, IfOk};
ghost use Rattle.std.specs.Int.{w8, w32, w64};
ghost use Rattle.rex_ballot.specs.Ballot as spec;
ghost use Rattle.rex_ballot.specs.Ballot.{IsInstance};
ghost use Rattle.rex_wire.specs.Decoding.{ReadsOn};
ghost use Rattle.rex_wire.specs.Reading.{allowed_at};
ghost use Rattle.rex_msg.specs.Reading.{is_other_node, is_instance_from};

use rex_ballot::{is_ballot, is_instance, is_node};
use rex_wire::{DecodeError, Reader};

/// A node.
pub fn node(reader: &mut Reader) -> Result<u8, DecodeError>
    ensures { ReadsOn result reader.new (allowed_at w8 spec.is_node reader.old) }
{
    let at = reader.at();
    let n = reader.u8()?;
    if !is_node(n) {
        return Err(DecodeError::Bad { at });
    }
    Ok(n)
}

/// Another node than this one.
pub fn other_node(reader: &mut Reader, node: u8) -> Result<u8, DecodeError>
    ensures { ReadsOn result reader.new (allowed_at w8 (is_other_node node) reader.old) }
{
    let at = reader.at();
    let n = reader.u8()?;
    if !is_node(n) || n == node {
        return Err(DecodeError::Bad { at });
    }
    Ok(n)
}

/// A ballot.
pub fn ballot(reader: &mut Reader) -> Result<u64, DecodeError>
    ensures { ReadsOn result reader.new (allowed_at w64 spec.is_ballot reader.old) }
{
    let at = reader.at();
    let n = reader.u64()?;
    if !is_ballot(n) {
        return Err(DecodeError::Bad { at });
    }
    Ok(n)
}

/// A promise above a ballot.
pub fn promise_above(reader: &mut Reader, ballot: u64) -> Result<u64, DecodeError>
    ensures { ReadsOn result reader.new (allowed_at w64 (nat_lt ballot) reader.old) }
{
    let at = reader.at();
    let n = reader.u64()?;
    if n <= ballot {
        return Err(DecodeError::Bad { at });
    }
    Ok(n)
}

/// An instance.
pub fn instance(reader: &mut Reader) -> Result<u32, DecodeError>
    ensures { ReadsOn result reader.new (allowed_at w32 spec.is_instance reader.old) }
{
    let at = reader.at();
    let n = reader.u32()?;
    if !is_instance(n) {
        return Err(DecodeError::Bad { at });
    }
    Ok(n)
}

/// An instance from this one on.
pub fn instance_from(reader: &mut Reader, least: u32) -> Result<u32, DecodeError>
    ensures read { ReadsOn result reader.new (allowed_at w32 (is_instance_from least) reader.old) }
    ensures instance { IfOk result (λ n. IsInstance n) }
{
    let at = reader.at();
    let n = reader.u32()?;
    if n < least || !is_instance(n) {
        return Err(DecodeError::Bad { at });
    }
    Ok(n)
}
