//! Reading ballots and instances.

ghost use Rattle.std.specs.Prelude.{◌==◌, ◌&&◌, ◌+◌, max, nat_lt};
ghost use Rattle.std.specs.Int.{w32, w64};
ghost use Rattle.rex_ballot.specs.Ballot.{is_ballot, is_instance};
ghost use Rattle.rex_wire.specs.Decoding.{ReadsOn};
ghost use Rattle.rex_wire.specs.Ranges.{is_between};
ghost use Rattle.rex_wire.specs.Reading.{allowed_at};

use rex_wire::{DecodeError, Reader};

/// A number that is a ballot.
pub fn ballot(reader: &mut Reader) -> Result<u64, DecodeError>
    ensures { ReadsOn result reader.new (allowed_at w64 is_ballot reader.old) }
{
    let at = reader.at();
    let n = reader.u64()?;
    if !rex_ballot::is_ballot(n) {
        return Err(DecodeError::Bad { at });
    }
    Ok(n)
}

/// A number that is an instance.
pub fn instance(reader: &mut Reader) -> Result<u32, DecodeError>
    ensures { ReadsOn result reader.new (allowed_at w32 is_instance reader.old) }
{
    let at = reader.at();
    let n = reader.u32()?;
    if !rex_ballot::is_instance(n) {
        return Err(DecodeError::Bad { at });
    }
    Ok(n)
}

/// The instance after so many known ones.
pub fn next_instance(reader: &mut Reader, count: u32) -> Result<u32, DecodeError>
    ensures { ReadsOn result reader.new (allowed_at w32 (λ n. is_instance n && n == count + 1) reader.old) }
{
    let at = reader.at();
    let n = reader.u32()?;
    if !rex_ballot::is_instance(n) || n - 1 != count {
        return Err(DecodeError::Bad { at });
    }
    Ok(n)
}

/// A number from 1 and this one to that one.
pub fn number_within(reader: &mut Reader, least: u32, greatest: u32) -> Result<u32, DecodeError>
    ensures { ReadsOn result reader.new (allowed_at w32 (is_between (max 1 least) greatest) reader.old) }
{
    let at = reader.at();
    let n = reader.u32()?;
    if n < 1_u32.max(least) || greatest < n {
        return Err(DecodeError::Bad { at });
    }
    Ok(n)
}

/// The instance that is the base, where it is above the offset.
pub fn base_above(reader: &mut Reader, offset: u32, base: u32) -> Result<u32, DecodeError>
    ensures { ReadsOn result reader.new (allowed_at w32 (λ n. is_instance n && (nat_lt offset n && n == base)) reader.old) }
{
    let at = reader.at();
    let n = reader.u32()?;
    if !rex_ballot::is_instance(n) || n <= offset || n != base {
        return Err(DecodeError::Bad { at });
    }
    Ok(n)
}

/// An instance above so many known ones.
pub fn instance_above(reader: &mut Reader, count: u32) -> Result<u32, DecodeError>
    ensures { ReadsOn result reader.new (allowed_at w32 (λ n. is_instance n && nat_lt count n) reader.old) }
{
    let at = reader.at();
    let n = reader.u32()?;
    if !rex_ballot::is_instance(n) || n <= count {
        return Err(DecodeError::Bad { at });
    }
    Ok(n)
}
