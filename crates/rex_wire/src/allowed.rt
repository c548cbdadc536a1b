//! Reading numbers that are allowed.

ghost use Rattle.std.specs.Prelude.{◌==◌, ◌≤◌, nat_le, IfOk, IfErr};
ghost use Rattle.std.specs.Int.{w8, w16, w32};
ghost use Rattle.rex_wire.specs.Decoding.{ReadsOn, IsBad};
ghost use Rattle.rex_wire.specs.Ranges.{is_between, IsBetween};
ghost use Rattle.rex_wire.specs.Reading.{allowed_at};

use crate::fault::DecodeError;
use crate::reader::Reader;

/// A number of 8 bits in a range.
pub fn u8_between(reader: &mut Reader, least: u8, greatest: u8) -> Result<u8, DecodeError>
    ensures read { ReadsOn result reader.new (allowed_at w8 (is_between least greatest) reader.old) }
    ensures between { IfOk result (λ n. IsBetween least greatest n) }
    ensures fault { IfErr result IsBad }
{
    let at = reader.at();
    let n = reader.u8()?;
    if n < least || greatest < n {
        return Err(DecodeError::Bad { at });
    }
    Ok(n)
}

/// A number of 16 bits in a range.
pub fn u16_between(reader: &mut Reader, least: u16, greatest: u16) -> Result<u16, DecodeError>
    ensures read { ReadsOn result reader.new (allowed_at w16 (is_between least greatest) reader.old) }
    ensures between { IfOk result (λ n. IsBetween least greatest n) }
    ensures fault { IfErr result IsBad }
{
    let at = reader.at();
    let n = reader.u16()?;
    if n < least || greatest < n {
        return Err(DecodeError::Bad { at });
    }
    Ok(n)
}

/// A number of 32 bits in a range.
pub fn u32_between(reader: &mut Reader, least: u32, greatest: u32) -> Result<u32, DecodeError>
    ensures read { ReadsOn result reader.new (allowed_at w32 (is_between least greatest) reader.old) }
    ensures between { IfOk result (λ n. IsBetween least greatest n) }
    ensures fault { IfErr result IsBad }
{
    let at = reader.at();
    let n = reader.u32()?;
    if n < least || greatest < n {
        return Err(DecodeError::Bad { at });
    }
    Ok(n)
}

/// A number of 8 bits up to a greatest one.
pub fn u8_at_most(reader: &mut Reader, greatest: u8) -> Result<u8, DecodeError>
    ensures read { ReadsOn result reader.new (allowed_at w8 (λ n. nat_le n greatest) reader.old) }
    ensures fault { IfErr result IsBad }
{
    let at = reader.at();
    let n = reader.u8()?;
    if greatest < n {
        return Err(DecodeError::Bad { at });
    }
    Ok(n)
}

/// A number of 32 bits up to a greatest one.
pub fn u32_at_most(reader: &mut Reader, greatest: u32) -> Result<u32, DecodeError>
    ensures read { ReadsOn result reader.new (allowed_at w32 (λ n. nat_le n greatest) reader.old) }
    ensures most { IfOk result (λ n. n ≤ greatest) }
    ensures fault { IfErr result IsBad }
{
    let at = reader.at();
    let n = reader.u32()?;
    if greatest < n {
        return Err(DecodeError::Bad { at });
    }
    Ok(n)
}

/// The one number of 8 bits that is wanted.
pub fn u8_wanted(reader: &mut Reader, wanted: u8) -> Result<u8, DecodeError>
    ensures read { ReadsOn result reader.new (allowed_at w8 (λ n. n == wanted) reader.old) }
    ensures fault { IfErr result IsBad }
{
    let at = reader.at();
    let n = reader.u8()?;
    if n != wanted {
        return Err(DecodeError::Bad { at });
    }
    Ok(n)
}
