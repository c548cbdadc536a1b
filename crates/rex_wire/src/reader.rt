//! Reading.

ghost use Rattle.std.specs.Prelude.{◌≡◌, ◌<◌, ◌≤◌, length, [], MatchResult};
ghost use Rattle.std.specs.Int.{w8, w16, w32, w64};
ghost use Rattle.rex_wire.specs.Reading.{Reads, ReadsBytes, all_left, bytes_at, number_at, signed_at};

use crate::fault::{Over, Short};
use std::marker::Model;

/// Bytes, and how many of them were read. Numbers are read with their most significant byte first. Where fewer bytes are
/// left than a field has, the reader stays before that field.
#[derive(Drop)]
pub struct Reader<'a> {
    bytes: &'a [u8],
    at: usize,
}

impl<'a> Model for Reader<'a> {
    ghost use Rattle.std.specs.Prelude.{◌≤◌, length, drop};
    ghost use Rattle.rex_wire.specs.Reading.{Left};

    ghost Value = { Left };

    ghost view = { λ r. record { at = r.at; rest = drop r.at r.bytes.now } };

    ghost invariant = { λ r. r.at ≤ length r.bytes.now };
}

impl<'a> Reader<'a> {
    /// A reader before the first of these bytes.
    pub fn new(bytes: &'a [u8]) -> Reader<'a>
        ensures { result ≡ all_left bytes.now }
    {
        Reader { bytes, at: 0 }
    }

    /// How many bytes were read.
    pub fn at(&self) -> usize
        ensures { result ≡ self.now.at }
    {
        self.at
    }

    /// The next `n` bytes.
    pub fn bytes(&mut self, n: usize) -> Result<&'a [u8], Short>
        ensures { ReadsBytes result self.old self.new (bytes_at n self.old) }
    {
        let rest = &self.bytes[self.at..];
        if rest.len() < n {
            return Err(Short { at: self.at });
        }
        self.at += n;
        Ok(&rest[..n])
    }

    /// A number of 8 bits.
    pub fn u8(&mut self) -> Result<u8, Short>
        ensures { Reads result self.old self.new (number_at w8 self.old) }
    {
        let field = self.bytes(1)?;
        Ok(field[0])
    }

    /// A number of 16 bits.
    pub fn u16(&mut self) -> Result<u16, Short>
        ensures { Reads result self.old self.new (number_at w16 self.old) }
    {
        let field = self.bytes(2)?;
        Ok(u16::from_be_bytes([field[0], field[1]]))
    }

    /// A number of 32 bits.
    pub fn u32(&mut self) -> Result<u32, Short>
        ensures { Reads result self.old self.new (number_at w32 self.old) }
    {
        let field = self.bytes(4)?;
        Ok(u32::from_be_bytes([field[0], field[1], field[2], field[3]]))
    }

    /// A number of 64 bits.
    pub fn u64(&mut self) -> Result<u64, Short>
        ensures { Reads result self.old self.new (number_at w64 self.old) }
    {
        let field = self.bytes(8)?;
        Ok(u64::from_be_bytes([
            field[0], field[1], field[2], field[3], field[4], field[5], field[6], field[7],
        ]))
    }

    /// A signed number of 64 bits, in two's complement.
    pub fn i64(&mut self) -> Result<i64, Short>
        ensures { Reads result self.old self.new (signed_at self.old) }
    {
        Ok(self.u64()?.cast_signed())
    }

    /// Wants no bytes to be left.
    pub fn end(&self) -> Result<(), Over>
        ensures { MatchResult result (λ _. self.now.rest ≡ []) (λ e. (0 < length self.now.rest) × (e.at ≡ self.now.at)) }
    {
        if self.at < self.bytes.len() {
            return Err(Over { at: self.at });
        }
        Ok(())
    }
}
