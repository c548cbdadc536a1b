//! Writing.

ghost use Rattle.std.specs.Prelude.{◌≡◌, ◌++◌, [], OnOk, OnErr, IfOk};
ghost use Rattle.std.specs.Int.{w16, w32, w64, to_be_bytes};
ghost use Rattle.rex_wire.specs.Spelling.{byte, signed};

use std::alloc::{AllocError, Global};
use std::marker::Model;

/// Bytes that grow at their end. Numbers are written with their most significant byte first. Where memory is short,
/// nothing is written.
#[derive(Drop)]
pub struct Writer {
    bytes: Vec<u8>,
}

impl Model for Writer {
    ghost use Rattle.std.specs.Prelude.{List, ℕ};

    ghost Value = { List ℕ };

    ghost view = { λ w. w.bytes.items };
}

impl Writer {
    /// No bytes yet.
    pub fn new(alloc: Global) -> Writer
        ensures { result ≡ [] }
    {
        Writer {
            bytes: Vec::new(alloc),
        }
    }

    /// No bytes yet, and room for so many. More bytes may be written, too.
    pub fn with_capacity(alloc: Global, capacity: usize) -> Result<Writer, AllocError>
        ensures { IfOk result (λ w. w ≡ []) }
    {
        Ok(Writer {
            bytes: Vec::with_capacity(alloc, capacity)?,
        })
    }

    /// Bytes as they are.
    pub fn bytes(&mut self, bytes: &[u8]) -> Result<(), AllocError>
        ensures ok { OnOk result (self.new ≡ self.old ++ bytes.now) }
        ensures err { OnErr result (self.new ≡ self.old) }
    {
        self.bytes.extend_from_slice(bytes)?;
        Ok(())
    }

    /// A number of 8 bits.
    pub fn u8(&mut self, n: u8) -> Result<(), AllocError>
        ensures ok { OnOk result (self.new ≡ self.old ++ byte n) }
        ensures err { OnErr result (self.new ≡ self.old) }
    {
        self.bytes(&[n])
    }

    /// A number of 16 bits.
    pub fn u16(&mut self, n: u16) -> Result<(), AllocError>
        ensures ok { OnOk result (self.new ≡ self.old ++ to_be_bytes w16 n) }
        ensures err { OnErr result (self.new ≡ self.old) }
    {
        self.bytes(&n.to_be_bytes())
    }

    /// A number of 32 bits.
    pub fn u32(&mut self, n: u32) -> Result<(), AllocError>
        ensures ok { OnOk result (self.new ≡ self.old ++ to_be_bytes w32 n) }
        ensures err { OnErr result (self.new ≡ self.old) }
    {
        self.bytes(&n.to_be_bytes())
    }

    /// A number of 64 bits.
    pub fn u64(&mut self, n: u64) -> Result<(), AllocError>
        ensures ok { OnOk result (self.new ≡ self.old ++ to_be_bytes w64 n) }
        ensures err { OnErr result (self.new ≡ self.old) }
    {
        self.bytes(&n.to_be_bytes())
    }

    /// A signed number of 64 bits, in two's complement.
    pub fn i64(&mut self, n: i64) -> Result<(), AllocError>
        ensures ok { OnOk result (self.new ≡ self.old ++ signed n) }
        ensures err { OnErr result (self.new ≡ self.old) }
    {
        self.u64(n.cast_unsigned())
    }

    /// The bytes that were written.
    pub fn written(&self) -> &[u8]
        ensures { result.now ≡ self.now }
    {
        &self.bytes
    }

    /// The bytes that were written. It takes no memory.
    pub fn into_vec(self) -> Vec<u8>
        ensures { result.items ≡ self }
    {
        self.bytes
    }
}
