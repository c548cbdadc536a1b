//! A plain reader, to which the answers of the codecs are compared, and the hostile bytes at which they are. It takes numbers
//! by `byteorder` and knows no codec: what it reads of a format is what the document on that format says.

use byteorder::{BigEndian, ByteOrder};
use std::alloc::{AllocError, Global};
use std::process::Abort;

/// The numbers that were read of some bytes from the left, up to the first bad field. From a bad field on nothing is read,
/// and each number is 0.
#[derive(Drop)]
pub(crate) struct Plain<'a> {
    bytes: &'a [u8],
    rest: &'a [u8],
    /// Where the last field begins.
    field: usize,
    bad: Option<usize>,
    numbers: Vec<u64>,
}

impl<'a> Plain<'a> {
    pub(crate) fn new(alloc: Global, bytes: &'a [u8]) -> Plain<'a> {
        Plain {
            bytes,
            rest: bytes,
            field: 0,
            bad: None,
            numbers: Vec::new(alloc),
        }
    }

    /// The number in the next so many bytes.
    pub(crate) fn number(&mut self, rt: &impl Abort, width: usize) -> u64 {
        let field = self.take(width);
        if self.bad.is_some() {
            return 0;
        }
        let number = big_endian(field);
        self.note(rt, number);
        number
    }

    /// The same, where it has to lie in a range.
    pub(crate) fn within(
        &mut self,
        rt: &impl Abort,
        width: usize,
        least: u64,
        greatest: u64,
    ) -> u64 {
        let number = self.number(rt, width);
        self.allow(least <= number && number <= greatest);
        number
    }

    /// A length of at most 4,194,304, and so many bytes.
    pub(crate) fn value(&mut self, rt: &impl Abort) {
        let length = self.within(rt, 4, 0, 4_194_304);
        let value = self.take(length as usize);
        for byte in value {
            self.note(rt, *byte as u64);
        }
    }

    /// The last field is bad, unless this holds.
    pub(crate) fn allow(&mut self, allowed: bool) {
        if !allowed && self.bad.is_none() {
            self.bad = Some(self.field);
        }
    }

    /// Puts a number that follows from the fields among those that were read.
    pub(crate) fn note(&mut self, rt: &impl Abort, number: u64) {
        if self.bad.is_none() {
            self.numbers.push(number).expect(rt, "memory");
        }
    }

    /// Whether nothing was bad up to here.
    pub(crate) fn is_good(&self) -> bool {
        self.bad.is_none()
    }

    /// All numbers, where no bytes are left; else where the first bad field begins.
    pub(crate) fn finish(self) -> Result<Vec<u64>, usize> {
        let end = self.bytes.len().saturating_sub(self.rest.len());
        match self.bad {
            Some(at) => Err(at),
            None if self.rest.is_empty() => Ok(self.numbers),
            None => Err(end),
        }
    }

    fn take(&mut self, width: usize) -> &'a [u8] {
        if self.bad.is_some() {
            return &[];
        }
        self.field = self.bytes.len().saturating_sub(self.rest.len());
        match self.rest.split_at_checked(width) {
            Some((field, rest)) => {
                self.rest = rest;
                field
            }
            None => {
                self.bad = Some(self.field);
                &[]
            }
        }
    }
}

fn big_endian(field: &[u8]) -> u64 {
    match field.len() {
        1 => field[0] as u64,
        2 => BigEndian::read_u16(field) as u64,
        4 => BigEndian::read_u32(field) as u64,
        8 => BigEndian::read_u64(field),
        _ => 0,
    }
}

/// Whether a number is a ballot: 16 times a round from 1 to 2^32, and a node from 1 to 9.
pub(crate) fn is_ballot(number: u64) -> bool {
    let round = number / 16;
    let node = number % 16;
    1 <= round && round <= 4_294_967_296 && 1 <= node && node <= 9
}

/// The bytes, every prefix of them, a byte more, and each byte changed to 0 and to 255. Of `n` bytes these are `3 * n + 2` lists.
pub(crate) fn hostile(alloc: Global, bytes: &[u8]) -> Result<Vec<Vec<u8>>, AllocError> {
    let mut lists = Vec::new(alloc);
    lists.push(bytes.to_vec(alloc)?)?;
    lists.push(longer(alloc, bytes)?)?;
    for at in 0..bytes.len() {
        lists.push(bytes[..at].to_vec(alloc)?)?;
        lists.push(changed(alloc, bytes, at, 0)?)?;
        lists.push(changed(alloc, bytes, at, 255)?)?;
    }
    Ok(lists)
}

fn longer(alloc: Global, bytes: &[u8]) -> Result<Vec<u8>, AllocError> {
    let mut longer = bytes.to_vec(alloc)?;
    longer.push(0)?;
    Ok(longer)
}

fn changed(alloc: Global, bytes: &[u8], at: usize, byte: u8) -> Result<Vec<u8>, AllocError> {
    let mut changed = bytes.to_vec(alloc)?;
    if let Some(place) = changed.get_mut(at) {
        *place = byte;
    }
    Ok(changed)
}

/// The bytes with others in the place of those from an offset on.
pub(crate) fn patched(
    rt: &impl Abort,
    alloc: Global,
    bytes: &[u8],
    at: usize,
    new: &[u8],
) -> Vec<u8> {
    let mut patched = bytes.to_vec(alloc).expect(rt, "memory");
    for (place, byte) in patched.iter_mut().skip(at).zip(new) {
        *place = *byte;
    }
    patched
}

/// Whether both readers took the same numbers, or found the same bad field.
pub(crate) fn agree(found: &Result<Vec<u64>, usize>, expected: &Result<Vec<u64>, usize>) -> bool {
    match (found, expected) {
        (Ok(found), Ok(expected)) => found.as_slice() == expected.as_slice(),
        (Err(found), Err(expected)) => found == expected,
        _ => false,
    }
}

/// Where the first bad field begins, if one is bad.
pub(crate) fn bad_at(found: &Result<Vec<u64>, usize>) -> Option<usize> {
    match found {
        Ok(_) => None,
        Err(at) => Some(*at),
    }
}

/// Puts further numbers behind others.
pub(crate) fn put(rt: &impl Abort, numbers: &mut Vec<u64>, more: &[u64]) {
    numbers.extend_from_slice(more).expect(rt, "memory");
}

/// Puts the length of a value and its bytes behind other numbers.
pub(crate) fn put_value(rt: &impl Abort, numbers: &mut Vec<u64>, value: &[u8]) {
    put(rt, numbers, &[value.len() as u64]);
    for byte in value {
        put(rt, numbers, &[*byte as u64]);
    }
}
