//! Numbers that are written and read, and bytes that are too few for one.

use rex_wire::{Over, Reader, Short, Writer};
use std::test::*;

const BYTES: [u8; 25] = [
    1, 2, 3, 4, 5, 6, 7, 8, 9, 10, 11, 12, 13, 14, 15, 255, 255, 255, 255, 255, 255, 255, 254, 16,
    17,
];

#[test]
fn numbers_are_written(rt: HostRuntime) -> Result<(), Fail> {
    let mut writer = Writer::new(rt.alloc());
    writer.u8(1)?;
    writer.u16(515)?;
    writer.u32(67_438_087)?;
    writer.u64(579_005_069_656_919_567)?;
    writer.i64(-2)?;
    writer.bytes(&[16, 17])?;
    assert_eq!(rt; writer.written(), BYTES.as_slice());
    Ok(())
}

#[test]
fn numbers_are_read(rt: HostRuntime) -> Result<(), Short> {
    let mut reader = Reader::new(&BYTES);
    assert_eq!(rt; reader.u8()?, 1);
    assert_eq!(rt; reader.u16()?, 515);
    assert_eq!(rt; reader.u32()?, 67_438_087);
    assert_eq!(rt; reader.u64()?, 579_005_069_656_919_567);
    assert_eq!(rt; reader.i64()?, -2);
    Ok(())
}

#[test]
fn too_few_bytes_are_left_where_they_are(rt: HostRuntime) -> Result<(), Short> {
    let mut reader = Reader::new(&[16, 17]);
    assert_eq!(rt; reader.u32(), Err(Short { at: 0 }));
    assert_eq!(rt; reader.end(), Err(Over { at: 0 }));
    assert_eq!(rt; reader.bytes(2)?, [16, 17].as_slice());
    assert_eq!(rt; reader.u8(), Err(Short { at: 2 }));
    assert_eq!(rt; reader.end(), Ok(()));
    Ok(())
}
