//! An input that is read to its end, one whose read fails, and an output that is written in pieces.

use rex_traits::{MemSink, MemSource, ReadFault, SinkFault, read_input, write_all};
use std::test::*;

#[test]
fn an_input_is_read_to_its_end(rt: HostRuntime) -> Result<(), Fail> {
    let alloc = rt.alloc();
    let mut source = MemSource::new(vec![in alloc; 7, 8, 9]?, Vec::new(alloc));
    let input = read_input(alloc, &mut source).or(Err("not read"))?;
    assert_eq!(rt; input.bytes.as_slice(), [7, 8, 9].as_slice());
    assert_eq!(rt; input.turns, 2);
    Ok(())
}

#[test]
fn a_failed_read_is_answered(rt: HostRuntime) -> Result<(), Fail> {
    let alloc = rt.alloc();
    let mut source = MemSource::new(vec![in alloc; 7]?, vec![in alloc; 2]?);
    assert!(rt; matches!(read_input(alloc, &mut source), Err(ReadFault::Failed)));
    Ok(())
}

#[test]
fn an_output_is_written_in_pieces(rt: HostRuntime) -> Result<(), Fail> {
    let alloc = rt.alloc();
    let mut sink = MemSink::new(alloc, Vec::new(alloc), 2);
    assert!(rt; write_all(&mut sink, b"abcde").is_ok());
    assert_eq!(rt; sink.held(), b"abcde".as_slice());
    let mut broken = MemSink::new(alloc, vec![in alloc; 2]?, 2);
    assert_eq!(rt; write_all(&mut broken, b"abcde"), Err(SinkFault::Failed));
    assert_eq!(rt; broken.held(), b"ab".as_slice());
    Ok(())
}
