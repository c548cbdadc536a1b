//! Sources, sinks and keepers in memory, which fail as planned or never, and the adapters over std.

ghost use Rattle.std.specs.Prelude.{◌≤◌, IfOk};

use rex_traits::{
    Failed, Fate, Gate, KeepFault, Keeper, MemKeeper, MemSink, MemSource, OpenGate, Sink,
    SinkFault, Source, StdSink, StdSource, SureKeeper, SureSink, SureSource,
};
use std::io;
use std::test::Fail;

#[test]
fn a_source_in_memory_gives_its_bytes_and_fails_as_planned(rt: HostRuntime) -> Result<(), Fail> {
    let alloc = rt.alloc();
    let mut source = MemSource::new(vec![in alloc; 1, 2, 3]?, vec![in alloc; 2]?);
    let mut buf = [0; 2];
    assert_eq!(rt; source.read(&mut buf), Ok(2));
    assert_eq!(rt; source.read(&mut buf), Err(Failed));
    assert_eq!(rt; source.read(&mut buf), Ok(1));
    Ok(())
}

#[test]
fn a_sink_in_memory_takes_pieces_and_fails_as_planned(rt: HostRuntime) -> Result<(), Fail> {
    let alloc = rt.alloc();
    let mut sink = MemSink::new(alloc, vec![in alloc; 2]?, 2);
    assert_eq!(rt; sink.write(b"abc"), Ok(2));
    assert_eq!(rt; sink.write(b"c"), Err(SinkFault::Failed));
    assert_eq!(rt; sink.held(), b"ab".as_slice());
    Ok(())
}

#[test]
fn the_forms_that_never_fail(rt: HostRuntime) -> Result<(), Fail> {
    let alloc = rt.alloc();
    let mut source = SureSource::new(vec![in alloc; 7]?);
    let mut sink = SureSink::new(alloc);
    let mut buf = [0; 4];
    assert_eq!(rt; source.read(&mut buf), Ok(1));
    assert_eq!(rt; sink.write(&buf[..1]), Ok(1));
    OpenGate.enter(0, 1, 2);
    assert!(rt; OpenGate.is_open());
    Ok(())
}

// A device that answers in turn: a byte, an error, nothing at all.
#[derive(Drop)]
struct Flaky {
    turn: u8,
}

impl Flaky {
    fn answer(&mut self, most: usize) -> io::Result<usize>
        ensures { IfOk result (λ count. count ≤ most) }
    {
        self.turn = self.turn.wrapping_add(1);
        match self.turn {
            1 => Ok(most.min(1)),
            2 => Err(io::Error::from(io::ErrorKind::Other)),
            _ => Ok(0),
        }
    }
}

impl io::Read for Flaky {
    fn read(&mut self, buf: &mut [u8]) -> io::Result<usize> {
        self.answer(buf.len())
    }
}

impl io::Write for Flaky {
    fn write(&mut self, buf: &[u8]) -> io::Result<usize> {
        self.answer(buf.len())
    }

    fn flush(&mut self) -> io::Result<()> {
        Ok(())
    }
}

#[test]
fn the_adapters_pass_errors_on(rt: HostRuntime) {
    let mut source = StdSource::new(Flaky { turn: 0 });
    let mut buf = [0; 3];
    assert_eq!(rt; source.read(&mut buf), Ok(1));
    assert_eq!(rt; source.read(&mut buf), Err(Failed));
    let mut sink = StdSink::new(Flaky { turn: 0 });
    assert_eq!(rt; sink.write(b"abc"), Ok(1));
    assert_eq!(rt; sink.write(b"bc"), Err(SinkFault::Failed));
}

#[test]
fn a_keeper_in_memory_fails_as_it_is_armed(rt: HostRuntime) {
    let mut keeper = MemKeeper::new(rt.alloc());
    keeper.arm(Fate::Kept);
    keeper.arm(Fate::Lost);
    assert_eq!(rt; keeper.append(&[1]), Err(KeepFault::Failed));
    assert_eq!(rt; keeper.append(&[2]), Ok(()));
    keeper.arm(Fate::Kept);
    assert_eq!(rt; keeper.append(&[3]), Err(KeepFault::Failed));
    assert_eq!(rt; keeper.len(), 2);
    assert_eq!(rt; keeper.get(1), [3].as_slice());
}

#[test]
fn a_keeper_that_never_fails(rt: HostRuntime) {
    let mut keeper = SureKeeper::new(rt.alloc());
    assert_eq!(rt; keeper.append(&[7]), Ok(()));
    assert_eq!(rt; keeper.append(&[]), Ok(()));
    assert_eq!(rt; keeper.len(), 2);
    assert_eq!(rt; keeper.get(0), [7].as_slice());
}
