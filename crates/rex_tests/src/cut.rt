//! Traces that are cut, and events and causes for other tests.

ghost use Rattle.std.specs.Prelude.{◌≡◌, ◌<◌, length};
ghost use Rattle.rex_cut.specs.Greatest.{IsCutOf};
ghost use Rattle.rex_cut.specs.Traces as traces;

use rex_cut::{delta_of, greatest};
use rex_event::{Cause, Event, Kind};
use rex_list::Arguments;
use std::alloc::Global;
use std::process::Abort;
use std::test::*;

pub fn at(lane: u8, index: u32, kind: Kind) -> Event
    ensures { result ≡ traces.at lane index kind }
{
    Event { lane, index, kind }
}

pub fn begin(client: u16) -> Kind
    ensures { result ≡ traces.begin client }
{
    Kind::Begin {
        client,
        sequence: 1,
        handler: 0,
        arguments: Arguments::new(),
    }
}

/// A lane takes a lock and releases it, and another takes it.
fn locked() -> [Event; 5]
    ensures { result ≡ traces.locked }
{
    [
        at(0, 0, begin(1)),
        at(0, 1, Kind::AcqEx { lock: 0 }),
        at(1, 0, begin(2)),
        at(0, 2, Kind::RelEx { lock: 0 }),
        at(1, 1, Kind::AcqEx { lock: 0 }),
    ]
}

/// Two lanes share a lock and release it, and a third takes it.
fn shared() -> [Event; 8]
    ensures { result ≡ traces.shared }
{
    [
        at(0, 0, begin(1)),
        at(0, 1, Kind::AcqSh { lock: 0 }),
        at(1, 0, begin(2)),
        at(1, 1, Kind::AcqSh { lock: 0 }),
        at(0, 2, Kind::RelSh { lock: 0 }),
        at(1, 2, Kind::RelSh { lock: 0 }),
        at(2, 0, begin(3)),
        at(2, 1, Kind::AcqEx { lock: 0 }),
    ]
}

pub fn cause(lane: u8, index: u32) -> Cause
    ensures { result ≡ record { lane = lane; index = index } }
{
    Cause { lane, index }
}

/// What cutting a trace comes to: the cut, how many events the delta has, and the causes of the last of them.
#[derive(Clone, Copy)]
struct Expected<'a> {
    cut: &'a [u32],
    events: usize,
    last: &'a [Cause],
}

fn check(
    rt: &impl Abort,
    alloc: Global,
    events: &[Event],
    limits: &[u32],
    expected: Expected,
) -> Result<(), Fail>
    requires { IsCutOf events.now limits.now }
{
    let cut = greatest(alloc, limits, events)?;
    let delta = delta_of(alloc, &cut, events)?;
    assert_eq!(rt; cut.counts.as_slice(), expected.cut);
    assert_eq!(rt; delta.events.len(), expected.events);
    if let Some(last) = delta.causes.as_slice().last() {
        assert_eq!(rt; last.as_slice(), expected.last);
    }
    Ok(())
}

#[test]
fn traces_are_cut(rt: HostRuntime) -> Result<(), Fail> {
    let alloc = rt.alloc();
    let expected = Expected {
        cut: &[2, 1],
        events: 3,
        last: &[],
    };
    check(&rt, alloc, &locked(), &[2, 2], expected)?;
    let expected = Expected {
        cut: &[3, 3, 2],
        events: 8,
        last: &[cause(0, 2), cause(1, 2)],
    };
    check(&rt, alloc, &shared(), &[3, 3, 2], expected)
}
