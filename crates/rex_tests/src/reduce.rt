//! Traces whose least causes are known, and how many causes a delta of one has.

ghost use Rattle.std.specs.Prelude.{◌≡◌};
ghost use Rattle.std.specs.List.{All};
ghost use Rattle.rex_cut.specs.Greatest.{IsCutOf};
ghost use Rattle.rex_reduce.specs.Reduced.{IsTrace, HasNext};
ghost use Rattle.rex_reduce.specs.Traces as traces;

use crate::cut::{at, begin, cause};
use rex_cut::{delta_of, greatest};
use rex_event::{Cause, Event, Kind};
use rex_list::List;
use rex_reduce::reduce;
use std::alloc::{AllocError, Global};
use std::process::Abort;
use std::test::*;

fn reply(client: u16) -> Kind
    ensures { result ≡ traces.reply client }
{
    Kind::Reply { client, value: 5 }
}

/// Three lanes take a lock, one after another.
fn in_turn() -> [Event; 12]
    ensures { result ≡ traces.in_turn }
{
    [
        at(0, 0, begin(1)),
        at(0, 1, Kind::AcqEx { lock: 0 }),
        at(0, 2, Kind::RelEx { lock: 0 }),
        at(0, 3, reply(1)),
        at(1, 0, begin(2)),
        at(1, 1, Kind::AcqEx { lock: 0 }),
        at(1, 2, Kind::RelEx { lock: 0 }),
        at(1, 3, reply(2)),
        at(2, 0, begin(3)),
        at(2, 1, Kind::AcqEx { lock: 0 }),
        at(2, 2, Kind::RelEx { lock: 0 }),
        at(2, 3, reply(3)),
    ]
}

/// Two lanes share a lock and release it, a third takes it, and the first shares it again.
fn shared() -> [Event; 10]
    ensures { result ≡ traces.shared }
{
    [
        at(0, 0, begin(1)),
        at(0, 1, Kind::AcqSh { lock: 0 }),
        at(1, 0, begin(2)),
        at(1, 1, Kind::AcqSh { lock: 0 }),
        at(2, 0, begin(3)),
        at(0, 2, Kind::RelSh { lock: 0 }),
        at(1, 2, Kind::RelSh { lock: 0 }),
        at(2, 1, Kind::AcqEx { lock: 0 }),
        at(2, 2, Kind::RelEx { lock: 0 }),
        at(0, 3, Kind::AcqSh { lock: 0 }),
    ]
}

/// A lane holds a lock while another one tries it.
fn tried() -> [Event; 8]
    ensures { result ≡ traces.tried }
{
    [
        at(0, 0, begin(1)),
        at(0, 1, Kind::AcqEx { lock: 0 }),
        at(1, 0, begin(2)),
        at(1, 1, Kind::TryBusy { lock: 0 }),
        at(0, 2, Kind::Clock { value: 7 }),
        at(1, 2, reply(2)),
        at(0, 3, Kind::RelEx { lock: 0 }),
        at(0, 4, reply(1)),
    ]
}

/// A lane waits, and another signals it.
fn signalled() -> [Event; 8]
    ensures { result ≡ traces.signalled }
{
    let (condition, lock) = (0, 0);
    [
        at(0, 0, begin(1)),
        at(0, 1, Kind::AcqEx { lock }),
        at(0, 2, Kind::Wait { condition, lock }),
        at(1, 0, begin(2)),
        at(1, 1, Kind::AcqEx { lock }),
        at(
            1,
            2,
            Kind::Signal {
                condition,
                woken: Some(0),
            },
        ),
        at(1, 3, Kind::RelEx { lock }),
        at(0, 3, Kind::Wake { condition, lock }),
    ]
}

/// The causes of an event of a trace, by its place.
type Expected<'a> = (usize, &'a [Cause]);

/// Compares the causes of the events that have some.
fn check(
    rt: &impl Abort,
    alloc: Global,
    events: &[Event],
    expected: &[Expected],
) -> Result<(), Fail>
    requires trace { IsTrace events.now }
    requires room { All HasNext events.now }
{
    let causes = reduce(alloc, events)?;
    assert_eq!(rt; causes.len(), events.len());
    let some = causes.iter().filter(|own| !own.is_empty()).count();
    assert_eq!(rt; some, expected.len());
    for (place, own) in expected {
        let found = causes.get(*place).expect(rt, "an event");
        assert_eq!(rt; found.as_slice(), *own);
    }
    Ok(())
}

#[test]
fn traces_are_reduced(rt: HostRuntime) -> Result<(), Fail> {
    let alloc = rt.alloc();
    let first = [cause(0, 2)];
    let second = [cause(1, 2)];
    let expected: [Expected; 2] = [(5, &first), (9, &second)];
    check(&rt, alloc, &in_turn(), &expected)?;
    let first = [cause(0, 2), cause(1, 2)];
    let second = [cause(2, 2)];
    let expected: [Expected; 2] = [(7, &first), (9, &second)];
    check(&rt, alloc, &shared(), &expected)?;
    check(&rt, alloc, &tried(), &[])?;
    let first = [cause(0, 2)];
    let second = [cause(1, 3)];
    let expected: [Expected; 2] = [(4, &first), (7, &second)];
    check(&rt, alloc, &signalled(), &expected)
}

/// How many causes the delta of a trace has that ends at these counts.
fn count_in_delta(alloc: Global, counts: &[u32], events: &[Event]) -> Result<usize, AllocError>
    requires { IsCutOf events.now counts.now }
{
    let cut = greatest(alloc, counts, events)?;
    let delta = delta_of(alloc, &cut, events)?;
    let mut count: usize = 0;
    for causes in delta.causes.as_slice() {
        count = count.saturating_add(causes.len());
    }
    Ok(count)
}

#[test]
fn deltas_have_reduced_causes(rt: HostRuntime) -> Result<(), Fail> {
    assert_eq!(rt; count_in_delta(rt.alloc(), &[4, 4, 4], &in_turn())?, 2);
    Ok(())
}
