//! Which two events of a trace conflict, so that one has to come before the other.

ghost use Rattle.std.specs.Prelude.{◌≡◌, ◌<◌};
ghost use Rattle.rex_event.specs.Conflict as spec;

use crate::{Event, Kind, LANES};

fn named_lock(kind: Kind) -> Option<u8>
    ensures { result ≡ spec.named_lock kind }
{
    match kind {
        Kind::AcqEx { lock }
        | Kind::AcqSh { lock }
        | Kind::RelEx { lock }
        | Kind::RelSh { lock }
        | Kind::TryOk { lock }
        | Kind::Wait { lock, .. }
        | Kind::Wake { lock, .. } => Some(lock),
        _ => None,
    }
}

fn is_sharing(kind: Kind) -> bool
    ensures { result ≡ spec.is_sharing kind }
{
    matches!(kind, Kind::AcqSh { .. } | Kind::RelSh { .. })
}

/// The condition whose queue an event reads or changes.
pub fn named_condition(kind: Kind) -> Option<u8>
    ensures { result ≡ spec.named_condition kind }
{
    match kind {
        Kind::Wait { condition, .. }
        | Kind::Wake { condition, .. }
        | Kind::Signal { condition, .. }
        | Kind::Broadcast { condition, .. } => Some(condition),
        _ => None,
    }
}

fn named_client(kind: Kind) -> Option<u16>
    ensures { result ≡ spec.named_client kind }
{
    match kind {
        Kind::Begin { client, .. } | Kind::Reply { client, .. } => Some(client),
        _ => None,
    }
}

fn named_semaphore(kind: Kind) -> Option<u8>
    ensures { result ≡ spec.named_semaphore kind }
{
    match kind {
        Kind::Down { semaphore } | Kind::Up { semaphore } => Some(semaphore),
        _ => None,
    }
}

fn same_number(first: Option<u8>, second: Option<u8>) -> bool
    ensures { result ≡ spec.same_name first second }
{
    match (first, second) {
        (Some(first), Some(second)) => first == second,
        _ => false,
    }
}

fn same_client(first: Option<u16>, second: Option<u16>) -> bool
    ensures { result ≡ spec.same_name first second }
{
    match (first, second) {
        (Some(first), Some(second)) => first == second,
        _ => false,
    }
}

fn is_that(first: Option<u8>, second: u8) -> bool
    ensures { result ≡ spec.is_that first second }
{
    match first {
        Some(first) => first == second,
        None => false,
    }
}

/// Whether an event is a signal or broadcast.
pub fn is_waker(kind: &Kind) -> bool
    ensures { result ≡ spec.is_waker kind.now }
{
    matches!(kind, Kind::Signal { .. } | Kind::Broadcast { .. })
}

/// Whether an event woke this lane.
pub fn woke(kind: Kind, lane: u8) -> bool
    requires { lane < LANES }
    ensures { result ≡ spec.woke kind lane }
{
    match kind {
        Kind::Signal { woken, .. } => is_that(woken, lane),
        Kind::Broadcast { woken, .. } => (woken >> lane) & 1 == 1,
        _ => false,
    }
}

fn is_wake_on(kind: Kind, condition: Option<u8>) -> bool
    ensures { result ≡ spec.is_wake_on kind condition }
{
    match kind {
        Kind::Wake {
            condition: waited,
            ..
        } => is_that(condition, waited),
        _ => false,
    }
}

fn wakes(first: &Event, second: &Event) -> bool
    requires { second.now.lane < LANES }
    ensures { result ≡ spec.wakes first.now second.now }
{
    woke(first.kind, second.lane) && is_wake_on(second.kind, named_condition(first.kind))
}

/// Whether one of two events of a trace has to come before the other: both are of one lane, name one lock and don't both
/// share it, are of one client, change one semaphore, or one is a signal or broadcast that woke the other's lane and the
/// other is a wake on that condition.
pub fn conflict(first: &Event, second: &Event) -> bool
    requires first { first.now.lane < LANES }
    requires second { second.now.lane < LANES }
    ensures { result ≡ spec.conflict first.now second.now }
{
    let sharing = is_sharing(first.kind) && is_sharing(second.kind);
    first.lane == second.lane
        || (same_number(named_lock(first.kind), named_lock(second.kind)) && !sharing)
        || same_client(named_client(first.kind), named_client(second.kind))
        || same_number(named_semaphore(first.kind), named_semaphore(second.kind))
        || wakes(first, second)
        || wakes(second, first)
}
