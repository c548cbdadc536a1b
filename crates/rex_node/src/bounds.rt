//! Counts of events by lane.

ghost use Rattle.std.specs.Prelude.{◌≡◌, ◌+◌, length, min, IfOk};
ghost use Rattle.rex_cluster.specs.Lanes as spec;

use std::alloc::{AllocError, Global};

/// How many events a lane did at a cut that takes at most so many of its live ones.
fn limit_between(first: u32, last: u32, limit: u32) -> u32
    ensures { result ≡ min (first + limit) last }
{
    (first as u64 + limit as u64).min(last as u64) as u32
}

/// How many events each lane did before the live ones, and of these as many as its limit allows.
pub(crate) fn limits_between(
    alloc: Global,
    firsts: &[u32],
    lasts: &[u32],
    limits: &[u32],
) -> Result<Vec<u32>, AllocError>
    requires firsts { length firsts.now ≡ length limits.now }
    requires lasts { length lasts.now ≡ length limits.now }
    ensures { IfOk result (λ counts. counts.items ≡ spec.limits_between firsts.now lasts.now limits.now) }
{
    let mut counts = Vec::new(alloc);
    for lane in 0..limits.len() {
        let first = firsts[lane];
        let last = lasts[lane];
        let limit = limits[lane];
        counts.push(limit_between(first, last, limit))?;
    }
    Ok(counts)
}
