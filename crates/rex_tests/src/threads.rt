//! Jobs that wait for each other, so that each needs a thread of its own.

use rex_threads::{both, map_vec};
use std::alloc::AllocError;
use std::sync::Barrier;
use std::test::*;

// Three jobs that wait for each other end only where each has a thread of its own.
#[test]
fn jobs_run_beside_each_other(rt: HostRuntime) -> Result<(), AllocError> {
    let jobs: Vec<u64> = vec![in rt.alloc(); 30, 10, 20]?;
    let meeting = Barrier::new(3);
    let tenths = map_vec(
        &rt,
        rt.alloc(),
        jobs,
        &|job: u64| -> u64 {
            meeting.wait(&rt);
            job / 10
        },
    )?;
    assert_eq!(rt; tenths.as_slice(), [3, 1, 2].as_slice());
    Ok(())
}

// So it is of two jobs with results of two types.
#[test]
fn two_jobs_run_beside_each_other(rt: HostRuntime) {
    let meeting = Barrier::new(2);
    let (sum, is_more) = both(
        &rt,
        || -> u64 {
            meeting.wait(&rt);
            3 + 4
        },
        || -> bool {
            meeting.wait(&rt);
            7 < 8
        },
    );
    assert_eq!(rt; sum, 7);
    assert!(rt; is_more);
}
