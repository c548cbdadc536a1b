//! A scenario that is read, and lines at which scenarios are refused.

use rex_scenario::{ScenarioCode, ScenarioError, read_scenario, read_unscheduled};
use std::test::*;

/// A scenario of one request and two schedule lines, of which the first is line 10.
const ONE_REQUEST: &[u8] =
    b"%nodes 1\n%seed 7\n%service\nlanes 1\nhandler h\nreply 1\n%requests\n1 1 h\n%schedule\nelect 1\ncut 1 0\n";

#[test]
fn a_scenario_is_read(rt: HostRuntime) -> Result<(), Fail> {
    let (scenario, service) = read_scenario(rt.alloc(), ONE_REQUEST)?;
    assert!(rt; scenario.nodes == 1 && scenario.seed == 7);
    assert!(rt; scenario.requests.len() == 1 && scenario.schedule.len() == 2);
    assert_eq!(rt; service.declarations().lanes, 1);
    Ok(())
}

#[test]
fn the_first_bad_line_is_refused(rt: HostRuntime) {
    match read_scenario(rt.alloc(), b"%nodes 1\n%seed 01\nfly") {
        Err(ScenarioError::Refused { line, code }) => {
            assert!(rt; line == 2 && code == ScenarioCode::BadHeading);
        }
        _ => assert!(rt; false),
    }
}

#[test]
fn a_schedule_line_is_refused_where_none_may_be(rt: HostRuntime) {
    match read_unscheduled(rt.alloc(), ONE_REQUEST) {
        Err(ScenarioError::Refused { line, code }) => {
            assert!(rt; line == 10 && code == ScenarioCode::BadLine);
        }
        _ => assert!(rt; false),
    }
}
