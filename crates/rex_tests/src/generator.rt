//! A generated scenario of one round, and one of ten.

use rex_gen::scenario;
use std::test::*;

/// The lanes of the first round of seed 7: twelve that another program drew, by the reference steps of the generator, and
/// eight times both.
const LANES: &str = "\
    lane 1 1\nlane 1 1\nlane 1 1\nlane 1 2\nlane 1 2\nlane 1 2\nlane 1 2\nlane 1 2\nlane 1 2\nlane 1 1\n\
    lane 1 2\nlane 1 2\nlane 1 1\nlane 1 2\nlane 1 1\nlane 1 2\nlane 1 1\nlane 1 2\nlane 1 1\nlane 1 2\n\
    lane 1 1\nlane 1 2\nlane 1 1\nlane 1 2\nlane 1 1\nlane 1 2\nlane 1 1\nlane 1 2\ncut 1\n";

#[test]
fn one_round_is_written(rt: HostRuntime) -> Result<(), Fail> {
    let text = scenario(rt.alloc(), 7, 1)?;
    let (before, after) = text
        .as_str()
        .split_once("submit 1 1\nsubmit 1 2\n")
        .unwrap_or(("", ""));
    assert!(rt;
        before.ends_with("%requests\n1 1 add 8\n2 1 add 9\n%schedule\nelect 1\nflush\nflush\n")
    );
    assert!(rt; after.starts_with(LANES));
    assert!(rt; after.ends_with("cut 1\nflush\nflush\nflush\nsubmit 1 2\ndeliver 1\nreplay 2\n"));
    assert_eq!(rt; text.len(), 510);
    Ok(())
}

#[test]
fn ten_rounds_have_379_lines(rt: HostRuntime) -> Result<(), Fail> {
    let text = scenario(rt.alloc(), 7, 10)?;
    let (_, schedule) = text.as_str().split_once("%schedule\n").unwrap_or(("", ""));
    assert_eq!(rt; schedule.lines().count(), 379);
    assert!(rt; schedule.ends_with("replay 2\nelect 2\nflush\nflush\n"));
    Ok(())
}
