//! A counter that doesn't take its lock and is refused, and the lines at which one that does holds it.

use crate::services::{checked, service};
use rex_lockset::{CheckError, Refused, check};
use rex_syntax::checked::Checked;
use rex_syntax::flow::CheckCode;
use rex_syntax::locks::Mode;
use std::process::Abort;
use std::test::*;

const COUNTER: &str =
    "lanes 2\nlock L\nvar a on L = 0\nhandler add x\nacquire L\nset a = a + x\nlet r = a\nrelease L\nreply r\n";

/// The counter, which gives its lock up instead of taking it.
const UNLOCKED: &str =
    "lanes 2\nlock L\nvar a on L = 0\nhandler add x\nrelease L\nset a = a + x\nlet r = a\nrelease L\nreply r\n";

#[test]
fn a_counter_without_its_lock_is_refused(rt: HostRuntime) {
    let service = service(&rt, rt.alloc(), UNLOCKED);
    let refused = Refused {
        handler: 0,
        line: Some(0),
        code: CheckCode::NotHeld,
    };
    let wanted = Some(CheckError::Refused(refused));
    assert_eq!(rt; check(rt.alloc(), service).err(), wanted);
}

/// In which mode a lane holds the first lock when it comes to a line of the first handler.
fn mode_at(rt: &impl Abort, checked: &Checked, line: u16) -> Mode {
    let handlers = checked.declarations().handlers.as_slice();
    assert!(rt; !handlers.is_empty());
    assert!(rt; (line as usize) < handlers[0].lines.len());
    checked.lockset(0, line).mode(0)
}

#[test]
fn the_counter_holds_its_lock_from_line_1_to_3(rt: HostRuntime) {
    let checked = checked(&rt, rt.alloc(), COUNTER);
    assert_eq!(rt; mode_at(&rt, &checked, 0), Mode::Free);
    assert_eq!(rt; mode_at(&rt, &checked, 1), Mode::Exclusive);
    assert_eq!(rt; mode_at(&rt, &checked, 3), Mode::Exclusive);
    assert_eq!(rt; mode_at(&rt, &checked, 4), Mode::Free);
}
