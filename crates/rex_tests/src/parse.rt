//! A handler whose blocks lead to their ends, and a service that is refused at its first bad line.

use crate::services::service;
use rex_parse::{ReadError, ServiceCode, read_service};
use rex_syntax::line::Line;
use std::test::*;

/// The line to which a line leads, where that isn't the next one.
fn target_of(line: &Line) -> Option<u16> {
    match line {
        Line::If { otherwise, .. } => Some(*otherwise),
        Line::Else { end } => Some(*end),
        Line::Try { busy, .. } => Some(*busy),
        Line::Busy { end } => Some(*end),
        Line::Repeat { after, .. } => Some(*after),
        _ => None,
    }
}

const BLOCKS: &str = "lanes 1
lock L
handler h
if 1
  repeat 2
    try L
      release L
    busy
    endtry
  endrepeat
else
  clock x
endif
reply 1";

/// To which lines those of its handler lead.
static TARGETS: [Option<u16>; 11] = [
    Some(8),
    Some(7),
    Some(5),
    None,
    Some(5),
    None,
    None,
    Some(9),
    None,
    None,
    None,
];

#[test]
fn blocks_lead_to_their_ends(rt: HostRuntime) {
    let service = service(&rt, rt.alloc(), BLOCKS);
    let handlers = service.declarations().handlers.as_slice();
    assert_eq!(rt; handlers.len(), 1);
    let lines = handlers[0].lines.as_slice();
    assert_eq!(rt; lines.len(), TARGETS.len());
    for (line, target) in lines.iter().zip(&TARGETS) {
        assert_eq!(rt; target_of(line), *target);
    }
}

#[test]
fn the_first_bad_line_is_refused(rt: HostRuntime) {
    match read_service(rt.alloc(), b"lanes 1\n\nlanes 65\nfly") {
        Err(ReadError::Refused { line, code }) => {
            assert!(rt; line == 3 && code == ServiceCode::NoNumber);
        }
        _ => assert!(rt; false),
    }
}
