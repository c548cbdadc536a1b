//! Frames that call a node, read one after the other, and frames that answer.

use crate::msg::PREPARE;
use crate::services::checked;
use rex_frames::letters::NOTHING;
use rex_frames::{
    Asked, Front, Status, asked_in, front_of, push_count, push_effect, push_letter, push_message,
    push_status,
};
use rex_msg::decode;
use rex_report::{Effect, Role};
use rex_syntax::checked::Checked;
use std::alloc::{AllocError, Global};
use std::test::*;

const COUNTER: &str =
    "lanes 2\nlock L\nvar a on L = 0\nhandler add x\nacquire L\nset a = a + x\nlet r = a\nrelease L\nreply r\n";

/// What frames have that call node 2 of three.
const CALLS: [&[u8]; 11] = [
    b"E",
    b"S1 2 add 5",
    b"R\0\0\0\0\0\0\0\x05",
    b"L\x02\0\0\0\0\0\0\0\x05",
    b"C",
    b"M\x01\x01\x01\x02\0\0\0\0\0\0\0\x11\0\0\0\x01",
    b"W\x01\x01\x01\x02\0\0\0\0\0\0\0\x11\0\0\0\x01",
    b"A\x01",
    b"Q\0\x01\0\0\0\0a",
    b"T",
    b"",
];

/// Frames that answer: a request is queued; a message of node 1; three events were made; a frame asked for nothing; and a node
/// that is active.
const ANSWERS: &[u8] =
    b"\0\0\0\x07equeued\0\0\0\x12t\x02\x01\x01\x01\x02\0\0\0\0\0\0\0\x11\0\0\0\x01\
    \0\0\0\x05r\0\0\0\x03\0\0\0\x01f\0\0\0\x12z\x03\0\0\0\0\0\0\0\x11\0\0\0\x03\0\0\x10\0";

/// The letter of what asks for this.
fn letter_of(asked: &Asked) -> u8 {
    match asked {
        Asked::Elect => b'E',
        Asked::Submit { .. } => b'S',
        Asked::Run { .. } => b'R',
        Asked::Turn { .. } => b'L',
        Asked::Cut => b'C',
        Asked::Hear { .. } => b'M',
        Asked::Foretell { .. } => b'W',
        Asked::Ask { .. } => b'A',
        Asked::Read { .. } => b'Q',
        Asked::Look => b'T',
        Asked::Nothing => b'-',
    }
}

/// The letter of what a frame asks node 2 of three for, if memory is there.
fn letter_in(alloc: Global, svc: &Checked, frame: &[u8]) -> Option<u8> {
    match asked_in(alloc, svc, 2, 3, frame) {
        Ok(asked) => Some(letter_of(&asked)),
        Err(_) => None,
    }
}

#[test]
fn frames_ask(rt: HostRuntime) {
    let svc = checked(&rt, rt.alloc(), COUNTER);
    for frame in CALLS {
        let letter = frame.first().copied().unwrap_or(b'-');
        assert_eq!(rt;
            letter_in(rt.alloc(), &svc, frame),
            Some(letter),
            "{frame:?}"
        );
    }
}

/// The frame of the prepare.
fn push_prepare(alloc: Global, out: &mut Vec<u8>) -> Result<(), AllocError> {
    match decode(alloc, &PREPARE) {
        Ok(message) => push_message(out, &message),
        Err(_) => Ok(()),
    }
}

fn answers(alloc: Global, svc: &Checked) -> Result<Vec<u8>, AllocError> {
    let mut out = Vec::new(alloc);
    push_effect(&mut out, svc.declarations(), &Effect::Queued)?;
    push_prepare(alloc, &mut out)?;
    push_count(&mut out, 3)?;
    push_letter(&mut out, NOTHING)?;
    let status = Status {
        role: Role::Active,
        promised: 17,
        known: 3,
        live: 4096,
    };
    push_status(&mut out, status)?;
    Ok(out)
}

/// How many bytes the first frame has, and how many follow it.
fn first_in(bytes: &[u8]) -> Option<(usize, usize)> {
    match front_of(bytes) {
        Front::Whole { frame, rest } => Some((frame.len(), rest.len())),
        Front::More | Front::TooLong => None,
    }
}

#[test]
fn frames_answer(rt: HostRuntime) {
    let svc = checked(&rt, rt.alloc(), COUNTER);
    let out = answers(rt.alloc(), &svc).expect(&rt, "memory");
    assert_eq!(rt; out.as_slice(), ANSWERS);
    assert_eq!(rt; first_in(ANSWERS), Some((7, ANSWERS.len() - 11)));
}
