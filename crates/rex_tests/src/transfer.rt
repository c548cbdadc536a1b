//! What a window holds after three values, after two of them were forgotten, and after a jump.

use rex_transfer::{Look, Window};
use std::process::Abort;
use std::test::*;

/// What a window has for an instance: the byte of the value, the offset up to which values are gone, or the last one that is known.
fn look(window: &Window, instance: u32) -> (&'static str, u32) {
    match window.get(instance) {
        Look::Value(value) => match value.first() {
            Some(byte) => ("value", *byte as u32),
            None => ("no byte", 0),
        },
        Look::Gone { offset } => ("gone", offset),
        Look::Beyond { known } => ("beyond", known),
    }
}

fn push(rt: &impl Abort, window: &mut Window, byte: u8) -> Result<(), Fail> {
    assert!(rt; window.known() < 65535);
    window.push(&[byte], false)?;
    Ok(())
}

/// After three values, after the first two of them were forgotten, and after a jump to instance 5 and one value more: what the window
/// has for instances.
const HELD: [(u32, &str, u32); 5] = [
    (0, "gone", 0),
    (1, "value", 7),
    (2, "value", 8),
    (3, "value", 9),
    (4, "beyond", 3),
];

const DROPPED: [(u32, &str, u32); 5] = [
    (0, "gone", 2),
    (1, "gone", 2),
    (2, "gone", 2),
    (3, "value", 9),
    (4, "beyond", 3),
];

const JUMPED: [(u32, &str, u32); 4] = [
    (3, "gone", 5),
    (5, "gone", 5),
    (6, "value", 4),
    (7, "beyond", 6),
];

#[test]
fn a_window_holds_what_is_past_its_offset(rt: HostRuntime) -> Result<(), Fail> {
    let mut window = Window::new(rt.alloc());
    for byte in [7, 8, 9] {
        push(&rt, &mut window, byte)?;
    }
    for (instance, what, number) in HELD {
        assert_eq!(rt; look(&window, instance), (what, number), "{instance}");
    }
    assert!(rt; window.offset() <= 2 && 2 <= window.known());
    window.drop_to(2);
    for (instance, what, number) in DROPPED {
        assert_eq!(rt; look(&window, instance), (what, number), "{instance}");
    }
    assert!(rt; window.known() < 5);
    window.jump(5);
    push(&rt, &mut window, 4)?;
    for (instance, what, number) in JUMPED {
        assert_eq!(rt; look(&window, instance), (what, number), "{instance}");
    }
    Ok(())
}
