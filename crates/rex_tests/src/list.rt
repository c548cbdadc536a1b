//! A list and arguments, which keep what is pushed.

use rex_list::{Arguments, List};
use std::test::*;

#[test]
fn a_list_keeps_its_items(rt: HostRuntime) -> Result<(), Fail> {
    let mut list = List::new(rt.alloc());
    assert!(rt; list.is_empty());
    list.push(5u8)?;
    list.push(7)?;
    assert_eq!(rt; list.len(), 2);
    assert_eq!(rt; list.as_slice(), [5, 7].as_slice());
    let list = List::from_vec(list.into_vec());
    assert_eq!(rt; list.as_slice(), [5, 7].as_slice());
    Ok(())
}

#[test]
fn arguments_keep_their_values(rt: HostRuntime) {
    let mut arguments = Arguments::new();
    assert!(rt; arguments.is_empty());
    arguments.push(-3);
    arguments.push(4);
    assert_eq!(rt; arguments.len(), 2);
    assert_eq!(rt; arguments.as_slice(), [-3, 4].as_slice());
}
