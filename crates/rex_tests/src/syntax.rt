//! Names that are numbered in order.

use rex_syntax::names::Names;
use std::test::*;

#[test]
fn names_are_numbered_in_order(rt: HostRuntime) -> Result<(), Fail> {
    let mut names = Names::new(rt.alloc());
    let first = names.insert(b"a".as_slice())?;
    let second = names.insert(b"ab".as_slice())?;
    let again = names.insert(b"a".as_slice())?;
    assert!(rt; first == 1 && second == 2 && again == 1);
    Ok(())
}
