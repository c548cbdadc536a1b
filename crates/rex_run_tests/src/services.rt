//! A service for tests, read from its text and checked.

use rex_lockset::check;
use rex_parse::read_service;
use rex_syntax::checked::Checked;
use std::alloc::Global;
use std::process::Abort;

/// The service that a text of less than 1,000 bytes declares, checked.
pub(crate) fn checked(rt: &impl Abort, alloc: Global, text: &str) -> Checked {
    assert!(rt; text.len() < 1000);
    let service = read_service(alloc, text.as_bytes())
        .ok()
        .expect(rt, "a service");
    check(alloc, service).ok().expect(rt, "a checked service")
}
