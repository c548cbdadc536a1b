//! Services for tests, read from their texts and checked.

use rex_lockset::check;
use rex_parse::read_service;
use rex_syntax::checked::Checked;
use rex_syntax::service::Service;
use std::alloc::Global;
use std::process::Abort;

/// The service that a text of less than 1,000 bytes declares.
pub(crate) fn service(rt: &impl Abort, alloc: Global, text: &str) -> Service {
    assert!(rt; text.len() < 1000);
    read_service(alloc, text.as_bytes())
        .ok()
        .expect(rt, "a service")
}

/// The same, checked.
pub(crate) fn checked(rt: &impl Abort, alloc: Global, text: &str) -> Checked {
    let service = service(rt, alloc, text);
    check(alloc, service).ok().expect(rt, "a checked service")
}
