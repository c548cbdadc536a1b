//! What holds of all identities. Each function is the statement that its contract makes, and does nothing.

ghost use Rattle.rex_identity.specs.Laws.{BytesTellIdentities};

/// Two identities whose records have the same bytes are the same.
pub fn bytes_tell_identities()
    ensures { BytesTellIdentities }
{}
