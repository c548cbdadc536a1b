//! How records are spelled: without any byte 0, and with an end mark.

ghost use Rattle.std.specs.Prelude.{◌≡◌, ◌<◌, ◌++◌, ◌∷◌, [], All, IfOk};
ghost use Rattle.rex_wal.specs.Journal.{entry, mark, marks};
ghost use Rattle.rex_wal.specs.Spelled.{IsFront};

use std::alloc::{AllocError, Global};

/// What a journal begins with.
pub(crate) const HEAD: [u8; 8] = *b"rexnode\n";

// Spells a byte of a record.
fn push_mark(spelled: &mut Vec<u8>, byte: u8) -> Result<(), AllocError>
    ensures { IfOk result (λ _. spelled.new.items ≡ spelled.old.items ++ mark byte) }
{
    if byte < 254 {
        spelled.push(byte + 1)?;
        return Ok(());
    }
    spelled.push(255)?;
    spelled.push(byte - 252)?;
    Ok(())
}

// Spells bytes of which each takes one mark.
fn spell_low(alloc: Global, bytes: &[u8]) -> Result<Vec<u8>, AllocError>
    requires low { All (λ b. b < 254) bytes.now }
    ensures { IfOk result (λ spelled. spelled.items ≡ marks bytes.now) }
{
    let mut spelled = Vec::with_capacity(alloc, bytes.len() + 2)?;
    spelled.extend_from_slice(bytes)?;
    for i in 0..spelled.len() {
        spelled[i] += 1;
    }
    Ok(spelled)
}

// Spells any bytes.
fn spell_any(alloc: Global, bytes: &[u8]) -> Result<Vec<u8>, AllocError>
    ensures { IfOk result (λ spelled. spelled.items ≡ marks bytes.now) }
{
    let mut spelled = Vec::with_capacity(alloc, bytes.len() + 2)?;
    for &byte in bytes {
        push_mark(&mut spelled, byte)?;
    }
    Ok(spelled)
}

/// Spells a record, with its end mark.
pub(crate) fn spell(alloc: Global, bytes: &[u8]) -> Result<Vec<u8>, AllocError>
    ensures { IfOk result (λ spelled. spelled.items ≡ entry bytes.now) }
{
    // most records have neither 254 nor 255, and go faster at once
    let mut spelled = if bytes.iter().all(|byte| *byte < 254) {
        spell_low(alloc, bytes)?
    } else {
        spell_any(alloc, bytes)?
    };
    spelled.push(255)?;
    spelled.push(1)?;
    Ok(spelled)
}

/// What stands at the front of spelled records.
#[derive(Clone, Copy)]
pub(crate) enum Front<'b> {
    /// A byte of a record, and what stands behind it.
    Byte(u8, &'b [u8]),
    /// The end of a record, and what stands behind it.
    End(&'b [u8]),
    /// Neither.
    Nothing,
}

// What stands behind a byte 255.
fn behind_mark(bytes: &[u8]) -> Front<'_>
    ensures { IsFront (255 ∷ bytes.now) result }
{
    match bytes.split_first() {
        Some((&1, behind)) => Front::End(behind),
        Some((&2, behind)) => Front::Byte(254, behind),
        Some((&3, behind)) => Front::Byte(255, behind),
        _ => Front::Nothing,
    }
}

/// What stands at the front of these bytes.
pub(crate) fn first_of(bytes: &[u8]) -> Front<'_>
    ensures { IsFront bytes.now result }
{
    let Some((&first, behind)) = bytes.split_first() else {
        return Front::Nothing;
    };
    if first == 0 {
        return Front::Nothing;
    }
    if first == 255 {
        return behind_mark(behind);
    }
    Front::Byte(first - 1, behind)
}
