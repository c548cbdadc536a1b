//! Images of a stop that a test names.

ghost use Rattle.std.specs.Prelude.{◌≡◌, ℕ, List, IfOk, OnOk, if◌then◌else◌};
ghost use Rattle.rex_disk.specs.Decoded.{decoded};
ghost use Rattle.rex_disk.specs.Images.{filled, image_after};
ghost use Rattle.rex_disk.specs.Record.{Done, seen_after};
ghost use Rattle.rex_disk.specs.Stops.{overwritten};

use crate::Fill;
use crate::entry::Entry;
use std::alloc::{AllocError, Global};

// Lays bytes over others, and past the end.
fn lay(held: &mut Vec<u8>, at: usize, bytes: &[u8]) -> Result<(), AllocError>
    ensures { OnOk result (held.new.items ≡ overwritten at bytes.now held.old.items) }
{
    let end = at.saturating_add(bytes.len());
    if end < held.len() {
        held[at..end].copy_from_slice(bytes);
        return Ok(());
    }
    held.truncate(at);
    held.extend_from_slice(bytes)
}

// Fills the range of a write.
fn fill_in(
    alloc: Global,
    fill: Fill,
    image: &mut Vec<u8>,
    at: usize,
    bytes: &[u8],
) -> Result<(), AllocError>
    ensures { OnOk result (image.new.items ≡ filled fill at bytes.now image.old.items) }
{
    match fill {
        Fill::Old => Ok(()),
        Fill::New => lay(image, at, bytes),
        Fill::Byte(byte) => {
            let same = vec![in alloc; byte; bytes.len()]?;
            lay(image, at, &same)
        }
    }
}

// What a sync leaves: what a read gives, unless it failed.
fn sync_image(
    alloc: Global,
    failed: bool,
    held: &[u8],
    image: Vec<u8>,
) -> Result<Vec<u8>, AllocError>
    ensures { IfOk result (λ r. r.items ≡ (if failed then image.items else held.now)) }
{
    if failed {
        return Ok(image);
    }
    held.to_vec(alloc)
}

// What is read after a write: the bytes that were written, unless it failed.
fn write_held(failed: bool, held: &mut Vec<u8>, at: usize, bytes: &[u8]) -> Result<(), AllocError>
    ensures { OnOk result (held.new.items ≡ (if failed then held.old.items else overwritten at bytes.now held.old.items)) }
{
    if failed {
        return Ok(());
    }
    lay(held, at, bytes)
}

/// Goes on with an image over what was done later, beside what a read gives.
pub(crate) fn image_of(
    alloc: Global,
    fill: Fill,
    mut held: Vec<u8>,
    mut image: Vec<u8>,
    log: &[Entry],
    written: &[u8],
) -> Result<Vec<u8>, AllocError>
    ensures { (first : List ℕ) (done : List Done) → held.items ≡ seen_after first done → image.items ≡ image_after fill first done
        → IfOk result (λ r. r.items ≡ image_after fill first (decoded done log.now written.now)) }
{
    let [entry, later @ ..] = log else {
        return Ok(image);
    };
    match *entry {
        Entry::Write { at, len, failed } => {
            let (bytes, rest) = written.split_at((len as usize).min(written.len()));
            write_held(failed, &mut held, at as usize, bytes)?;
            fill_in(alloc, fill, &mut image, at as usize, bytes)?;
            image_of(alloc, fill, held, image, later, rest)
        }
        Entry::Sync { failed } => {
            let image = sync_image(alloc, failed, &held, image)?;
            image_of(alloc, fill, held, image, later, written)
        }
    }
}
