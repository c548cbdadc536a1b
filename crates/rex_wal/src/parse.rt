//! Reading the records of a journal.

ghost use Rattle.std.specs.Prelude.{◌≡◌, ◌≢◌, ◌+◌, ◌++◌, true, false, ℕ, List as Items, IfErr, IfOk, IfSome, IsNone};
ghost use Rattle.rex_file.specs.Mixing.{byte_at};
ghost use Rattle.rex_wal.specs.Journal.{BeginsNone, NoneLater, IsBad, IsBegun, IsRecord, entry, head};
ghost use Rattle.rex_journal.specs.Opening.{IsCauseIn};
ghost use Rattle.rex_wal.specs.Opening.{IsFound};
ghost use Rattle.rex_journal.specs.declared.fault.OpenFault.TheVariants as open_fault;

use crate::OpenFault;
use crate::spell::{Front, HEAD, first_of};
use rex_list::List;
use std::alloc::{AllocError, Global};

/// The records of a journal, and where the next one is to be written. Where the journal is only begun, its head has to be written first.
#[derive(Drop)]
pub(crate) struct Found {
    pub(crate) records: Vec<List<u8>>,
    pub(crate) end: usize,
    pub(crate) is_begun: bool,
}

// The record at the front of these bytes, and what stands behind it, if it is whole.
fn first_record(alloc: Global, bytes: &[u8]) -> Result<Option<(List<u8>, &[u8])>, AllocError>
    ensures some { IfOk result (λ found. IfSome found (λ r. bytes.now ≡ entry r.0 ++ r.1.now)) }
    ensures each { IfOk result (λ found. IfSome found (λ r. IsRecord r.0)) }
    ensures none { IfOk result (λ found. IsNone found → BeginsNone bytes.now) }
{
    let mut record = Vec::new(alloc);
    let mut rest = bytes;
    loop {
        match first_of(rest) {
            Front::Byte(byte, behind) => {
                record.push(byte)?;
                rest = behind;
            }
            Front::End(behind) => return Ok(Some((List::from_vec(record), behind))),
            Front::Nothing => return Ok(None),
        }
    }
}

// Whether another byte than 0 stands behind an end mark.
fn has_later(bytes: &[u8]) -> bool
    ensures yes { result ≡ true → (i : ℕ) × (byte_at bytes.now i ≡ 255) × (byte_at bytes.now (i + 1) ≡ 1) × (byte_at bytes.now (i + 2) ≢ 0) }
    ensures no { result ≡ false → NoneLater bytes.now }
{
    for i in 2..bytes.len() {
        if bytes[i - 2] == 255 && bytes[i - 1] == 1 && bytes[i] != 0 {
            return true;
        }
    }
    false
}

// Whether each byte is 0, or the one that the head has there.
fn is_begun(bytes: &[u8]) -> bool
    ensures yes { result ≡ true → IsBegun bytes.now }
    ensures no { IsBegun bytes.now → result ≡ true }
{
    for i in 0..bytes.len() {
        if bytes[i] != 0 && HEAD.get(i) != Some(&bytes[i]) {
            return false;
        }
    }
    true
}

// What is found in bytes at whose front no head stands.
fn begin(alloc: Global, bytes: &[u8]) -> Result<Found, OpenFault>
    requires no_head { (behind : Items ℕ) → bytes.now ≢ head ++ behind }
    ensures found { IfOk result (λ f. IsFound bytes.now f.records.items f.end f.is_begun) }
    ensures bad { IfErr result (IsCauseIn IsBad bytes.now) }
    ensures whole { IfErr result (λ e. (e ≡ open_fault.Failed) → ⊥) }
{
    if is_begun(bytes) {
        return Ok(Found {
            records: Vec::new(alloc),
            end: HEAD.len(),
            is_begun: true,
        });
    }
    Err(OpenFault::BadJournal { at: 0 })
}

/// Reads the records of a journal.
pub(crate) fn parse(alloc: Global, bytes: &[u8]) -> Result<Found, OpenFault>
    ensures found { IfOk result (λ f. IsFound bytes.now f.records.items f.end f.is_begun) }
    ensures bad { IfErr result (IsCauseIn IsBad bytes.now) }
    ensures whole { IfErr result (λ e. (e ≡ open_fault.Failed) → ⊥) }
{
    let Some(behind_head) = bytes.strip_prefix(&HEAD) else {
        return begin(alloc, bytes);
    };
    let mut records = Vec::new(alloc);
    let mut rest = behind_head;
    while let Some((record, behind)) = first_record(alloc, rest)? {
        records.push(record)?;
        rest = behind;
    }
    let end = bytes.len() - rest.len();
    if has_later(rest) {
        return Err(OpenFault::BadJournal { at: end as u64 });
    }
    Ok(Found {
        records,
        end,
        is_begun: false,
    })
}
