//! A file as a disk, with a record of its writes and syncs.

ghost use Rattle.std.specs.Prelude.{◌≡◌, ◌<◌, ◌≤◌, ◌+◌, ◌-◌, ◌^◌, length, take, drop, true, false, cond, max};
ghost use Rattle.std.specs.Prelude.{IfNone, IfOk, IfSome, IsTrue, OnOk};
ghost use Rattle.std.specs.Option.{ForSome};
ghost use Rattle.rex_disk.specs.Calls.{HasRoom, UsesRoom};
ghost use Rattle.rex_disk.specs.Calls.Call.{Reads, Reserves, Writes, Syncs};
ghost use Rattle.rex_disk.specs.Record.{are_within, seen_after};
ghost use Rattle.rex_file.specs.FileCalls.{NotesCall, opened_file};
ghost use Rattle.rex_file.specs.Mixing.{MixedAfter, MixedSince};
ghost use Rattle.rex_file.specs.MixingLaws.{now_since, seen_mixed, since_now};

use crate::FileFault;
use crate::call_trail::CallTrail;
use rex_disk::Disk;
use rex_traits::Failed;
use std::alloc::{AllocError, Global};
use std::fs::File;
use std::io;
use std::marker::Model;
use std::os::unix::fs::FileExt;
use std::snapshot::Snapshot;

/// An open file of the operating system as a disk. It holds the file's lock until it is dropped.
///
/// Reads give the bytes that were read when it was opened. The first write lets go of them: from then on each read fails. Once a
/// write or a sync has failed nothing more is asked of the file, and all later ones fail: after such a failure nobody knows what
/// the file has, and a system may call the next sync good all the same.
#[derive(Drop)]
pub struct FileDisk {
    file: File,
    first: Snapshot<Vec<u8>>,
    trail: CallTrail,
    held: Option<Vec<u8>>,
    len: u64,
    broken: bool,
    faults: u64,
    calls_left: u64,
    bytes_left: u64,
}

impl Model for FileDisk {
    ghost use Rattle.rex_file.specs.FileCalls.{FileValue};

    ghost Value = { FileValue };

    ghost use Rattle.rex_file.specs.Inside.{IsKept, value_of};

    ghost view = { value_of };

    ghost invariant = { IsKept };
}

// All bytes of a file.
fn read_file(alloc: Global, file: &File) -> Result<Vec<u8>, FileFault> {
    let len = file.metadata()?.len() as usize;
    let mut bytes = vec![in alloc; 0; len]?;
    file.read_exact_at(&mut bytes, 0)?;
    Ok(bytes)
}

// Sees to it that what was read of a file is on its disk, and its name in this folder, too. The bytes are written once more, since a
// sync that failed earlier may have left the disk without some of what the system goes on to give.
fn make_durable(file: &File, folder: &File, bytes: &[u8]) -> io::Result<()> {
    file.write_all_at(bytes, 0)?;
    file.sync_all()?;
    folder.sync_all()
}

// Copies the bytes from `at` on of those that are held, and answers whether none are.
fn copy_held(held: &Option<Vec<u8>>, at: usize, buf: &mut [u8]) -> bool
    requires { ForSome held.now (λ bytes. at + length buf.old ≤ length bytes.items) }
    ensures none { IfNone held.now (result ≡ true) }
    ensures some { IfSome held.now (λ _. result ≡ false) }
    ensures copied { IfSome held.now (λ bytes. buf.new ≡ take (length buf.old) (drop at bytes.items)) }
{
    match held {
        Some(bytes) => {
            buf.copy_from_slice(&bytes[at..at + buf.len()]);
            false
        }
        None => true,
    }
}

// Asks a file that isn't broken to write, and answers whether that failed.
fn ask_write(file: &File, broken: bool, at: u64, bytes: &[u8]) -> bool
    ensures { IsTrue broken → IsTrue result }
{
    broken || file.write_all_at(bytes, at).is_err()
}

// Asks a file that isn't broken to sync, and answers whether that failed.
fn ask_sync(file: &File, broken: bool) -> bool
    ensures { IsTrue broken → IsTrue result }
{
    broken || file.sync_data().is_err()
}

// The length after a write up to this end, which may have failed.
fn len_after(failed: bool, len: u64, end: u64) -> u64
    ensures { result ≡ cond failed len (max len end) }
{
    if failed { len } else { len.max(end) }
}

// One more call that may have failed.
fn count(faults: &mut u64, failed: bool)
    requires { faults.old < 2 ^ 64 - 1 }
    ensures { faults.new ≡ cond failed (faults.old + 1) faults.old }
{
    if failed {
        *faults += 1;
    }
}

impl FileDisk {
    /// Takes a file, which lies in this folder, as a disk: locks it without waiting, reads all of it, writes that once more, and syncs
    /// it and the folder.
    /// A refusal closes the file.
    pub fn open(alloc: Global, file: File, folder: &File) -> Result<FileDisk, FileFault>
        ensures opened { IfOk result (λ d. d ≡ opened_file d.first) }
    {
        if !file.metadata()?.is_file() {
            return Err(FileFault::Failed(io::ErrorKind::Unsupported.into()));
        }
        file.try_lock()?;
        let bytes = read_file(alloc, &file)?;
        make_durable(&file, folder, &bytes)?;
        Ok(FileDisk {
            file,
            first: Snapshot::of(&bytes),
            trail: CallTrail::new(),
            len: bytes.len() as u64,
            held: Some(bytes),
            broken: false,
            faults: 0,
            calls_left: 0,
            bytes_left: 0,
        })
    }

    // Reads, and answers whether that failed.
    fn read_bytes(&mut self, at: u64, buf: &mut [u8]) -> bool
        requires count { self.old.faults < 2 ^ 64 - 1 }
        requires within { at + length buf.old ≤ length (seen_after self.old.first self.old.done) }
        ensures bytes { result ≡ false → buf.new ≡ take (length buf.old) (drop at (seen_after self.old.first self.old.done)) }
        ensures notes { NotesCall self.old (Reads at (length buf.old)) result self.new }
        ensures faults { self.new.faults ≡ cond result (self.old.faults + 1) self.old.faults }
        ensures room { UsesRoom 0 0 self.old.calls_left self.new.calls_left self.old.bytes_left self.new.bytes_left }
    {
        let failed = copy_held(&self.held, at as usize, buf);
        count(&mut self.faults, failed);
        failed
    }

    // Writes, and answers whether that failed.
    fn write_bytes(&mut self, at: u64, bytes: &[u8]) -> bool
        requires count { self.old.faults < 2 ^ 64 - 1 }
        requires within { at ≤ length (seen_after self.old.first self.old.done) }
        requires fits { at + length bytes.now < 2 ^ 64 }
        requires call { 1 ≤ self.old.calls_left }
        requires room { length bytes.now ≤ self.old.bytes_left }
        ensures notes { NotesCall self.old (Writes at bytes.now) result self.new }
        ensures faults { self.new.faults ≡ cond result (self.old.faults + 1) self.old.faults }
        ensures room { UsesRoom 1 (length bytes.now) self.old.calls_left self.new.calls_left self.old.bytes_left self.new.bytes_left }
    {
        let failed = ask_write(&self.file, self.broken, at, bytes);
        self.trail.wrote(at, bytes, failed);
        self.held = None;
        self.len = len_after(failed, self.len, at + bytes.len() as u64);
        self.broken = failed;
        self.calls_left -= 1;
        self.bytes_left -= bytes.len() as u64;
        count(&mut self.faults, failed);
        failed
    }

    // Syncs, and answers whether that failed.
    fn sync_bytes(&mut self) -> bool
        requires count { self.old.faults < 2 ^ 64 - 1 }
        requires call { 1 ≤ self.old.calls_left }
        ensures notes { NotesCall self.old Syncs result self.new }
        ensures faults { self.new.faults ≡ cond result (self.old.faults + 1) self.old.faults }
        ensures room { UsesRoom 1 0 self.old.calls_left self.new.calls_left self.old.bytes_left self.new.bytes_left }
    {
        let failed = ask_sync(&self.file, self.broken);
        self.trail.synced(failed);
        self.broken = failed;
        self.calls_left -= 1;
        count(&mut self.faults, failed);
        failed
    }
}

impl Disk for FileDisk {
    ghost meets = { λ d. are_within d.first d.done };

    ghost seen = { λ d. seen_after d.first d.done };

    ghost may_leave = { λ d image. MixedAfter d.first d.done image };

    ghost moment = { λ d. length d.done };

    ghost left_since = { λ d moment image. MixedSince d.first d.done moment image };

    ghost faults = { λ d. d.faults };

    ghost calls_left = { λ d. d.calls_left };

    ghost bytes_left = { λ d. d.bytes_left };

    ghost gives = { NotesCall };

    ghost leaves_seen = { λ d met. seen_mixed d.first d.done met };

    ghost counts_now = { λ d t image met le now. now_since d.first d.done t image le now };

    ghost only_now = { λ d image met left. since_now d.first d.done image left };

    fn len(&self) -> u64 {
        self.len
    }

    fn read(&mut self, at: u64, buf: &mut [u8]) -> Result<(), Failed> {
        if self.read_bytes(at, buf) {
            Err(Failed)
        } else {
            Ok(())
        }
    }

    fn write(&mut self, at: u64, bytes: &[u8]) -> Result<(), Failed> {
        if self.write_bytes(at, bytes) {
            Err(Failed)
        } else {
            Ok(())
        }
    }

    fn sync(&mut self) -> Result<(), Failed> {
        if self.sync_bytes() {
            Err(Failed)
        } else {
            Ok(())
        }
    }

    fn reserve(&mut self, calls: u64, bytes: u64) -> Result<(), AllocError> {
        if self.len.checked_add(bytes).is_none() {
            return Err(AllocError);
        }
        self.calls_left = calls;
        self.bytes_left = bytes;
        Ok(())
    }
}
