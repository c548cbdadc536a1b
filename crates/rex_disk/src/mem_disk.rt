//! A disk in memory: it keeps a record of its writes and syncs, and fails the calls that are named or planned.

ghost use Rattle.std.specs.Prelude.{◌≡◌, ◌<◌, ◌≤◌, ◌==◌, ◌+◌, ◌-◌, ◌^◌, ◌++◌, ◌∷◌, [], length, refl, take, drop, true, false, vec_capacity, vec_len};
ghost use Rattle.std.specs.Prelude.{IfOk, IsTrue, OnErr, OnOk, cond, max};
ghost use Rattle.std.specs.List.{list_any};
ghost use Rattle.rex_disk.specs.Calls.{HasRoom, UsesRoom};
ghost use Rattle.rex_disk.specs.Calls.Call.{Reads, Writes, Syncs};
ghost use Rattle.rex_disk.specs.Decoded.{written_by};
ghost use Rattle.rex_disk.specs.Images.{image_after};
ghost use Rattle.rex_disk.specs.Memory.{DoesCall, Follows, Reserved, new_disk, plan_after_sync, plan_after_write, sync_fails, write_fails};
ghost use Rattle.rex_disk.specs.Record.{LeftAfter, LeftSince, are_within, seen_after};
ghost use Rattle.rex_disk.specs.RecordLaws.{now_since, seen_left, since_now};
ghost use Rattle.rex_disk.specs.Stops.{overwritten};
ghost use Rattle.rex_disk.specs.declared.entry.Entry.TheVariants as entry;
ghost use Rattle.rex_traits.specs.Causes.{one_more};

use crate::entry::Entry;
use crate::image::image_of;
use crate::{Disk, Fill, Plan};
use rex_traits::Failed;
use std::alloc::{AllocError, Global};
use std::marker::Model;

/// A disk in memory, which keeps a record of its writes and syncs. What a read gives and what a stop may leave follows from
/// that record: a write that fails leaves the bytes as they were, and counts as torn all the same.
///
/// The calls whose numbers are named fail, and the one that is planned. Where none is, no call fails.
#[derive(Drop)]
pub struct MemDisk {
    first: Vec<u8>,
    bytes: Vec<u8>,
    log: Vec<Entry>,
    written: Vec<u8>,
    made: u64,
    failing: Vec<u64>,
    plan: Option<Plan>,
    faults: u64,
    calls_left: u64,
    bytes_left: u64,
}

impl Model for MemDisk {
    ghost use Rattle.rex_disk.specs.Memory.{DiskValue};

    ghost Value = { DiskValue };

    ghost use Rattle.rex_disk.specs.Inside.{IsKept, value_of};

    ghost view = { value_of };

    ghost invariant = { IsKept };
}

// Whether the next call is named, by its number.
fn is_named(failing: &[u64], made: &mut u64) -> bool
    ensures made { made.new ≡ one_more made.old }
    ensures named { result ≡ list_any (λ number. number == made.new) failing.now }
{
    *made = made.saturating_add(1);
    failing.contains(made)
}

// Whether a write is planned to fail.
fn is_write_planned(plan: &mut Option<Plan>) -> bool
    ensures fails { result ≡ write_fails plan.old }
    ensures plan { plan.new ≡ plan_after_write plan.old }
{
    match *plan {
        Some(Plan::Write) => {
            *plan = None;
            true
        }
        Some(Plan::Sync { writes }) => {
            if writes > 0 {
                *plan = Some(Plan::Sync { writes: writes - 1 });
            }
            false
        }
        None => false,
    }
}

// Whether a sync is planned to fail.
fn is_sync_planned(plan: &mut Option<Plan>) -> bool
    ensures fails { result ≡ sync_fails plan.old }
    ensures plan { plan.new ≡ plan_after_sync plan.old }
{
    if let Some(Plan::Sync { writes: 0 }) = *plan {
        *plan = None;
        return true;
    }
    false
}

// Puts bytes over others, and past the end.
fn put(held: &mut Vec<u8>, at: usize, bytes: &[u8])
    requires within { at ≤ length held.old.items }
    requires fits { at + length bytes.now < 2 ^ 64 }
    requires room { length held.old.items + length bytes.now ≤ vec_capacity held.old }
    ensures items { held.new.items ≡ overwritten at bytes.now held.old.items }
    ensures capacity { vec_capacity held.old ≤ vec_capacity held.new }
    ensures length { length held.new.items ≤ length held.old.items + length bytes.now }
{
    let end = at + bytes.len();
    if end < held.len() {
        held[at..end].copy_from_slice(bytes);
        return;
    }
    held.truncate(at);
    let _ = held.extend_from_slice(bytes);
}

// Keeps bytes behind others.
fn keep(written: &mut Vec<u8>, bytes: &[u8])
    requires room { length written.old.items + length bytes.now ≤ vec_capacity written.old }
    ensures items { written.new.items ≡ written.old.items ++ bytes.now }
    ensures capacity { vec_capacity written.old ≤ vec_capacity written.new }
{
    let _ = written.extend_from_slice(bytes);
}

// One more call that may have failed.
fn count(faults: &mut u64, failed: bool)
    requires { faults.old < 2 ^ 64 - 1 }
    ensures { faults.new ≡ cond failed (faults.old + 1) faults.old }
{
    if failed {
        *faults += 1;
    }
}

impl MemDisk {
    /// A disk with these bytes. The reads, writes and syncs whose numbers stand in `failing` fail, of which the first
    /// is 1.
    pub fn new(alloc: Global, bytes: &[u8], failing: &[u64]) -> Result<MemDisk, AllocError>
        ensures { IfOk result (λ d. d ≡ new_disk bytes.now failing.now) }
    {
        let first = bytes.to_vec(alloc)?;
        let bytes = bytes.to_vec(alloc)?;
        let failing = failing.to_vec(alloc)?;
        Ok(MemDisk {
            first,
            bytes,
            log: Vec::new(alloc),
            written: Vec::new(alloc),
            made: 0,
            failing,
            plan: None,
            faults: 0,
            calls_left: 0,
            bytes_left: 0,
        })
    }

    /// The bytes that a read gives.
    pub fn bytes(&self) -> &[u8]
        ensures { result.now ≡ seen_after self.now.first self.now.done }
    {
        &self.bytes
    }

    /// The image of a stop now in which each write since the last sync that went well is filled alike. It is one of those that a
    /// stop may leave.
    pub fn image(&self, alloc: Global, fill: Fill) -> Result<Vec<u8>, AllocError>
        ensures image { IfOk result (λ image. image.items ≡ image_after fill self.now.first self.now.done) }
    {
        let held = self.first.to_vec(alloc)?;
        let image = self.first.to_vec(alloc)?;
        image_of(alloc, fill, held, image, &self.log, &self.written)
    }

    /// The failure that is planned.
    pub fn plan(&self) -> Option<Plan>
        ensures { result ≡ self.now.plan }
    {
        self.plan
    }

    /// Plans a failure, or none, in place of the one that was planned.
    pub fn set_plan(&mut self, plan: Option<Plan>)
        ensures { self.new ≡ record self.old { plan = plan } }
    {
        self.plan = plan;
    }

    // Reads, and answers whether that failed.
    fn read_bytes(&mut self, at: u64, buf: &mut [u8]) -> bool
        requires count { self.old.faults < 2 ^ 64 - 1 }
        requires within { at + length buf.old ≤ length (seen_after self.old.first self.old.done) }
        ensures bytes { result ≡ false → buf.new ≡ take (length buf.old) (drop at (seen_after self.old.first self.old.done)) }
        ensures follows { Follows self.old (Reads at (length buf.old)) result self.new }
        ensures faults { self.new.faults ≡ cond result (self.old.faults + 1) self.old.faults }
        ensures room { UsesRoom 0 0 self.old.calls_left self.new.calls_left self.old.bytes_left self.new.bytes_left }
    {
        let failed = is_named(&self.failing, &mut self.made);
        count(&mut self.faults, failed);
        if !failed {
            let at = at as usize;
            buf.copy_from_slice(&self.bytes[at..at + buf.len()]);
        }
        failed
    }

    // Writes, and answers whether that failed.
    fn write_bytes(&mut self, at: u64, bytes: &[u8]) -> bool
        requires count { self.old.faults < 2 ^ 64 - 1 }
        requires within { at ≤ length (seen_after self.old.first self.old.done) }
        requires fits { at + length bytes.now < 2 ^ 64 }
        requires call { 1 ≤ self.old.calls_left }
        requires room { length bytes.now ≤ self.old.bytes_left }
        ensures follows { Follows self.old (Writes at bytes.now) result self.new }
        ensures faults { self.new.faults ≡ cond result (self.old.faults + 1) self.old.faults }
        ensures room { UsesRoom 1 (length bytes.now) self.old.calls_left self.new.calls_left self.old.bytes_left self.new.bytes_left }
    {
        let named = is_named(&self.failing, &mut self.made);
        let planned = is_write_planned(&mut self.plan);
        let failed = named | planned;
        count(&mut self.faults, failed);
        self.calls_left -= 1;
        self.bytes_left -= bytes.len() as u64;
        let len = bytes.len() as u64;
        self.log.push_reserved(Entry::Write { at, len, failed });
        keep(&mut self.written, bytes);
        if !failed {
            put(&mut self.bytes, at as usize, bytes);
        }
        failed
    }

    // Syncs, and answers whether that failed.
    fn sync_bytes(&mut self) -> bool
        requires count { self.old.faults < 2 ^ 64 - 1 }
        requires call { 1 ≤ self.old.calls_left }
        ensures follows { Follows self.old Syncs result self.new }
        ensures faults { self.new.faults ≡ cond result (self.old.faults + 1) self.old.faults }
        ensures room { UsesRoom 1 0 self.old.calls_left self.new.calls_left self.old.bytes_left self.new.bytes_left }
    {
        let named = is_named(&self.failing, &mut self.made);
        let planned = is_sync_planned(&mut self.plan);
        let failed = named | planned;
        count(&mut self.faults, failed);
        self.calls_left -= 1;
        self.log.push_reserved(Entry::Sync { failed });
        failed
    }

    // Reserves room.
    fn reserve_room(&mut self, calls: u64, bytes: u64) -> Result<(), AllocError>
        ensures same { Reserved self.old self.new }
        ensures room { OnOk result (HasRoom calls bytes self.new.calls_left self.new.bytes_left (length (seen_after self.old.first self.old.done))) }
    {
        let len = self.bytes.len() as u64;
        if len.checked_add(bytes).is_none() {
            return Err(AllocError);
        }
        self.log.reserve(calls as usize)?;
        self.written.reserve(bytes as usize)?;
        self.bytes.reserve(bytes as usize)?;
        self.calls_left = calls;
        self.bytes_left = bytes;
        Ok(())
    }
}

impl Disk for MemDisk {
    ghost meets = { λ d. are_within d.first d.done };

    ghost seen = { λ d. seen_after d.first d.done };

    ghost may_leave = { λ d image. LeftAfter d.first d.done image };

    ghost moment = { λ d. length d.done };

    ghost left_since = { λ d moment image. LeftSince d.first d.done moment image };

    ghost faults = { λ d. d.faults };

    ghost calls_left = { λ d. d.calls_left };

    ghost bytes_left = { λ d. d.bytes_left };

    ghost gives = { DoesCall };

    ghost leaves_seen = { λ d met. seen_left d.first d.done met };

    ghost counts_now = { λ d t image met le now. now_since d.first d.done t image le now };

    ghost only_now = { λ d image met left. since_now d.first d.done image left };

    fn len(&self) -> u64 {
        self.bytes().len() as u64
    }

    fn read(&mut self, at: u64, buf: &mut [u8]) -> Result<(), Failed> {
        if self.read_bytes(at, buf) {
            Err(Failed)
        } else {
            Ok(())
        }
    }

    fn write(&mut self, at: u64, bytes: &[u8]) -> Result<(), Failed> {
        if self.write_bytes(at, bytes) {
            Err(Failed)
        } else {
            Ok(())
        }
    }

    fn sync(&mut self) -> Result<(), Failed> {
        if self.sync_bytes() {
            Err(Failed)
        } else {
            Ok(())
        }
    }

    fn reserve(&mut self, calls: u64, bytes: u64) -> Result<(), AllocError> {
        self.reserve_room(calls, bytes)
    }
}
