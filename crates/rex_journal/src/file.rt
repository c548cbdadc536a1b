//! What is done to the disk when an entry is committed, and when the records of a journal are recovered.

ghost use Rattle.std.specs.Prelude.{◌≡◌, ◌<◌, ◌≤◌, ◌+◌, ◌-◌, ◌^◌, ◌++◌, ◌∷◌, [], ℕ, List, Option, Some, None, IsTrue, IfErr, IfOk, OnOk, length, take};
ghost use Rattle.rex_disk.specs.Calls.{Counts, HasRoom, Reaches, UsesRoom};
ghost use Rattle.rex_disk.specs.Stops.{LeavesOnly, Only, Torn, overwritten};
ghost use Rattle.rex_journal.specs.Journal.{AllShort, Holds, IsBad, StandsFor, entry};
ghost use Rattle.rex_journal.specs.Keeping.{AllStandFor, IsSettled};
ghost use Rattle.rex_journal.specs.Opening.{CountsFailed, IsCauseIn, IsClosing, Leaves};
ghost use Rattle.rex_journal.specs.Giving.{Closes, Commits, LooksInto, Opened, Opens, OpensGate, WritesThrough};
ghost use Rattle.rex_journal.specs.Keeping.{IsFront, LeavesFront};

use crate::OpenFault;
use crate::parse::{Found, parse};
use rex_disk::Disk;
use rex_traits::Failed;
use std::alloc::Global;

/// What the failure of an append leaves of its gate.
#[derive(Clone, Copy, Debug)]
pub(crate) enum GateLeft {
    /// It is closed: the gate was not written.
    Closed,
    /// It may be open or not: the write of the gate failed.
    Unknown,
    /// It reads as open: the gate was written and not synced.
    Open,
}

/// Writes, and syncs what was written.
pub(crate) fn write_through<D: Disk>(disk: &mut D, at: u64, bytes: &[u8]) -> Result<(), Failed>
    requires count { D.faults disk.old < 2 ^ 64 - 1 }
    requires within { at ≤ length (D.seen disk.old) }
    requires fits { at + length bytes.now < 2 ^ 64 }
    requires calls { 2 ≤ D.calls_left disk.old }
    requires room { length bytes.now ≤ D.bytes_left disk.old }
    ensures written { IsTrue (D.meets disk.old) → OnOk result (D.seen disk.new ≡ overwritten at bytes.now (D.seen disk.old)) }
    ensures durable { IsTrue (D.meets disk.old) → OnOk result (Only (D.seen disk.new) (D.may_leave disk.new)) }
    ensures any_moment { IsTrue (D.meets disk.old) → Only (D.seen disk.old) (D.may_leave disk.old)
        → LeavesOnly D.moment D.left_since disk.old disk.new (Torn at (length bytes.now) (D.seen disk.old)) }
    ensures calls { WritesThrough D.gives at bytes.now disk.old disk.new result }
    ensures length { Reaches (at + length bytes.now) (length (D.seen disk.old)) (length (D.seen disk.new)) result }
    ensures cause { Counts (D.faults disk.old) (D.faults disk.new) result }
    ensures used { OnOk result (UsesRoom 2 (length bytes.now) (D.calls_left disk.old) (D.calls_left disk.new) (D.bytes_left disk.old) (D.bytes_left disk.new)) }
    ensures model { D.meets disk.new ≡ D.meets disk.old }
{
    disk.write(at, bytes)?;
    disk.sync()
}

/// Writes an entry behind the closed gate, and then opens that gate.
pub(crate) fn commit<D: Disk>(disk: &mut D, gate: u64, spelled: &[u8]) -> Result<(), GateLeft>
    requires count { D.faults disk.old < 2 ^ 64 - 1 }
    requires within { gate < length (D.seen disk.old) }
    requires fits { length (D.seen disk.old) + length spelled.now + 1 < 2 ^ 64 }
    requires calls { 4 ≤ D.calls_left disk.old }
    requires room { length spelled.now + 1 ≤ D.bytes_left disk.old }
    ensures settled { (records : List (List ℕ)) (one_more : List ℕ) → IsSettled D.meets D.seen D.may_leave disk.old records gate
        → spelled.now ≡ entry one_more → length one_more < 2 ^ 32 → OnOk result
        (IsSettled D.meets D.seen D.may_leave disk.new (records ++ one_more ∷ []) (gate + length spelled.now)) }
    ensures any_moment { (records : List (List ℕ)) (one_more : List ℕ) → IsTrue (D.meets disk.old)
        → IsSettled D.meets D.seen D.may_leave disk.old records gate → spelled.now ≡ entry one_more → length one_more < 2 ^ 32
        → LeavesOnly D.moment D.left_since disk.old disk.new (StandsFor records (Some one_more)) }
    ensures front { (records : List (List ℕ)) (one_more : List ℕ) → IsSettled D.meets D.seen D.may_leave disk.old records gate
        → spelled.now ≡ entry one_more → length one_more < 2 ^ 32 → IfErr result
        (λ left. LeavesFront D.meets D.seen disk.new records one_more gate (gate + length spelled.now) left) }
    ensures calls { Commits D.gives gate spelled.now disk.old disk.new result }
    ensures cause { Counts (D.faults disk.old) (D.faults disk.new) result }
    ensures model { D.meets disk.new ≡ D.meets disk.old }
{
    match write_through(disk, gate + 1, spelled) {
        Ok(()) => open_gate(disk, gate),
        Err(_) => Err(GateLeft::Closed),
    }
}

// Opens the gate behind which an entry stands.
fn open_gate<D: Disk>(disk: &mut D, gate: u64) -> Result<(), GateLeft>
    requires count { D.faults disk.old < 2 ^ 64 - 1 }
    requires within { gate < length (D.seen disk.old) }
    requires fits { gate + 1 < 2 ^ 64 }
    requires calls { 2 ≤ D.calls_left disk.old }
    requires room { 1 ≤ D.bytes_left disk.old }
    ensures written { IsTrue (D.meets disk.old) → Opened (D.seen disk.new ≡ overwritten gate (1 ∷ []) (D.seen disk.old)) result }
    ensures durable { IsTrue (D.meets disk.old) → OnOk result (Only (D.seen disk.new) (D.may_leave disk.new)) }
    ensures any_moment { IsTrue (D.meets disk.old) → Only (D.seen disk.old) (D.may_leave disk.old)
        → LeavesOnly D.moment D.left_since disk.old disk.new (Torn gate 1 (D.seen disk.old)) }
    ensures calls { OpensGate D.gives gate disk.old disk.new result }
    ensures length { OnOk result (length (D.seen disk.new) ≡ length (D.seen disk.old)) }
    ensures cause { Counts (D.faults disk.old) (D.faults disk.new) result }
    ensures model { D.meets disk.new ≡ D.meets disk.old }
{
    if disk.write(gate, &[1]).is_err() {
        return Err(GateLeft::Unknown);
    }
    if disk.sync().is_err() {
        return Err(GateLeft::Open);
    }
    Ok(())
}

/// Finds the records of a journal, and closes the gate behind them where it isn't 0.
pub(crate) fn recover<D: Disk>(alloc: Global, disk: &mut D) -> Result<Found, OpenFault>
    requires count { D.faults disk.old < 2 ^ 64 - 1 }
    ensures holds { IsTrue (D.meets disk.old) → IfOk result (λ f. Holds (D.seen disk.old) f.records.items) }
    ensures settled { IfOk result (λ f. IsSettled D.meets D.seen D.may_leave disk.new f.records.items f.gate) }
    ensures bad { IsTrue (D.meets disk.old) → IfErr result (IsCauseIn IsBad (D.seen disk.old)) }
    ensures unread { IsTrue (D.meets disk.old) → IfErr result (Leaves IsBad (D.seen disk.old) (D.seen disk.new)) }
    ensures any_moment { (records : List (List ℕ)) (pending : Option (List ℕ)) → IsTrue (D.meets disk.old) → AllShort records
        → AllStandFor (D.may_leave disk.old) records pending → LeavesOnly D.moment D.left_since disk.old disk.new (StandsFor records pending) }
    ensures calls { Opens D.gives disk.old disk.new result }
    ensures cause { CountsFailed (D.faults disk.old) (D.faults disk.new) result }
    ensures model { D.meets disk.new ≡ D.meets disk.old }
{
    let bytes = read_synced(alloc, disk)?;
    let found = parse(alloc, &bytes)?;
    close_gate(disk, &bytes, found.gate)?;
    Ok(found)
}

// Writes 0 to the gate at this place, where 0 isn't what these bytes, the disk's own, have there.
fn close_gate<D: Disk>(disk: &mut D, bytes: &[u8], gate: usize) -> Result<(), Failed>
    requires count { D.faults disk.old < 2 ^ 64 - 1 }
    requires len { length bytes.now ≡ length (D.seen disk.old) }
    requires within { gate ≤ length bytes.now }
    requires room { HasRoom 2 1 (D.calls_left disk.old) (D.bytes_left disk.old) (length (D.seen disk.old)) }
    ensures closed { IsTrue (D.meets disk.old) → bytes.now ≡ D.seen disk.old
        → OnOk result (take (gate + 1) (D.seen disk.new) ≡ take gate (D.seen disk.old) ++ 0 ∷ []) }
    ensures durable { IsTrue (D.meets disk.old) → Only (D.seen disk.old) (D.may_leave disk.old)
        → OnOk result (Only (D.seen disk.new) (D.may_leave disk.new)) }
    ensures any_moment { IsTrue (D.meets disk.old) → bytes.now ≡ D.seen disk.old → Only (D.seen disk.old) (D.may_leave disk.old)
        → LeavesOnly D.moment D.left_since disk.old disk.new (IsClosing gate (D.seen disk.old)) }
    ensures within { OnOk result (gate < length (D.seen disk.new)) }
    ensures calls { Closes D.gives gate disk.old disk.new result }
    ensures cause { Counts (D.faults disk.old) (D.faults disk.new) result }
    ensures model { D.meets disk.new ≡ D.meets disk.old }
{
    if bytes.get(gate) == Some(&0) {
        return Ok(());
    }
    write_through(disk, gate as u64, &[0])?;
    Ok(())
}

// Syncs a disk and reads all its bytes, with room for one write of a byte and a sync behind it.
fn read_synced<D: Disk>(alloc: Global, disk: &mut D) -> Result<Vec<u8>, OpenFault>
    requires count { D.faults disk.old < 2 ^ 64 - 1 }
    ensures bytes { IsTrue (D.meets disk.old) → IfOk result (λ b. b.items ≡ D.seen disk.old) }
    ensures seen { IsTrue (D.meets disk.old) → D.seen disk.new ≡ D.seen disk.old }
    ensures durable { IsTrue (D.meets disk.old) → OnOk result (Only (D.seen disk.new) (D.may_leave disk.new)) }
    ensures any_moment { IsTrue (D.meets disk.old) → LeavesOnly D.moment D.left_since disk.old disk.new (D.may_leave disk.old) }
    ensures len { IfOk result (λ b. length b.items ≡ length (D.seen disk.new)) }
    ensures room { OnOk result (HasRoom 2 1 (D.calls_left disk.new) (D.bytes_left disk.new) (length (D.seen disk.new))) }
    ensures calls { LooksInto D.gives disk.old disk.new result }
    ensures cause { CountsFailed (D.faults disk.old) (D.faults disk.new) result }
    ensures good { IfErr result (IsCauseIn IsBad (D.seen disk.old)) }
    ensures model { D.meets disk.new ≡ D.meets disk.old }
{
    disk.reserve(3, 1)?;
    disk.sync()?;
    let len = disk.len() as usize;
    let mut bytes = vec![in alloc; 0; len]?;
    disk.read(0, &mut bytes)?;
    Ok(bytes)
}
