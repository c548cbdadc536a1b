//! What is done to the disk when a record is written, and when the records of a journal are recovered.

ghost use Rattle.std.specs.Prelude.{◌≡◌, ◌<◌, ◌≤◌, ◌+◌, ◌-◌, ◌^◌, ◌++◌, ℕ, List, Option, IsTrue, IfErr, IfOk, OnOk, length};
ghost use Rattle.rex_disk.specs.Calls.{Counts, HasRoom, Reaches, UsesRoom};
ghost use Rattle.rex_disk.specs.Stops.{LeavesOnly, Only, overwritten};
ghost use Rattle.rex_file.specs.Mixing.{Mixed};
ghost use Rattle.rex_journal.specs.Giving.{WritesThrough};
ghost use Rattle.rex_journal.specs.Opening.{CountsFailed, IsCauseIn, Leaves};
ghost use Rattle.rex_wal.specs.Keeping.{AllStandFor, IsSettled};
ghost use Rattle.rex_wal.specs.Journal.{Holds, IsBad, StandsFor, head};
ghost use Rattle.rex_wal.specs.Opening.{IsCleaning, IsFound, LooksInto, Opens};

use crate::OpenFault;
use crate::parse::{Found, parse};
use crate::spell::HEAD;
use rex_file::ByteAtomic;
use rex_traits::Failed;
use std::alloc::{AllocError, Global};

/// Writes, and syncs what was written.
pub(crate) fn write_through<D: ByteAtomic>(
    disk: &mut D,
    at: u64,
    bytes: &[u8],
) -> Result<(), Failed>
    requires count { D.faults disk.old < 2 ^ 64 - 1 }
    requires within { at ≤ length (D.seen disk.old) }
    requires fits { at + length bytes.now < 2 ^ 64 }
    requires calls { 2 ≤ D.calls_left disk.old }
    requires room { length bytes.now ≤ D.bytes_left disk.old }
    ensures written { IsTrue (D.meets disk.old) → OnOk result (D.seen disk.new ≡ overwritten at bytes.now (D.seen disk.old)) }
    ensures durable { IsTrue (D.meets disk.old) → OnOk result (Only (D.seen disk.new) (D.may_leave disk.new)) }
    ensures any_moment { IsTrue (D.meets disk.old) → Only (D.seen disk.old) (D.may_leave disk.old)
        → LeavesOnly D.moment D.left_since disk.old disk.new (Mixed at bytes.now (D.seen disk.old)) }
    ensures calls { WritesThrough D.gives at bytes.now disk.old disk.new result }
    ensures length { Reaches (at + length bytes.now) (length (D.seen disk.old)) (length (D.seen disk.new)) result }
    ensures cause { Counts (D.faults disk.old) (D.faults disk.new) result }
    ensures model { D.meets disk.new ≡ D.meets disk.old }
{
    disk.write(at, bytes)?;
    disk.sync()
}

/// Finds the records of a journal, and sees to it that its head stands before them and nothing but 0 behind them.
pub(crate) fn recover<D: ByteAtomic>(alloc: Global, disk: &mut D) -> Result<Found, OpenFault>
    requires count { D.faults disk.old < 2 ^ 64 - 1 }
    ensures holds { IsTrue (D.meets disk.old) → IfOk result (λ f. Holds (D.seen disk.old) f.records.items) }
    ensures settled { IfOk result (λ f. IsSettled D.meets D.seen D.may_leave disk.new f.records.items f.end) }
    ensures bad { IsTrue (D.meets disk.old) → IfErr result (IsCauseIn IsBad (D.seen disk.old)) }
    ensures unread { IsTrue (D.meets disk.old) → IfErr result (Leaves IsBad (D.seen disk.old) (D.seen disk.new)) }
    ensures any_moment { (records : List (List ℕ)) (pending : Option (List ℕ)) → IsTrue (D.meets disk.old)
        → AllStandFor (D.may_leave disk.old) records pending → LeavesOnly D.moment D.left_since disk.old disk.new (StandsFor records pending) }
    ensures calls { Opens D.gives disk.old disk.new result }
    ensures cause { CountsFailed (D.faults disk.old) (D.faults disk.new) result }
    ensures model { D.meets disk.new ≡ D.meets disk.old }
{
    let bytes = read_synced(alloc, disk)?;
    let found = parse(alloc, &bytes)?;
    let written = cleaning_of(alloc, &bytes, &found)?;
    write_through(disk, written.at as u64, &written.bytes)?;
    Ok(found)
}

// What is to be written at a place of a journal's bytes.
#[derive(Drop)]
struct Cleaning {
    at: usize,
    bytes: Vec<u8>,
}

// What is to be written of a journal of which this was found: its head, or 0 over what stands behind its records.
fn cleaning_of(alloc: Global, bytes: &[u8], found: &Found) -> Result<Cleaning, AllocError>
    requires found { IsFound bytes.now found.now.records.items found.now.end found.now.is_begun }
    ensures { IfOk result (λ w. IsCleaning bytes.now found.now.records.items w.at w.bytes.items) }
{
    if found.is_begun {
        let bytes = HEAD.to_vec(alloc)?;
        return Ok(Cleaning { at: 0, bytes });
    }
    let zeros = vec![in alloc; 0; bytes.len() - found.end]?;
    Ok(Cleaning {
        at: found.end,
        bytes: zeros,
    })
}

// Syncs a disk and reads all its bytes, with room for one write, of the head and as many bytes as it has at most, and a sync behind it.
fn read_synced<D: ByteAtomic>(alloc: Global, disk: &mut D) -> Result<Vec<u8>, OpenFault>
    requires count { D.faults disk.old < 2 ^ 64 - 1 }
    ensures bytes { IsTrue (D.meets disk.old) → IfOk result (λ b. b.items ≡ D.seen disk.old) }
    ensures seen { IsTrue (D.meets disk.old) → D.seen disk.new ≡ D.seen disk.old }
    ensures durable { IsTrue (D.meets disk.old) → OnOk result (Only (D.seen disk.new) (D.may_leave disk.new)) }
    ensures any_moment { IsTrue (D.meets disk.old) → LeavesOnly D.moment D.left_since disk.old disk.new (D.may_leave disk.old) }
    ensures len { IfOk result (λ b. length b.items ≡ length (D.seen disk.new)) }
    ensures room { IfOk result (λ b. HasRoom 2 (length b.items + length head) (D.calls_left disk.new) (D.bytes_left disk.new) (length (D.seen disk.new))) }
    ensures calls { LooksInto D.gives disk.old disk.new result }
    ensures cause { CountsFailed (D.faults disk.old) (D.faults disk.new) result }
    ensures good { IfErr result (IsCauseIn IsBad (D.seen disk.old)) }
    ensures model { D.meets disk.new ≡ D.meets disk.old }
{
    let room = disk.len().checked_add(HEAD.len() as u64).ok_or(AllocError)?;
    disk.reserve(3, room)?;
    disk.sync()?;
    let len = disk.len() as usize;
    let mut bytes = vec![in alloc; 0; len]?;
    disk.read(0, &mut bytes)?;
    Ok(bytes)
}
