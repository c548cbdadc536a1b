//! What is said of any disk: what its calls do, and which bytes a stop may leave.

ghost use Rattle.std.specs.Prelude.{◌≡◌, ◌≤◌, ◌<◌, ◌+◌, ◌-◌, ◌^◌, List, ℕ, Bool, IsTrue};
ghost use Rattle.std.specs.Prelude.{length, take, drop, OnOk, is_err};
ghost use Rattle.rex_disk.specs.Calls.{Call, Counts, HasRoom, Reaches, UsesRoom};
ghost use Rattle.rex_disk.specs.Calls.Call.{Reads, Writes, Syncs, Reserves};
ghost use Rattle.rex_disk.specs.Stops.{Elapses, NoMore, Only, Rests, Tears, overwritten};

use rex_traits::Failed;
use std::alloc::AllocError;

/// Bytes that outlive a stop of the machine, as far as they were synced.
///
/// Outside the ranges that were written since the last sync, and up to the end that the disk had then, a stop leaves
/// the bytes as they were. A range that was written, also by a write that failed, and all past that end may hold any
/// bytes; the length is any from the old one to the greatest end that was written. After a sync that succeeds, a stop
/// leaves what a read gives.
pub trait Disk {
    /// Whether the disk does what is said of its bytes and of stops. No call changes it.
    ghost meets: { Self → Bool };

    /// The bytes that a read gives now.
    ghost seen: { Self → List ℕ };

    /// Which bytes a stop may leave now.
    ghost may_leave: { Self → List ℕ → Type 0 };

    /// The moment, a number that rises with each write and sync.
    ghost moment: { Self → ℕ };

    /// Which bytes a stop may leave at some moment from that one on.
    ghost left_since: { Self → ℕ → List ℕ → Type 0 };

    /// How often a read, a write or a sync has failed.
    ghost faults: { Self → ℕ };

    /// For how many writes and syncs there is room.
    ghost calls_left: { Self → ℕ };

    /// For how many bytes of writes there is room.
    ghost bytes_left: { Self → ℕ };

    /// What else a call, which failed or didn't, may do to a disk. Here a disk says when its calls fail, as far as it
    /// tells that.
    ghost gives: { Self → Call → Bool → Self → Type 0 };

    /// How many bytes the disk has.
    fn len(&self) -> u64
        ensures { result ≡ length (seen self.now) };

    /// Fills `buf` with the bytes from `at` on. `Failed` says that the disk failed in this call.
    fn read(&mut self, at: u64, buf: &mut [u8]) -> Result<(), Failed>
        requires count { faults self.old < 2 ^ 64 - 1 }
        requires within { at + length buf.old ≤ length (seen self.old) }
        ensures bytes { IsTrue (meets self.old) → OnOk result (buf.new ≡ take (length buf.old) (drop at (seen self.old))) }
        ensures length { length (seen self.new) ≡ length (seen self.old) }
        ensures seen { IsTrue (meets self.old) → seen self.new ≡ seen self.old }
        ensures time { IsTrue (meets self.old) → Rests (moment self.old) (moment self.new) (left_since self.old) (left_since self.new)
            (may_leave self.old) (may_leave self.new) }
        ensures cause { Counts (faults self.old) (faults self.new) result }
        ensures room { UsesRoom 0 0 (calls_left self.old) (calls_left self.new) (bytes_left self.old) (bytes_left self.new) }
        ensures gives { gives self.old (Reads at (length buf.old)) (is_err result) self.new }
        ensures model { meets self.new ≡ meets self.old };

    /// Writes `bytes` from `at` on, over what stands there and past the end. Until a sync a stop may leave any bytes in
    /// their place, also where the answer is `Failed`.
    fn write(&mut self, at: u64, bytes: &[u8]) -> Result<(), Failed>
        requires count { faults self.old < 2 ^ 64 - 1 }
        requires within { at ≤ length (seen self.old) }
        requires fits { at + length bytes.now < 2 ^ 64 }
        requires call { 1 ≤ calls_left self.old }
        requires room { length bytes.now ≤ bytes_left self.old }
        ensures written { IsTrue (meets self.old) → OnOk result (seen self.new ≡ overwritten at bytes.now (seen self.old)) }
        ensures length { Reaches (at + length bytes.now) (length (seen self.old)) (length (seen self.new)) result }
        ensures stop { IsTrue (meets self.old) → Tears at (length bytes.now) (may_leave self.old) (may_leave self.new) }
        ensures time { IsTrue (meets self.old)
            → Elapses (moment self.old) (moment self.new) (left_since self.old) (left_since self.new) (may_leave self.new) }
        ensures cause { Counts (faults self.old) (faults self.new) result }
        ensures used { UsesRoom 1 (length bytes.now) (calls_left self.old) (calls_left self.new) (bytes_left self.old) (bytes_left self.new) }
        ensures gives { gives self.old (Writes at bytes.now) (is_err result) self.new }
        ensures model { meets self.new ≡ meets self.old };

    /// After it a stop leaves what a read gives, unless the answer is `Failed`.
    fn sync(&mut self) -> Result<(), Failed>
        requires count { faults self.old < 2 ^ 64 - 1 }
        requires call { 1 ≤ calls_left self.old }
        ensures durable { IsTrue (meets self.old) → OnOk result (Only (seen self.old) (may_leave self.new)) }
        ensures length { length (seen self.new) ≡ length (seen self.old) }
        ensures seen { IsTrue (meets self.old) → seen self.new ≡ seen self.old }
        ensures stop { IsTrue (meets self.old) → NoMore (may_leave self.old) (may_leave self.new) }
        ensures time { IsTrue (meets self.old)
            → Elapses (moment self.old) (moment self.new) (left_since self.old) (left_since self.new) (may_leave self.new) }
        ensures cause { Counts (faults self.old) (faults self.new) result }
        ensures used { UsesRoom 1 0 (calls_left self.old) (calls_left self.new) (bytes_left self.old) (bytes_left self.new) }
        ensures gives { gives self.old Syncs (is_err result) self.new }
        ensures model { meets self.new ≡ meets self.old };

    /// Sees to it that so many writes and syncs, with so many bytes in all, take no memory. It changes nothing else.
    fn reserve(&mut self, calls: u64, bytes: u64) -> Result<(), AllocError>
        ensures room { OnOk result (HasRoom calls bytes (calls_left self.new) (bytes_left self.new) (length (seen self.new))) }
        ensures length { length (seen self.new) ≡ length (seen self.old) }
        ensures seen { IsTrue (meets self.old) → seen self.new ≡ seen self.old }
        ensures time { IsTrue (meets self.old) → Rests (moment self.old) (moment self.new) (left_since self.old) (left_since self.new)
            (may_leave self.old) (may_leave self.new) }
        ensures faults { faults self.new ≡ faults self.old }
        ensures gives { gives self.old (Reserves calls bytes) (is_err result) self.new }
        ensures model { meets self.new ≡ meets self.old };

    /// What a read gives is one of those that a stop may leave.
    ghost leaves_seen: { (d : Self) → IsTrue (meets d) → may_leave d (seen d) };

    /// This moment is one of those since an earlier one.
    ghost counts_now: { (d : Self) (t : ℕ) (image : List ℕ) → IsTrue (meets d) → t ≤ moment d → may_leave d image → left_since d t image };

    /// Since this moment there is no other.
    ghost only_now: { (d : Self) (image : List ℕ) → IsTrue (meets d) → left_since d (moment d) image → may_leave d image };
}
