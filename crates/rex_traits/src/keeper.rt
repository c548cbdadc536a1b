//! What is said of any keeper: it keeps records, each after those before it, and never takes one away.

ghost use Rattle.std.specs.Prelude.{◌≡◌, ◌<◌, ◌-◌, ◌^◌, List, ℕ, [], Err, Result, length, slice_index_or};
ghost use Rattle.rex_traits.specs.Causes.{HasCause};
ghost use Rattle.rex_traits.specs.Keeping.{AppendsRecord, IsKeeperFault, StandsUnlessFailed};
ghost use Rattle.rex_traits.specs.declared.keeper.KeepFault.{KeepFault};
ghost use Rattle.rex_traits.specs.declared.keeper.KeepFault.TheVariants as fault;

/// Why an append was not answered with `Ok`.
#[derive(Clone, Copy, Debug, PartialEq, Eq)]
pub enum KeepFault {
    /// This keeper failed in this call. It may have kept the record or lost it.
    Failed,
    /// No memory was left to keep the record, and it isn't kept.
    OutOfMemory,
}

/// Where records are kept, each after those before it. None is ever taken away.
pub trait Keeper {
    /// The records, as lists of bytes, in the order in which they were appended.
    ghost records: { Self → List (List ℕ) };

    /// How often an append has failed: below 2^64 and never falling. A want of memory is no fault
    /// of the keeper.
    ghost faults: { Self → ℕ };

    /// What else an append of these bytes, with this answer, may do to a keeper. Here a keeper says
    /// when it fails, as far as it tells that.
    ghost append_gives: { Self → List ℕ → Result (Unit {0}) KeepFault → Self → Type 0 };

    /// Appends a record of these bytes.
    fn append(&mut self, bytes: &[u8]) -> Result<(), KeepFault>
        requires count { faults self.old < 2 ^ 64 - 1 }
        requires short { length bytes.now < 2 ^ 32 }
        ensures records { AppendsRecord (records self.old) (records self.new) bytes.now result }
        ensures cause { HasCause IsKeeperFault (faults self.old) (faults self.new) result }
        ensures stands { StandsUnlessFailed (faults self.old) (faults self.new) result }
        ensures gives { append_gives self.old bytes.now result self.new };

    /// How many records there are.
    fn len(&self) -> usize
        ensures { result ≡ length (records self.now) };

    /// The bytes of a record, of which the first has index 0.
    fn get(&self, index: usize) -> &[u8]
        requires { index < length (records self.now) }
        ensures { result.now ≡ slice_index_or (records self.now) index [] };

    /// Memory may run out before anything is done, and then the keeper is as it was.
    ghost may_run_out: { (k : Self) (bytes : List ℕ) → append_gives k bytes (Err fault.OutOfMemory) k };
}
