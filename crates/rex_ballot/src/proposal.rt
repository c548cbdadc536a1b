//! Proposals.

ghost use Rattle.std.specs.Prelude.{◌≡◌, IfOk};

use rex_list::List;
use std::alloc::{AllocError, Global};

/// The most bytes of a value that nodes agree on.
pub const VALUE_BYTES: u32 = 4_194_304;

/// What nodes agree on for an instance: bytes whose meaning is that of the layers above.
pub type Value = List<u8>;

/// A value proposed for an instance in a ballot.
#[derive(Drop)]
pub struct Proposal {
    pub instance: u32,
    pub ballot: u64,
    pub value: Value,
}

impl Proposal {
    /// A proposal of these bytes.
    pub fn new(
        alloc: Global,
        instance: u32,
        ballot: u64,
        value: &[u8],
    ) -> Result<Proposal, AllocError>
        ensures { IfOk result (λ p. p ≡ record { instance = instance; ballot = ballot; value = value.now }) }
    {
        let value = List::from_vec(value.to_vec(alloc)?);
        Ok(Proposal {
            instance,
            ballot,
            value,
        })
    }

    /// The same proposal.
    pub fn copy(&self, alloc: Global) -> Result<Proposal, AllocError>
        ensures { IfOk result (λ p. p ≡ self.now) }
    {
        Proposal::new(alloc, self.instance, self.ballot, self.value.as_slice())
    }
}

/// The same proposals.
pub fn copy_all(alloc: Global, proposals: &[Proposal]) -> Result<List<Proposal>, AllocError>
    ensures { IfOk result (λ copies. copies ≡ proposals.now) }
{
    let mut copies = Vec::with_capacity(alloc, proposals.len())?;
    for proposal in proposals {
        copies.push(proposal.copy(alloc)?)?;
    }
    Ok(List::from_vec(copies))
}
