//! What a keeper's records say of a node.

ghost use Rattle.std.specs.Prelude.{◌≡◌, ◌≤◌, ◌+◌, [], length, List as Items, Ok, IfOk, OnOk, IfErr};
ghost use Rattle.rex_ballot.specs.Proposals.{AreRising};
ghost use Rattle.rex_durable.specs.declared.records.Rec.{Rec};
ghost use Rattle.rex_durable.specs.Kept.{Answers, GivesAt, IsBadRecord, Spell, recovered_in};
ghost use Rattle.rex_durable.specs.Laws.{IsRecovered};
ghost use Rattle.rex_durable.specs.Reading.{record_in};
ghost use Rattle.rex_durable.specs.Recovery.{after, recovered, standing_of};
ghost use Rattle.rex_durable.specs.Spelling.{IsDue, Spells};
ghost use Rattle.rex_durable.specs.declared.records.Rec.TheVariants.{Accepted, Dropped, Transferred};

use crate::fault::RecoverFault;
use crate::latest::{above, put_in, without};
use crate::read::decode;
use crate::records::{Rec, Standing};
use rex_ballot::{INSTANCES, Proposal, Value};
use rex_list::List;
use rex_traits::Keeper;
use rex_wire::DecodeError;
use std::alloc::{AllocError, Global};
use std::mem::replace;

/// What a node's records say of it: with this it comes back after a stop, and with nothing else (Lamport, Paxos Made
/// Simple, 2001: an acceptor has to remember its promise and what it accepted).
#[derive(Drop)]
pub struct Recovered {
    /// The greatest ballot that is recorded, as a promise or as that of an acceptance; 0 without one.
    pub promised: u64,
    /// For each instance above the offset what was accepted last, rising by instance.
    pub accepted: List<Proposal>,
    /// Of how many instances the values aren't held.
    pub offset: u32,
    /// The known values of the instances after these.
    pub known: List<Value>,
    /// Of how many values the last checkpoint, or state that was taken over, is; 0 without one.
    pub base: u32,
    /// That state, as bytes.
    pub snapshot: Option<Value>,
}

impl Recovered {
    /// What is known of a node without records, with room for what so many records say: most say what was accepted for an
    /// instance or what is known of it, half of them each.
    fn new(alloc: Global, records: usize) -> Result<Recovered, AllocError>
        ensures { IfOk result (λ x. x ≡ recovered []) }
    {
        Ok(Recovered {
            promised: 0,
            accepted: List::from_vec(Vec::with_capacity(alloc, records / 2)?),
            offset: 0,
            known: List::from_vec(Vec::with_capacity(alloc, records / 2)?),
            base: 0,
            snapshot: None,
        })
    }

    /// Where a further record stands.
    fn standing(&self) -> Standing
        requires { self.now.offset + length self.now.known ≤ INSTANCES }
        ensures { result ≡ standing_of self.now }
    {
        Standing {
            count: self.offset + self.known.len() as u32,
            offset: self.offset,
            base: self.base,
        }
    }

    /// Adds an acceptance.
    fn accept(&mut self, alloc: Global, proposal: Proposal) -> Result<(), AllocError>
        requires { AreRising 0 self.old.accepted }
        ensures { OnOk result (self.new ≡ after self.old (Accepted proposal.ballot proposal.instance proposal.value)) }
    {
        self.promised = self.promised.max(proposal.ballot);
        if proposal.instance > self.offset {
            put_in(alloc, &mut self.accepted, proposal)?;
        }
        Ok(())
    }

    /// Forgets the values and the acceptances of the first so many instances. It takes no memory.
    fn forget(&mut self, alloc: Global, deltas: u32)
        requires from { self.old.offset ≤ deltas }
        requires to { deltas ≤ self.old.offset + length self.old.known }
        ensures { self.new ≡ after self.old (Dropped deltas) }
    {
        let accepted = replace(&mut self.accepted, List::new(alloc));
        let known = replace(&mut self.known, List::new(alloc));
        self.accepted = above(accepted, deltas);
        self.known = without(known, deltas - self.offset);
        self.offset = deltas;
    }

    /// Moves to the state after the values of so many instances, none of which is held. It takes no memory.
    fn move_to(&mut self, alloc: Global, deltas: u32, snapshot: Value)
        ensures { self.new ≡ after self.old (Transferred deltas snapshot) }
    {
        let accepted = replace(&mut self.accepted, List::new(alloc));
        self.accepted = above(accepted, deltas);
        self.known = List::new(alloc);
        self.offset = deltas;
        self.base = deltas;
        self.snapshot = Some(snapshot);
    }

    /// Adds what the next record says.
    fn add(&mut self, alloc: Global, rec: Rec) -> Result<(), AllocError>
        requires rising { AreRising 0 self.old.accepted }
        requires due { IsDue (standing_of self.old) rec }
        requires base { self.old.base ≤ self.old.offset + length self.old.known }
        ensures { OnOk result (self.new ≡ after self.old rec) }
    {
        match rec {
            Rec::Promised { ballot } => self.promised = self.promised.max(ballot),
            Rec::Accepted {
                ballot,
                instance,
                value,
            } => {
                let proposal = Proposal {
                    instance,
                    ballot,
                    value,
                };
                self.accept(alloc, proposal)?;
            }
            Rec::Known { value, .. } => self.known.push(value)?,
            Rec::Checkpoint { deltas, snapshot } => {
                self.base = deltas;
                self.snapshot = Some(snapshot);
            }
            Rec::Dropped { deltas } => self.forget(alloc, deltas),
            Rec::Transferred { deltas, snapshot } => self.move_to(alloc, deltas, snapshot),
        }
        Ok(())
    }
}

/// The record of this number, which counts from 1, behind others.
fn read(alloc: Global, bytes: &[u8], standing: Standing, number: usize) -> Result<Rec, RecoverFault>
    requires { standing.count ≤ INSTANCES }
    ensures found { IfOk result (Spells standing bytes.now) }
    ensures exact { GivesAt result number (record_in standing bytes.now) }
{
    match decode(alloc, bytes, standing) {
        Ok(rec) => Ok(rec),
        Err(DecodeError::Bad { at }) => Err(RecoverFault::BadRecord { number, at }),
        Err(DecodeError::OutOfMemory) => Err(RecoverFault::OutOfMemory),
    }
}

/// What a keeper's records say of its node, whatever bytes they are.
///
/// Values and snapshots aren't looked into.
pub fn recover<K: Keeper>(alloc: Global, keeper: &K) -> Result<Recovered, RecoverFault>
    ensures found { IfOk result (λ x. (rs : Items Rec) × Spell (K.records keeper.now) rs × (x ≡ recovered rs)) }
    ensures only { (rs : Items Rec) → Spell (K.records keeper.now) rs → Answers result (Ok (recovered rs)) }
    ensures fits { IfOk result IsRecovered }
    ensures bad { IfErr result (IsBadRecord (K.records keeper.now)) }
    ensures exact { Answers result (recovered_in (K.records keeper.now)) }
{
    let mut recovered = Recovered::new(alloc, keeper.len())?;
    for index in 0..keeper.len() {
        let standing = recovered.standing();
        let rec = read(alloc, keeper.get(index), standing, index + 1)?;
        recovered.add(alloc, rec)?;
    }
    Ok(recovered)
}
