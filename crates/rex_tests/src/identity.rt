//! Keepers in memory that are claimed for an identity, and the bytes of its record.

ghost use Rattle.std.specs.Prelude.{◌≡◌, ◌<◌, ◌^◌, IfOk, length};

use rex_identity::{ClaimFault, Identity, Owned, digest_of};
use rex_traits::{Fate, Keeper, MemKeeper};
use std::alloc::Global;
use std::test::*;

/// A service's text.
const TEXT: &str =
    "lanes 2\nlock L\nvar a on L = 0\nhandler add x\nacquire L\nset a = a + x\nlet r = a\nrelease L\nreply r\n";

/// The record of node 2 of 3 in the cluster `lab`, with seed 7 and this service, as docs/RECORDS.md has it.
const RECORD: [u8; 44] = [
    7, 1, 2, 3, 0, 0, 0, 7, 136, 150, 118, 174, 57, 129, 162, 207, 105, 71, 117, 116, 139, 143,
    221, 49, 26, 140, 17, 221, 237, 131, 40, 182, 249, 208, 36, 57, 143, 242, 64, 26, 3, 108, 97,
    98,
];

/// The digest of `abc` (FIPS 180-4).
const ABC: [u8; 32] = [
    186, 120, 22, 191, 143, 1, 207, 234, 65, 65, 64, 222, 93, 174, 34, 35, 176, 3, 97, 163, 150,
    23, 122, 156, 180, 16, 255, 97, 242, 0, 21, 173,
];

/// The identity of which that is the record.
fn second(alloc: Global) -> Result<Identity, Fail> {
    match Identity::new(alloc, "lab", 2, 3, 7, digest_of(TEXT.as_bytes())) {
        Ok(identity) => Ok(identity),
        Err(_) => Err("no memory")?,
    }
}

/// A keeper with this record.
fn holding(alloc: Global, bytes: &[u8]) -> Result<MemKeeper, Fail>
    requires { length bytes.now < 2 ^ 32 }
    ensures { IfOk result (λ k. k.faults ≡ 0) }
{
    let mut keeper = MemKeeper::new(alloc);
    match keeper.append(bytes) {
        Ok(()) => Ok(keeper),
        Err(_) => Err("not appended")?,
    }
}

/// The keeper claimed.
fn claimed(alloc: Global, keeper: MemKeeper) -> Result<Owned<MemKeeper>, Fail>
    requires { keeper.faults ≡ 0 }
    ensures { IfOk result (λ o. o.keeper.faults ≡ 0) }
{
    match Owned::claim(alloc, keeper, second(alloc)?) {
        Ok(owned) => Ok(owned),
        Err(_) => Err("not claimed")?,
    }
}

/// Why the keeper isn't claimed, and how many records it has then.
fn refusal(alloc: Global, keeper: MemKeeper) -> Result<(ClaimFault, usize), Fail>
    requires { keeper.faults ≡ 0 }
{
    match Owned::claim(alloc, keeper, second(alloc)?) {
        Ok(_) => Err("claimed")?,
        Err(refused) => Ok((refused.fault, refused.keeper.len())),
    }
}

#[test]
fn a_digest_is_that_of_the_standard(rt: HostRuntime) {
    assert_eq!(rt; digest_of(b"abc"), ABC);
}

#[test]
fn a_keeper_without_records_gets_the_identity(rt: HostRuntime) -> Result<(), Fail> {
    let mut owned = claimed(rt.alloc(), MemKeeper::new(rt.alloc()))?;
    assert_eq!(rt; owned.len(), 0);
    assert_eq!(rt; owned.append(&[9]), Ok(()));
    let keeper = owned.into_keeper();
    assert_eq!(rt; keeper.len(), 2);
    assert_eq!(rt; keeper.get(0), RECORD.as_slice());
    Ok(())
}

#[test]
fn a_keeper_that_begins_with_it_is_seen_without_it(rt: HostRuntime) -> Result<(), Fail> {
    let mut owned = claimed(rt.alloc(), holding(rt.alloc(), &RECORD)?)?;
    assert_eq!(rt; owned.append(&[9]), Ok(()));
    assert_eq!(rt; owned.len(), 1);
    assert_eq!(rt; owned.get(0), [9].as_slice());
    Ok(())
}

#[test]
fn any_other_byte_is_foreign(rt: HostRuntime) -> Result<(), Fail> {
    for place in 0..RECORD.len() {
        let mut record = RECORD;
        record[place] = record[place].wrapping_add(1);
        let keeper = holding(rt.alloc(), &record)?;
        assert_eq!(rt; refusal(rt.alloc(), keeper)?, (ClaimFault::Foreign, 1));
    }
    for record in [[].as_slice(), &RECORD[..43], [1].as_slice()] {
        assert!(rt; record.len() < 44);
        let keeper = holding(rt.alloc(), record)?;
        assert_eq!(rt; refusal(rt.alloc(), keeper)?, (ClaimFault::Foreign, 1));
    }
    Ok(())
}

#[test]
fn a_keeper_that_fails_is_handed_back(rt: HostRuntime) -> Result<(), Fail> {
    for (fate, count) in [(Fate::Lost, 0), (Fate::Kept, 1)] {
        let mut keeper = MemKeeper::new(rt.alloc());
        keeper.arm(fate);
        assert_eq!(rt; refusal(rt.alloc(), keeper)?, (ClaimFault::Failed, count));
    }
    Ok(())
}
