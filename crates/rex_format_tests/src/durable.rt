//! Records, what they say of a node, and the record of a failed append.

use rex_durable::{Rec, RecoverFault, append, recover};
use rex_list::List;
use rex_traits::{Fate, KeepFault, Keeper, MemKeeper, SureKeeper};
use std::alloc::Global;
use std::process::Abort;
use std::test::*;

/// Ballot 17 is promised.
pub(crate) const PROMISED: [u8; 9] = [1, 0, 0, 0, 0, 0, 0, 0, 17];

/// The first known value is one byte.
pub(crate) const KNOWN: [u8; 10] = [3, 0, 0, 0, 1, 0, 0, 0, 1, 7];

/// The state after the first known value is no bytes.
pub(crate) const CHECKPOINT: [u8; 9] = [4, 0, 0, 0, 1, 0, 0, 0, 0];

/// The node has forgotten the first known value.
pub(crate) const DROPPED: [u8; 5] = [5, 0, 0, 0, 1];

/// The node took over the state after two values, which is no bytes.
pub(crate) const TRANSFERRED: [u8; 9] = [6, 0, 0, 0, 2, 0, 0, 0, 0];

/// Records, and what is recovered of them: the promise, the offset and how many known values are held past it; or the number of the
/// first bad record and the offset of its first bad field.
const RECOVERED: [(&[&[u8]], Result<(u64, u32, usize), (usize, usize)>); 18] = [
    (&[&PROMISED, &KNOWN], Ok((17, 0, 1))),
    (&[&KNOWN, &CHECKPOINT], Ok((0, 0, 1))),
    (&[&KNOWN, &KNOWN], Err((2, 1))),
    (&[&CHECKPOINT, &KNOWN], Err((1, 1))),
    (&[&PROMISED, &[1, 0, 0, 0, 0, 0, 0, 0]], Err((2, 1))),
    (&[&PROMISED, &[]], Err((2, 0))),
    (&[&[7, 0, 0, 0, 1]], Err((1, 0))),
    (&[&[5, 0, 0, 0]], Err((1, 1))),
    (&[&KNOWN, &CHECKPOINT, &DROPPED], Ok((0, 1, 0))),
    (&[&KNOWN, &DROPPED], Err((2, 1))),
    (&[&KNOWN, &CHECKPOINT, &DROPPED, &DROPPED], Err((4, 1))),
    (&[&TRANSFERRED], Ok((0, 2, 0))),
    (&[&TRANSFERRED, &[3, 0, 0, 0, 3, 0, 0, 0, 0]], Ok((0, 2, 1))),
    (&[&TRANSFERRED, &KNOWN], Err((2, 1))),
    (&[&KNOWN, &[6, 0, 0, 0, 1, 0, 0, 0, 0]], Err((2, 1))),
    (&[&TRANSFERRED, &CHECKPOINT], Err((2, 1))),
    (&[&TRANSFERRED, &[4, 0, 0, 0, 2, 0, 0, 0, 0]], Ok((0, 2, 0))),
    (&[&[6, 0, 1, 0, 0, 0, 0, 0, 0]], Err((1, 1))),
];

fn answer(
    rt: &impl Abort,
    alloc: Global,
    records: &[&[u8]],
) -> Result<Result<(u64, u32, usize), (usize, usize)>, Fail> {
    let mut keeper = SureKeeper::new(alloc);
    for record in records {
        assert!(rt; record.len() < 99);
        if keeper.append(record).is_err() {
            return Err("not appended")?;
        }
    }
    match recover(alloc, &keeper) {
        Ok(recovered) => Ok(Ok((recovered.promised, recovered.offset, recovered.known.len()))),
        Err(RecoverFault::BadRecord { number, at }) => Ok(Err((number, at))),
        Err(RecoverFault::OutOfMemory) => Err("out of memory")?,
    }
}

#[test]
fn records_say_what_is_known_of_a_node(rt: HostRuntime) -> Result<(), Fail> {
    for (records, recovered) in RECOVERED {
        assert_eq!(rt; answer(&rt, rt.alloc(), records)?, recovered, "{records:?}");
    }
    Ok(())
}

#[test]
fn the_record_of_a_failed_append_is_kept(rt: HostRuntime) -> Result<(), Fail> {
    let mut keeper = MemKeeper::new(rt.alloc());
    keeper.arm(Fate::Kept);
    let promise = Rec::Promised { ballot: 17 };
    assert_eq!(rt;
        append(rt.alloc(), &mut keeper, &promise),
        Err(KeepFault::Failed)
    );
    assert_eq!(rt; keeper.len(), 1);
    assert_eq!(rt; keeper.get(0), PROMISED.as_slice());
    assert_eq!(rt; recover(rt.alloc(), &keeper)?.promised, 17);
    Ok(())
}

#[test]
fn a_node_comes_back_with_its_acceptance(rt: HostRuntime) -> Result<(), Fail> {
    let value = List::from_vec(vec![in rt.alloc(); 5]?);
    let accepted = Rec::Accepted {
        ballot: 17,
        instance: 1,
        value,
    };
    let mut keeper = SureKeeper::new(rt.alloc());
    assert_eq!(rt; append(rt.alloc(), &mut keeper, &accepted), Ok(()));
    let recovered = recover(rt.alloc(), &keeper)?;
    assert_eq!(rt; recovered.promised, 17);
    assert_eq!(rt; recovered.accepted.len(), 1);
    assert_eq!(rt;
        recovered.accepted.as_slice()[0].value.as_slice(),
        [5].as_slice()
    );
    Ok(())
}
