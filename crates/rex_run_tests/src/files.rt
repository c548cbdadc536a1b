//! A journal in a file of the operating system: its records once it is opened again, what is made of files that a stop cut short
//! or garbled, its lock, and what is no such file.

ghost use Rattle.std.specs.Prelude.{◌≡◌, ◌+◌, false, IfOk};

use rex_file::{FileDisk, FileFault, open_path};
use rex_traits::Keeper;
use rex_wal::{OpenFault, WalKeeper};
use std::test::*;
use std::{fs, io};

/// The journal of the records 7 and 254 9, which begin at the offsets 8 and 11.
const WHOLE: [u8; 16] = *b"rexnode\n\x08\xff\x01\xff\x02\x0a\xff\x01";

/// What a file has, and how many records its journal has, or where it is bad.
const FOUND: [(&[u8], Result<usize, u64>); 14] = [
    // no more than a part of the head
    (b"", Ok(0)),
    (b"rexn", Ok(0)),
    (b"re\0no\0\0\0\0\0", Ok(0)),
    (&WHOLE, Ok(2)),
    (b"rexnode\n\x08\xff\x01\xff\x02\x0a\xff\x01\0\0\0", Ok(2)),
    // a second record that was cut short, and ones of which a byte wasn't written
    (b"rexnode\n\x08\xff\x01\xff\x02\x0a", Ok(1)),
    (b"rexnode\n\x08\xff\x01\xff\x02\x0a\xff\0\0", Ok(1)),
    (b"rexnode\n\x08\xff\x01\xff\0\x0a\xff\x01", Ok(1)),
    (b"rexnode\n\x08\xff\x01\0\x02\x0a\xff\x01\0", Ok(1)),
    // one of which a byte wasn't written, or is none, and a later one
    (
        b"rexnode\n\x08\xff\x01\xff\0\x0a\xff\x01\x06\xff\x01",
        Err(11),
    ),
    (b"rexnode\n\xff\x04\xff\x01\x06", Err(8)),
    // no head
    (b"rexnodes", Err(0)),
    (b"rexnode\0\x08\xff\x01", Err(0)),
    (&[1, 0, 0, 0, 1, 7, 0], Err(0)),
];

/// Makes a folder that has nothing in it.
fn make_folder(rt: &HostRuntime, folder: &str) -> io::Result<()> {
    let _ = fs::remove_dir_all(rt, folder);
    fs::create_dir(rt, folder)
}

/// The journal in the file at a path.
fn journal(rt: &HostRuntime, path: &str) -> Result<WalKeeper<FileDisk>, Fail>
    ensures { IfOk result (λ k. (k.broken ≡ false) × (k.disk.faults + k.refused ≡ 0)) }
{
    match WalKeeper::open(rt.alloc(), open_path(rt, path)?) {
        Ok(keeper) => Ok(keeper),
        Err(_) => Err("not opened")?,
    }
}

/// How many records are found in a file of these bytes, or where it is bad. Where it is a journal a record is appended, and found when
/// the file is opened again.
fn found(rt: &HostRuntime, path: &str, bytes: &[u8]) -> Result<Result<usize, u64>, Fail> {
    fs::write(rt, path, bytes)?;
    match WalKeeper::open(rt.alloc(), open_path(rt, path)?) {
        Ok(mut keeper) => {
            let count = keeper.len();
            keeper.append(&[5])?;
            drop(keeper);
            let keeper = journal(rt, path)?;
            if keeper.len() <= count {
                return Err("not appended")?;
            }
            Ok(Ok(count))
        }
        Err(refused) => match refused.fault {
            OpenFault::BadJournal { at } => Ok(Err(at)),
            _ => Err("not opened")?,
        },
    }
}

#[test]
fn records_in_a_file_are_there_when_it_is_opened_again(rt: HostRuntime) -> Result<(), Fail> {
    make_folder(&rt, "files_again")?;
    let mut keeper = journal(&rt, "files_again/journal")?;
    assert_eq!(rt; keeper.append(&[7]), Ok(()));
    assert_eq!(rt; keeper.append(&[254, 9]), Ok(()));
    assert!(rt;
        matches!(
            open_path(&rt, "files_again/journal"),
            Err(FileFault::Locked)
        )
    );
    drop(keeper);
    let keeper = journal(&rt, "files_again/journal")?;
    assert_eq!(rt; keeper.len(), 2);
    assert_eq!(rt; keeper.get(1), [254, 9].as_slice());
    let bytes = fs::read(&rt, "files_again/journal")?;
    // the first record was written with room for others behind it
    assert_eq!(rt; bytes.len(), 11 + 65_536);
    assert_eq!(rt; bytes.get(..16), Some(WHOLE.as_slice()));
    fs::remove_dir_all(&rt, "files_again")?;
    Ok(())
}

#[test]
fn a_file_that_a_stop_cut_short_has_its_whole_records(rt: HostRuntime) -> Result<(), Fail> {
    make_folder(&rt, "files_cut")?;
    for (bytes, count) in FOUND {
        assert_eq!(rt; found(&rt, "files_cut/journal", bytes)?, count);
    }
    fs::remove_dir_all(&rt, "files_cut")?;
    Ok(())
}

/// Paths that are no file which can be made, opened and synced, and what is said of them.
const NO_FILES: [(&str, io::ErrorKind); 3] = [
    ("files_none", io::ErrorKind::IsADirectory),
    ("files_none/none/journal", io::ErrorKind::NotFound),
    ("/dev/null", io::ErrorKind::Unsupported),
];

/// Why the file at a path isn't opened.
fn refusal(rt: &HostRuntime, path: &str) -> Result<io::ErrorKind, Fail> {
    match open_path(rt, path) {
        Err(FileFault::Failed(error)) => Ok(error.kind()),
        _ => Err("opened")?,
    }
}

#[test]
fn what_is_no_file_is_refused(rt: HostRuntime) -> Result<(), Fail> {
    make_folder(&rt, "files_none")?;
    for (path, kind) in NO_FILES {
        assert_eq!(rt; refusal(&rt, path)?, kind);
    }
    fs::remove_dir_all(&rt, "files_none")?;
    Ok(())
}
