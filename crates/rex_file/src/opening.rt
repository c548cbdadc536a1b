//! The file at a path as a disk.

ghost use Rattle.std.specs.Prelude.{◌≡◌, IfOk};
ghost use Rattle.rex_file.specs.FileCalls.{opened_file};

use crate::{FileDisk, FileFault};
use std::alloc::AllocGlobal;
use std::fs::{self, File, Files, OpenOptions};
use std::io;
use std::os::fd::AsRawFd;

// Opens a file for reading and writing, and makes it where it isn't there. It is never one of the three standard streams, which
// a process may have been started without: else what is printed would land in the file.
fn open_or_make<R: Files<File = File>>(rt: &R, path: &str) -> io::Result<File> {
    let file = OpenOptions::new()
        .read(true)
        .write(true)
        .create(true)
        .open(rt, path)?;
    if file.as_raw_fd() <= 2 {
        return file.try_clone();
    }
    Ok(file)
}

/// Opens the file at a path as a disk, and makes it where it isn't there. Where a link stands at the path the file is that to
/// which it leads. The folder has to be there.
pub fn open_path<R: Files<File = File> + AllocGlobal>(
    rt: &R,
    path: &str,
) -> Result<FileDisk, FileFault>
    ensures opened { IfOk result (λ d. d ≡ opened_file d.first) }
{
    let file = open_or_make(rt, path)?;
    let mut folder = fs::canonicalize(rt, path)?;
    folder.pop();
    let folder = File::open(rt, folder.as_str())?;
    FileDisk::open(rt.alloc(), file, &folder)
}
