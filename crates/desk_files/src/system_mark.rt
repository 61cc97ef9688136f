//! The file that says whose a folder is, by a mark of its lock. The lock is made once and never written, and
//! no call of the system sets the moment of a file's last change: it is that at which the lock was made, or
//! copied.
ghost use Rattle.std.specs.Prelude.{◌≡◌, IfOk, string_bytes};
ghost use Rattle.desk_files.specs.Marks.{mark_text};

use crate::desk_paths::DeskPaths;
use crate::folder_calls::Mark;
use crate::folder_checks::{cause_of, is_there};
use crate::system_files::{sync_folder, unlinked, written};
use desk_outside::FolderFault;
use std::alloc::{AllocError, Global};
use std::fs::File;
use std::io::ErrorKind;
use std::os::unix::fs::MetadataExt;
use std::{fs, io};

// A lock's mark, by its inode and by the seconds and nanoseconds of its last change.
fn mark_text(
    alloc: Global,
    inode: u64,
    seconds: i64,
    nanoseconds: i64,
) -> Result<String, AllocError>
    ensures { IfOk result (λ text. string_bytes text ≡ mark_text inode seconds nanoseconds) }
{
    format!(in alloc; "inode {inode} changed {seconds} {nanoseconds}\n")
}

fn mark_of(rt: &HostRuntime, lock: &File) -> io::Result<String> {
    let found = lock.metadata()?;
    mark_text(rt.alloc(), found.ino(), found.ctime(), found.ctime_nsec()).map_err(
        |_| io::Error::from(ErrorKind::OutOfMemory),
    )
}

fn is_marked(rt: &HostRuntime, path: &str, lock: &File) -> io::Result<bool> {
    let mark = mark_of(rt, lock)?;
    Ok(fs::read(rt, path)?.as_slice() == mark.as_bytes())
}

/// Whose mark stands in the folder of this lock.
pub fn mark_found(rt: &HostRuntime, paths: &DeskPaths, lock: &File) -> Result<Mark, FolderFault> {
    if !is_there(rt, paths.mark())? {
        return Ok(Mark::Absent);
    }
    match is_marked(rt, paths.mark(), lock) {
        Ok(true) => Ok(Mark::This),
        Ok(false) => Ok(Mark::Other),
        Err(error) => Err(cause_of(&error)),
    }
}

/// Puts the lock's mark in the place of any other, at once. The disk has both then.
pub fn marked(rt: &HostRuntime, paths: &DeskPaths, lock: &File) -> io::Result<()> {
    let mark = mark_of(rt, lock)?;
    lock.sync_all()?;
    unlinked(rt, paths.next_mark())?;
    written(rt, paths.next_mark(), mark.as_bytes())?;
    fs::rename(rt, paths.next_mark(), paths.mark())?;
    sync_folder(rt, paths.folder())
}
