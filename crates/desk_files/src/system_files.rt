//! The system's calls that a folder and papers have in common.
use std::fs::{DirBuilder, File};
use std::io::{ErrorKind, Write};
use std::os::unix::fs::{DirBuilderExt, OpenOptionsExt};
use std::path::Path;
use std::{fs, io};

/// Who else than its user may look into a folder that is made: nobody.
const FOLDER_MODE: u32 = 0o700;

/// Who else than its user may read a file that is written: nobody.
pub const FILE_MODE: u32 = 0o600;

// The folder that has this one's name.
fn parent_of(folder: &str) -> &str {
    match Path::new(folder).parent() {
        Some(parent) if !parent.as_str().is_empty() => parent.as_str(),
        _ => ".",
    }
}

/// Waits until the disk has the folder's names.
pub fn sync_folder(rt: &HostRuntime, folder: &str) -> io::Result<()> {
    File::open(rt, folder)?.sync_all()
}

/// Makes the folder, where there is none, and waits until the disk has its name.
pub fn made(rt: &HostRuntime, folder: &str) -> io::Result<()> {
    let mut builder = DirBuilder::new();
    builder.mode(FOLDER_MODE);
    match builder.create(rt, folder) {
        Ok(()) => sync_folder(rt, parent_of(folder)),
        Err(error) if error.kind() == ErrorKind::AlreadyExists => Ok(()),
        Err(error) => Err(error),
    }
}

/// Writes a file that isn't there yet: of two that have its path, a link among them, the second fails. The
/// disk has its bytes then.
pub fn written(rt: &HostRuntime, path: &str, bytes: &[u8]) -> io::Result<()> {
    let mut options = File::options();
    options.write(true).create_new(true).mode(FILE_MODE);
    let mut file = options.open(rt, path)?;
    file.write_all(bytes)?;
    file.sync_all()
}

/// Takes a file's name away, where it is there.
pub fn unlinked(rt: &HostRuntime, path: &str) -> io::Result<()> {
    match fs::remove_file(rt, path) {
        Ok(()) => Ok(()),
        Err(error) if error.kind() == ErrorKind::NotFound => Ok(()),
        Err(error) => Err(error),
    }
}
