//! Whether a folder, and what stands in it, is its user's alone.
ghost use Rattle.std.specs.Prelude.{◌≡◌, ◌≢◌, Err, OnOk, bit_and};
ghost use Rattle.std.specs.Fs.{IsDir, IsFile, IsSymlink, file_type, metadata_mode};
ghost use Rattle.std.specs.IoError.{error_kind};

use desk_outside::FolderFault;
use std::fs::Metadata;
use std::io::ErrorKind;
use std::os::unix::fs::MetadataExt;
use std::{fs, io};

/// What of a folder's mode lets group or others in.
const OTHERS: u32 = 0o077;

/// What of a file's mode lets group or others read or write it.
const READERS: u32 = 0o066;

/// Why an error of the system keeps a folder from being used.
pub fn cause_of(error: &io::Error) -> FolderFault
    ensures denied { error_kind error.now ≡ ErrorKind.PermissionDenied → result ≡ FolderFault.NotYours }
    ensures missing { error_kind error.now ≡ ErrorKind.NotFound → result ≡ FolderFault.NoParent }
    ensures broken { error_kind error.now ≢ ErrorKind.PermissionDenied
        → error_kind error.now ≢ ErrorKind.NotFound → result ≡ FolderFault.Broken }
{
    match error.kind() {
        ErrorKind::PermissionDenied => FolderFault::NotYours,
        ErrorKind::NotFound => FolderFault::NoParent,
        _ => FolderFault::Broken,
    }
}

/// Fails where this isn't a folder that its user alone may look into or change.
pub fn check_folder(found: &Metadata) -> Result<(), FolderFault>
    ensures private { OnOk result
        (IsDir (file_type found.now) × (bit_and (metadata_mode found.now) 0o077 ≡ 0)) }
    ensures link { IsSymlink (file_type found.now) → result ≡ Err FolderFault.Link }
{
    if found.is_symlink() {
        Err(FolderFault::Link)
    } else if !found.is_dir() {
        Err(FolderFault::OtherKind)
    } else if found.mode() & OTHERS != 0 {
        Err(FolderFault::NotPrivate)
    } else {
        Ok(())
    }
}

// Fails where this isn't a file that its user alone may read or write.
fn check_file(found: &Metadata) -> Result<(), FolderFault>
    ensures private { OnOk result
        (IsFile (file_type found.now) × (bit_and (metadata_mode found.now) 0o066 ≡ 0)) }
    ensures link { IsSymlink (file_type found.now) → result ≡ Err FolderFault.Link }
{
    if found.is_symlink() {
        Err(FolderFault::Link)
    } else if !found.is_file() {
        Err(FolderFault::OtherKind)
    } else if found.mode() & READERS != 0 {
        Err(FolderFault::NotPrivate)
    } else {
        Ok(())
    }
}

/// Whether a file of the folder is there, which must be its user's alone then, and no link.
pub fn is_there(rt: &HostRuntime, path: &str) -> Result<bool, FolderFault> {
    match fs::symlink_metadata(rt, path) {
        Ok(found) => {
            check_file(&found)?;
            Ok(true)
        }
        Err(error) if error.kind() == ErrorKind::NotFound => Ok(false),
        Err(error) => Err(cause_of(&error)),
    }
}
