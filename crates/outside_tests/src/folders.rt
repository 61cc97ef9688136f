//! Modes of files and folders of the system.
use std::fs;
use std::os::unix::fs::MetadataExt;
use std::test::Fail;

/// The bits of a file's mode that say who may do what.
pub fn mode_of(rt: &HostRuntime, path: &str) -> Result<u32, Fail> {
    Ok(fs::symlink_metadata(rt, path)?.mode() & 0o777)
}
