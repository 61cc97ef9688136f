//! Disks over files of the system.
use crate::disks::{ends_with, keeps};
use express_outside::{FileDisk, JournalFile, Place};
use express_words::outside::Counted;
use node_journal::Disk;
use std::fs;
use std::fs::Permissions;
use std::os::unix::fs::{MetadataExt, PermissionsExt, symlink};
use std::test::Fail;

fn on_file<'a>(rt: &'a HostRuntime, name: &'a str) -> FileDisk<JournalFile<'a>> {
    FileDisk::new(JournalFile::new(rt, name))
}

// Whether what the file has is this.
fn has(rt: &HostRuntime, name: &str, wanted: &str) -> Result<bool, Fail> {
    Ok(fs::read_to_string(rt, name)?.as_str() == wanted)
}

// Whether so many calls of the disk have failed.
fn has_counted(disk: &FileDisk<JournalFile<'_>>, faults: u64) -> bool {
    disk.faults() == faults
}

// Whether a file with the bytes that `has` asks for is made.
fn makes(rt: &HostRuntime, name: &str) -> bool {
    let mut disk = on_file(rt, name);
    keeps(&mut disk, 0, b"bytes")
}

const NAME: &str = "journals_tests.journal";

// A second disk of the file keeps nothing.
fn kept_by_one(rt: &HostRuntime) -> [bool; 6] {
    let (mut disk, mut second) = (on_file(rt, NAME), on_file(rt, NAME));
    [
        keeps(&mut disk, 0, b"bytes"),
        ends_with(&mut disk, 2, b"tes"),
        !keeps(&mut second, 0, b"other"),
        has_counted(&second, 1),
        ends_with(&mut disk, 0, b"bytes"),
        has_counted(&disk, 0),
    ]
}

#[test]
fn a_file_keeps_bytes_and_is_for_one_disk_alone(rt: HostRuntime) -> Result<(), Fail> {
    let told = kept_by_one(&rt);
    fs::remove_file(&rt, NAME)?;
    assert!(rt; told == [true; 6]);
    Ok(())
}

const KEPT: &str = "journals_tests.kept";

// Whether a new disk of a file that is there ends so.
fn is_kept(rt: &HostRuntime, wanted: &[u8]) -> bool {
    let mut disk = on_file(rt, KEPT);
    ends_with(&mut disk, 0, wanted)
}

#[test]
fn a_file_is_opened_again_as_it_was_and_never_emptied(rt: HostRuntime) -> Result<(), Fail> {
    let told = [
        makes(&rt, KEPT),
        is_kept(&rt, b"bytes"),
        is_kept(&rt, b"bytes"),
        has(&rt, KEPT, "bytes")?,
    ];
    fs::remove_file(&rt, KEPT)?;
    assert!(rt; told == [true; 4]);
    Ok(())
}

const OPEN: &str = "journals_tests.open";

fn is_open_taken(rt: &HostRuntime) -> bool {
    let mut disk = on_file(rt, OPEN);
    ends_with(&mut disk, 0, b"bytes")
}

// Whether a file of this mode is taken, and whether it keeps its bytes.
fn takes_mode(rt: &HostRuntime, mode: u32) -> Result<(bool, bool), Fail> {
    fs::write(rt, OPEN, b"bytes")?;
    fs::set_permissions(rt, OPEN, Permissions::from_mode(mode))?;
    let told = (is_open_taken(rt), has(rt, OPEN, "bytes")?);
    fs::remove_file(rt, OPEN)?;
    Ok(told)
}

#[test]
fn a_file_that_others_may_read_or_write_is_refused(rt: HostRuntime) -> Result<(), Fail> {
    for mode in [0o644, 0o640, 0o620, 0o604, 0o602, 0o666] {
        assert!(rt; takes_mode(&rt, mode)? == (false, true));
    }
    assert!(rt; takes_mode(&rt, 0o600)? == (true, true));
    Ok(())
}

const LINK: &str = "journals_tests.link";

// Whether what has this name is taken.
fn is_taken(rt: &HostRuntime, name: &str) -> bool {
    let mut disk = on_file(rt, name);
    disk.sync().is_ok()
}

// Whether a link to what has this name is taken.
fn takes_link(rt: &HostRuntime, target: &str) -> Result<bool, Fail> {
    symlink(rt, target, LINK)?;
    let is_taken = is_taken(rt, LINK);
    fs::remove_file(rt, LINK)?;
    Ok(is_taken)
}

const TARGET: &str = "journals_tests.target";

#[test]
fn links_and_folders_are_refused(rt: HostRuntime) -> Result<(), Fail> {
    let to_nothing = takes_link(&rt, TARGET)?;
    let made = makes(&rt, TARGET);
    let to_a_file = takes_link(&rt, TARGET)?;
    let kept = has(&rt, TARGET, "bytes")?;
    fs::remove_file(&rt, TARGET)?;
    assert!(rt; made && kept && [to_nothing, to_a_file, is_taken(&rt, ".")] == [false; 3]);
    Ok(())
}

const FAR: &str = "journals_tests.far";

// No file of the system has so large an offset.
const NOWHERE: u64 = u64::MAX;

fn read_and_written_far(disk: &mut FileDisk<JournalFile<'_>>) -> [bool; 7] {
    [
        keeps(disk, 0, b"bytes"),
        ends_with(disk, 5, b""),
        has_counted(disk, 0),
        disk.read(NOWHERE, &mut [0; 8]).is_err(),
        has_counted(disk, 1),
        !keeps(disk, NOWHERE, b"lost"),
        has_counted(disk, 2),
    ]
}

#[test]
fn an_error_of_the_system_is_a_fault_and_no_end(rt: HostRuntime) -> Result<(), Fail> {
    let mut disk = on_file(&rt, FAR);
    let told = read_and_written_far(&mut disk);
    fs::remove_file(&rt, FAR)?;
    assert!(rt; told == [true; 7]);
    Ok(())
}

const GONE: &str = "journals_tests.gone";

// A disk is used, and once more when its file was removed.
fn removed(rt: &HostRuntime, disk: &mut FileDisk<JournalFile<'_>>) -> Result<[bool; 3], Fail> {
    let made = keeps(disk, 0, b"bytes");
    fs::remove_file(rt, GONE)?;
    Ok([made, !keeps(disk, 0, b"lost"), has_counted(disk, 1)])
}

// Another file has the name, and then the disk is used again.
fn replaced(rt: &HostRuntime, disk: &mut FileDisk<JournalFile<'_>>) -> [bool; 3] {
    let mut second = on_file(rt, GONE);
    [
        keeps(&mut second, 0, b"bytes"),
        !keeps(disk, 0, b"lost"),
        has_counted(disk, 2),
    ]
}

#[test]
fn a_file_that_was_removed_or_replaced_is_a_fault(rt: HostRuntime) -> Result<(), Fail> {
    let mut disk = on_file(&rt, GONE);
    let removed = removed(&rt, &mut disk)?;
    let replaced = replaced(&rt, &mut disk);
    fs::remove_file(&rt, GONE)?;
    assert!(rt; [removed, replaced] == [[true; 3]; 2]);
    Ok(())
}

const HERE: &str = "journals_tests.here";

const THERE: &str = "journals_tests.there";

const ELSEWHERE: &str = "journals_tests.elsewhere";

fn moved(rt: &HostRuntime, disk: &mut FileDisk<JournalFile<'_>>) -> Result<[bool; 4], Fail> {
    let here = keeps(disk, 0, b"bytes");
    fs::rename(rt, HERE, THERE)?;
    let (there, ends) = (keeps(disk, 0, b"moved"), ends_with(disk, 0, b"moved"));
    fs::rename(rt, THERE, ELSEWHERE)?;
    Ok([here, there, ends, !keeps(disk, 0, b"lost")])
}

#[test]
fn a_file_may_be_moved_to_one_other_name(rt: HostRuntime) -> Result<(), Fail> {
    let place = Place {
        folder: ".",
        path: HERE,
        moved: THERE,
    };
    let mut disk = FileDisk::new(JournalFile::at(&rt, place));
    let moved = moved(&rt, &mut disk)?;
    fs::remove_file(&rt, ELSEWHERE)?;
    assert!(rt; moved == [true; 4]);
    Ok(())
}

const ANEW: &str = "journals_tests.anew";

const NOTE: &str = "journals_tests.anew.unsettled";

const COPY: &str = "journals_tests.anew.copy";

fn inode(rt: &HostRuntime, name: &str) -> Result<u64, Fail> {
    Ok(fs::symlink_metadata(rt, name)?.ino())
}

// Whether a disk of the file reads its bytes and keeps others, and whether the file is another one then.
fn is_anew(rt: &HostRuntime) -> Result<[bool; 3], Fail> {
    let before = inode(rt, ANEW)?;
    let mut disk = on_file(rt, ANEW);
    Ok([
        ends_with(&mut disk, 0, b"bytes"),
        keeps(&mut disk, 0, b"other"),
        inode(rt, ANEW)? != before,
    ])
}

#[test]
fn a_file_is_put_in_place_anew_where_its_sync_has_failed(rt: HostRuntime) -> Result<(), Fail> {
    let made = makes(&rt, ANEW);
    fs::write(&rt, NOTE, b"")?;
    fs::write(&rt, COPY, b"left behind")?;
    let first = is_anew(&rt)?;
    fs::write(&rt, ANEW, b"bytes")?;
    let second = is_anew(&rt)?;
    let left = [fs::exists(&rt, NOTE)?, fs::exists(&rt, COPY)?];
    fs::remove_file(&rt, ANEW)?;
    assert!(rt; made && first == [true; 3] && second == [true, true, false]);
    assert!(rt; left == [false; 2]);
    Ok(())
}
