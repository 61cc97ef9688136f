//! Disks over a file in memory, and over a folder in a file's place.
ghost use Rattle.std.specs.Prelude.{None};

use express_outside::{FileCalls, FileDisk, Trouble, trouble_of};
use express_words::outside::{Counted, Failed};
use node_journal::Disk;
use std::cell::Cell;
use std::fs::File;
use std::os::unix::fs::FileExt;

/// So many bytes a file in memory may have.
const ROOM: usize = 32;

/// How many bytes were written to a file, how many of them since its last sync, the offset from which on its reads
/// fail, whether its syncs fail, and whether that is noted beside it.
#[derive(Drop)]
struct Notes {
    written: Cell<usize>,
    unsynced: Cell<usize>,
    fails_from: Cell<u64>,
    syncs_fail: Cell<bool>,
    is_unsettled: Cell<bool>,
}

impl Notes {
    fn new() -> Notes {
        Notes {
            written: Cell::new(0),
            unsynced: Cell::new(0),
            fails_from: Cell::new(u64::MAX),
            syncs_fail: Cell::new(false),
            is_unsettled: Cell::new(false),
        }
    }

    fn add(&self, count: usize) {
        self.written.set(self.written.get().saturating_add(count));
        self.unsynced.set(self.unsynced.get().saturating_add(count));
    }

    fn are(&self, written: usize, unsynced: usize) -> bool {
        self.written.get() == written && self.unsynced.get() == unsynced
    }
}

/// A file in memory that gives at most three bytes at a read. Each second read is interrupted.
#[derive(Drop)]
struct Narrow<'a> {
    content: [u8; ROOM],
    copy: [u8; ROOM],
    len: usize,
    is_next_interrupted: bool,
    notes: &'a Notes,
}

impl<'a> Narrow<'a> {
    fn new(bytes: &[u8], notes: &'a Notes) -> Narrow<'a> {
        let mut content = [0; ROOM];
        let len = bytes.len().min(ROOM);
        content[..len].copy_from_slice(&bytes[..len]);
        Narrow {
            content,
            copy: [0; ROOM],
            len,
            is_next_interrupted: false,
            notes,
        }
    }

    // Whether this call is interrupted.
    fn is_interrupted(&mut self) -> bool {
        self.is_next_interrupted = !self.is_next_interrupted;
        self.is_next_interrupted
    }

    fn put_byte(&mut self, at: usize, byte: u8) {
        if at < ROOM {
            self.content[at] = byte;
            self.len = self.len.max(at + 1);
        }
    }
}

impl<'a> FileCalls for Narrow<'a> {
    ghost calls = { λ _. None };

    fn open(&mut self) -> Result<(), Trouble> {
        Ok(())
    }

    fn open_to_read(&mut self) -> Result<(), Trouble> {
        Ok(())
    }

    fn read_at(&mut self, at: u64, out: &mut [u8]) -> Result<usize, Trouble> {
        if self.is_interrupted() {
            return Err(Trouble::Interrupted);
        }
        if at >= self.notes.fails_from.get() {
            return Err(Trouble::Broken);
        }
        let end = self.len.min(ROOM) as u64;
        let from = at.min(end) as usize;
        let rest = &self.content[from..end as usize];
        let count = rest.len().min(3).min(out.len());
        out[..count].copy_from_slice(&rest[..count]);
        Ok(count)
    }

    fn write_at(&mut self, at: u64, bytes: &[u8]) -> Result<(), Trouble> {
        let from = at.min(ROOM as u64) as usize;
        if bytes.len() > ROOM - from {
            return Err(Trouble::Broken);
        }
        for (i, byte) in bytes.iter().enumerate() {
            self.put_byte(from.saturating_add(i), *byte);
        }
        self.notes.add(bytes.len());
        Ok(())
    }

    fn sync(&mut self) -> Result<(), Trouble> {
        if self.notes.syncs_fail.get() {
            return Err(Trouble::Broken);
        }
        self.notes.unsynced.set(0);
        Ok(())
    }

    fn check_name(&mut self) -> Result<(), Trouble> {
        Ok(())
    }

    fn is_unsettled(&mut self) -> Result<bool, Trouble> {
        Ok(self.notes.is_unsettled.get())
    }

    fn unsettle(&mut self) -> Result<(), Trouble> {
        self.notes.is_unsettled.set(true);
        Ok(())
    }

    fn settle(&mut self) -> Result<(), Trouble> {
        self.notes.is_unsettled.set(false);
        Ok(())
    }

    fn begin_copy(&mut self) -> Result<(), Trouble> {
        self.copy = [0; ROOM];
        Ok(())
    }

    fn copy_at(&mut self, at: u64, bytes: &[u8]) -> Result<(), Trouble> {
        let from = at.min(ROOM as u64) as usize;
        if bytes.len() > ROOM - from {
            return Err(Trouble::Broken);
        }
        self.copy[from..from + bytes.len()].copy_from_slice(bytes);
        Ok(())
    }

    fn replace(&mut self) -> Result<(), Trouble> {
        self.content = self.copy;
        Ok(())
    }
}

/// Whether what stands from here to the end of the disk is this, which is shorter than what is asked for.
pub fn ends_with<F: FileCalls>(disk: &mut FileDisk<F>, at: u64, wanted: &[u8]) -> bool {
    let mut out = [0u8; 16];
    match disk.read(at, &mut out) {
        Ok(count) => count <= 16 && &out[..count] == wanted,
        Err(Failed) => false,
    }
}

fn writes<F: FileCalls>(disk: &mut FileDisk<F>, at: u64, bytes: &[u8]) -> bool {
    disk.write(at, bytes).is_ok()
}

/// Whether these bytes are written at this offset, and on the disk then.
pub fn keeps<F: FileCalls>(disk: &mut FileDisk<F>, at: u64, bytes: &[u8]) -> bool {
    writes(disk, at, bytes) && disk.sync().is_ok()
}

// Whether a read from the disk's start on fails, and so many calls have failed by then.
fn fails<F: FileCalls>(disk: &mut FileDisk<F>, faults: u64) -> bool {
    disk.read(0, &mut [0; 8]).is_err() && disk.faults() == faults
}

type NarrowDisk<'a> = FileDisk<Narrow<'a>>;

// Whether so many calls of the disk have failed.
fn has_counted<F: FileCalls>(disk: &FileDisk<F>, faults: u64) -> bool {
    disk.faults() == faults
}

// A file of which it isn't noted that a sync failed is read and not written.
fn opened(disk: &mut NarrowDisk<'_>, notes: &Notes) -> [bool; 5] {
    [
        ends_with(disk, 8, b"before"),
        notes.are(0, 0),
        ends_with(disk, 0, b"written before"),
        ends_with(disk, 14, b""),
        has_counted(disk, 0),
    ]
}

#[test]
fn what_is_there_is_only_read_at_its_opening(rt: HostRuntime) {
    let notes = Notes::new();
    let mut disk = FileDisk::new(Narrow::new(b"written before", &notes));
    assert!(rt; opened(&mut disk, &notes) == [true; 5]);
}

// A sync fails, and whoever opens the file next puts a copy of it in its place.
fn renewed(notes: &Notes) -> [bool; 6] {
    let mut disk = FileDisk::new(Narrow::new(b"written before", notes));
    let opened = ends_with(&mut disk, 8, b"before");
    notes.syncs_fail.set(true);
    let failed = [!keeps(&mut disk, 0, b"W"), notes.is_unsettled.get()];
    notes.syncs_fail.set(false);
    let mut next = FileDisk::new(Narrow::new(b"Written before", notes));
    [
        opened,
        failed[0],
        failed[1],
        ends_with(&mut next, 0, b"Written before"),
        !notes.is_unsettled.get(),
        has_counted(&next, 0),
    ]
}

#[test]
fn a_file_whose_sync_failed_is_put_in_place_anew(rt: HostRuntime) {
    assert!(rt; renewed(&Notes::new()) == [true; 6]);
}

// A disk that is only read: whether its syncs and writes fail and it is read.
fn only_read(notes: &Notes) -> [bool; 4] {
    notes.is_unsettled.set(true);
    let mut disk = FileDisk::only_read(Narrow::new(b"bytes", notes));
    [
        ends_with(&mut disk, 0, b"bytes"),
        !keeps(&mut disk, 0, b"other"),
        notes.is_unsettled.get(),
        notes.are(0, 0),
    ]
}

#[test]
fn a_disk_that_is_only_read_changes_nothing(rt: HostRuntime) {
    assert!(rt; only_read(&Notes::new()) == [true; 4]);
}

fn written_in_pieces(disk: &mut NarrowDisk<'_>, notes: &Notes) -> [bool; 7] {
    [
        keeps(disk, 0, b"some bytes"),
        writes(disk, 5, b"others"),
        notes.are(16, 6),
        ends_with(disk, 0, b"some others"),
        has_counted(disk, 0),
        !writes(disk, 30, b"no room"),
        has_counted(disk, 1),
    ]
}

#[test]
fn pieces_and_interruptions_change_nothing(rt: HostRuntime) {
    let notes = Notes::new();
    let mut disk = FileDisk::new(Narrow::new(b"", &notes));
    assert!(rt; written_in_pieces(&mut disk, &notes) == [true; 7]);
}

fn read_until_it_fails(disk: &mut NarrowDisk<'_>, notes: &Notes) -> [bool; 2] {
    let is_read = ends_with(disk, 0, b"bytes");
    notes.fails_from.set(3);
    [is_read, fails(disk, 1)]
}

#[test]
fn a_read_error_is_not_taken_for_the_end(rt: HostRuntime) {
    let notes = Notes::new();
    let mut disk = FileDisk::new(Narrow::new(b"bytes", &notes));
    assert!(rt; read_until_it_fails(&mut disk, &notes) == [true; 2]);
}

fn opened_once_it_is_copied(disk: &mut NarrowDisk<'_>, notes: &Notes) -> [bool; 4] {
    notes.is_unsettled.set(true);
    notes.fails_from.set(3);
    let (fails, keeps) = (fails(disk, 1), keeps(disk, 0, b"others"));
    let has_failed = has_counted(disk, 2);
    notes.fails_from.set(u64::MAX);
    [fails, !keeps, has_failed, ends_with(disk, 0, b"bytes")]
}

#[test]
fn a_file_that_cannot_be_copied_whole_is_not_opened(rt: HostRuntime) {
    let notes = Notes::new();
    let mut disk = FileDisk::new(Narrow::new(b"bytes", &notes));
    assert!(rt; opened_once_it_is_copied(&mut disk, &notes) == [true; 4]);
}

/// The folder that the program runs in, as a file whose writes go nowhere.
#[derive(Drop)]
struct FolderAsFile<'a> {
    rt: &'a HostRuntime,
    folder: Option<File>,
}

impl<'a> FileCalls for FolderAsFile<'a> {
    ghost calls = { λ _. None };

    fn open(&mut self) -> Result<(), Trouble> {
        self.folder = Some(File::open(self.rt, ".").map_err(|error| trouble_of(error))?);
        Ok(())
    }

    fn open_to_read(&mut self) -> Result<(), Trouble> {
        self.open()
    }

    fn read_at(&mut self, at: u64, out: &mut [u8]) -> Result<usize, Trouble> {
        match &self.folder {
            Some(folder) => folder.read_at(out, at).map_err(|error| trouble_of(error)),
            None => Err(Trouble::Broken),
        }
    }

    fn write_at(&mut self, _at: u64, _bytes: &[u8]) -> Result<(), Trouble> {
        Ok(())
    }

    fn sync(&mut self) -> Result<(), Trouble> {
        Ok(())
    }

    fn check_name(&mut self) -> Result<(), Trouble> {
        Ok(())
    }

    fn is_unsettled(&mut self) -> Result<bool, Trouble> {
        Ok(true)
    }

    fn unsettle(&mut self) -> Result<(), Trouble> {
        Ok(())
    }

    fn settle(&mut self) -> Result<(), Trouble> {
        Ok(())
    }

    fn begin_copy(&mut self) -> Result<(), Trouble> {
        Ok(())
    }

    fn copy_at(&mut self, _at: u64, _bytes: &[u8]) -> Result<(), Trouble> {
        Ok(())
    }

    fn replace(&mut self) -> Result<(), Trouble> {
        Ok(())
    }
}

#[test]
fn a_folder_in_a_files_place_is_a_fault_and_no_empty_disk(rt: HostRuntime) {
    let mut disk = FileDisk::new(FolderAsFile {
        rt: &rt,
        folder: None,
    });
    let told = [
        fails(&mut disk, 1),
        disk.sync().is_err(),
        has_counted(&disk, 2),
    ];
    assert!(rt; told == [true; 3]);
}
