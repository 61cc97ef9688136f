//! The file of a journal.
ghost use Rattle.std.specs.Prelude.{◌≡◌, ◌≤◌, ◌↔◌, Some, length, IfOk, IsTrue, bit_and, false};
ghost use Rattle.std.specs.Fs.{IsFile, file_type, metadata_mode, asks_create_new, asks_truncate, asks_append};

use crate::calls::{Trouble, trouble_of};
use crate::file_calls::{FileCall, FileCalls, given};
use crate::history::{History, noted};
use std::fs::{File, Metadata, OpenOptions};
use std::io::ErrorKind;
use std::os::unix::fs::{FileExt, MetadataExt, OpenOptionsExt};
use std::{fs, io};

/// Who else than the server's own user may read the file, which holds a seed: nobody.
const MODE: u32 = 0o600;

/// What of a file's mode lets group or others read or write it.
const OTHERS: u32 = 0o066;

/// What the name of a file that says that a sync of it failed has behind the file's.
const NOTE: &str = "unsettled";

/// What the name of a copy that is to take a file's place has behind the file's.
const COPY: &str = "copy";

/// Where a journal's file stands.
#[derive(Clone, Copy)]
pub struct Place<'a> {
    /// The folder that has its names.
    pub folder: &'a str,
    /// The path by which it is opened.
    pub path: &'a str,
    /// The path of the folder that it may be moved to while it is open, or again the same path.
    pub moved: &'a str,
}

/// A file that is opened or made by `open`. It tells its calls.
#[derive(Drop)]
pub struct JournalFile<'a> {
    rt: &'a HostRuntime,
    place: Place<'a>,
    file: Option<File>,
    copy: Option<File>,
    calls: History<FileCall>,
}

// Whether this is a regular file that nobody but its user may read or write.
fn is_private(found: &Metadata) -> bool
    ensures { IsTrue result ↔ (IsFile (file_type found.now) × (bit_and (metadata_mode found.now) 0o066 ≡ 0)) }
{
    found.is_file() && found.mode() & OTHERS == 0
}

// Opens a file for reading and writing, one that isn't there yet or one that is. What is in it stays.
fn options(is_new: bool) -> OpenOptions
    ensures made { asks_create_new result ≡ is_new }
    ensures kept { asks_truncate result ≡ false }
    ensures in_place { asks_append result ≡ false }
{
    let mut options = OpenOptions::new();
    options.read(true).write(true).create_new(is_new);
    options
}

// Fails where a file may be read or written by others, or is a link or no regular file.
fn check_private(found: &Metadata) -> io::Result<()> {
    if is_private(found) {
        Ok(())
    } else {
        Err(io::Error::from(ErrorKind::PermissionDenied))
    }
}

// Whether there is a file at this path, which must be private then.
fn is_there(rt: &HostRuntime, path: &str) -> io::Result<bool> {
    match fs::symlink_metadata(rt, path) {
        Ok(found) => {
            check_private(&found)?;
            Ok(true)
        }
        Err(error) if error.kind() == ErrorKind::NotFound => Ok(false),
        Err(error) => Err(error),
    }
}

// Whether this path names the open file.
fn is_named(rt: &HostRuntime, path: &str, file: &File) -> io::Result<bool> {
    let open = file.metadata()?;
    match fs::symlink_metadata(rt, path) {
        Ok(named) => Ok(named.dev() == open.dev() && named.ino() == open.ino()),
        Err(error) if error.kind() == ErrorKind::NotFound => Ok(false),
        Err(error) => Err(error),
    }
}

// Fails where neither path of the place names the open file.
fn check_named(rt: &HostRuntime, place: Place<'_>, file: &File) -> io::Result<()> {
    if is_named(rt, place.path, file)? || is_named(rt, place.moved, file)? {
        Ok(())
    } else {
        Err(io::Error::from(ErrorKind::NotFound))
    }
}

// Takes a file for this process alone.
fn lock(file: &File) -> io::Result<()> {
    match file.try_lock() {
        Ok(()) => Ok(()),
        Err(_) => Err(io::Error::from(ErrorKind::WouldBlock)),
    }
}

fn sync_folder(rt: &HostRuntime, folder: &str) -> io::Result<()> {
    File::open(rt, folder)?.sync_all()
}

// Opens or makes the file, for this process alone, and waits until the disk has its name. That it has its name still is
// asked behind the lock: whoever had the lock may have put a copy in its place.
fn opened(rt: &HostRuntime, place: Place<'_>) -> io::Result<File> {
    let is_new = !is_there(rt, place.path)?;
    let file = options(is_new).mode(MODE).open(rt, place.path)?;
    check_private(&file.metadata()?)?;
    lock(&file)?;
    check_named(rt, place, &file)?;
    sync_folder(rt, place.folder)?;
    Ok(file)
}

// Opens the file for reading alone.
fn opened_to_read(rt: &HostRuntime, place: Place<'_>) -> io::Result<File> {
    check_private(&fs::symlink_metadata(rt, place.path)?)?;
    let file = File::open(rt, place.path)?;
    check_private(&file.metadata()?)?;
    check_named(rt, place, &file)?;
    Ok(file)
}

// The name that the open file has now.
fn name_of<'a>(rt: &HostRuntime, place: Place<'a>, file: &File) -> io::Result<&'a str> {
    if is_named(rt, place.path, file)? {
        return Ok(place.path);
    }
    check_named(rt, place, file)?;
    Ok(place.moved)
}

// The path of what stands beside a file.
fn beside(rt: &HostRuntime, path: &str, what: &str) -> io::Result<String> {
    format!(in rt.alloc(); "{path}.{what}").map_err(|_| io::Error::from(ErrorKind::OutOfMemory))
}

// Makes a file that isn't there yet, which its user alone may read or write. A link isn't followed.
fn made(rt: &HostRuntime, path: &str) -> io::Result<File> {
    options(true).mode(MODE).open(rt, path)
}

fn removed(rt: &HostRuntime, path: &str) -> io::Result<()> {
    match fs::remove_file(rt, path) {
        Ok(()) => Ok(()),
        Err(error) if error.kind() == ErrorKind::NotFound => Ok(()),
        Err(error) => Err(error),
    }
}

fn is_noted(rt: &HostRuntime, place: Place<'_>) -> io::Result<bool> {
    let note = beside(rt, place.path, NOTE)?;
    match fs::symlink_metadata(rt, note.as_str()) {
        Ok(_) => Ok(true),
        Err(error) if error.kind() == ErrorKind::NotFound => Ok(false),
        Err(error) => Err(error),
    }
}

// Makes the note. It needn't be on the disk: where the machine starts anew, what is read is what the disk has.
fn note(rt: &HostRuntime, path: &str) -> io::Result<()> {
    let note = beside(rt, path, NOTE)?;
    match made(rt, note.as_str()) {
        Ok(_) => Ok(()),
        Err(error) if error.kind() == ErrorKind::AlreadyExists => Ok(()),
        Err(error) => Err(error),
    }
}

fn unnoted(rt: &HostRuntime, place: Place<'_>) -> io::Result<()> {
    let note = beside(rt, place.path, NOTE)?;
    removed(rt, note.as_str())?;
    sync_folder(rt, place.folder)
}

/// Takes away what may stand beside a file that was removed: the note that a sync of it failed, and a copy.
pub fn clear_beside(rt: &HostRuntime, path: &str) -> io::Result<()> {
    let (copy, note) = (beside(rt, path, COPY)?, beside(rt, path, NOTE)?);
    removed(rt, copy.as_str())?;
    removed(rt, note.as_str())
}

// Makes a copy's file, for this process alone.
fn begun(rt: &HostRuntime, place: Place<'_>) -> io::Result<File> {
    let path = beside(rt, place.path, COPY)?;
    removed(rt, path.as_str())?;
    let copy = made(rt, path.as_str())?;
    lock(&copy)?;
    Ok(copy)
}

fn placed(rt: &HostRuntime, place: Place<'_>, copy: &File) -> io::Result<()> {
    let path = beside(rt, place.path, COPY)?;
    copy.sync_all()?;
    fs::rename(rt, path.as_str(), place.path)?;
    sync_folder(rt, place.folder)
}

impl<'a> JournalFile<'a> {
    /// The file of this name in the folder that the program runs in. It isn't touched yet.
    pub fn new(rt: &'a HostRuntime, name: &'a str) -> Self {
        let place = Place {
            folder: ".",
            path: name,
            moved: name,
        };
        JournalFile::at(rt, place)
    }

    /// The file at this place, which isn't touched yet.
    pub fn at(rt: &'a HostRuntime, place: Place<'a>) -> Self {
        JournalFile {
            rt,
            place,
            file: None,
            copy: None,
            calls: History::new(),
        }
    }
}

// Each is one call on the file, where it is open.
impl<'a> JournalFile<'a> {
    fn read_file(&self, at: u64, out: &mut [u8]) -> Result<usize, Trouble>
        ensures bound { IfOk result (λ n. n ≤ length out.new) }
    {
        match &self.file {
            Some(file) => file.read_at(out, at).map_err(trouble_of),
            None => Err(Trouble::Broken),
        }
    }

    fn write_file(&self, at: u64, bytes: &[u8]) -> Result<(), Trouble> {
        match &self.file {
            Some(file) => file.write_all_at(bytes, at).map_err(trouble_of),
            None => Err(Trouble::Broken),
        }
    }

    fn sync_file(&self) -> Result<(), Trouble> {
        match &self.file {
            Some(file) => file.sync_all().map_err(trouble_of),
            None => Err(Trouble::Broken),
        }
    }

    fn check_file(&self) -> Result<(), Trouble> {
        match &self.file {
            Some(file) => check_named(self.rt, self.place, file).map_err(trouble_of),
            None => Err(Trouble::Broken),
        }
    }

    fn note_beside(&self) -> Result<(), Trouble> {
        let Some(file) = &self.file else {
            return Err(Trouble::Broken);
        };
        let path = name_of(self.rt, self.place, file).map_err(trouble_of)?;
        note(self.rt, path).map_err(trouble_of)
    }

    fn write_copy(&self, at: u64, bytes: &[u8]) -> Result<(), Trouble> {
        match &self.copy {
            Some(copy) => copy.write_all_at(bytes, at).map_err(trouble_of),
            None => Err(Trouble::Broken),
        }
    }

    fn place_copy(&mut self) -> Result<(), Trouble>
        ensures { self.new.calls ≡ self.old.calls }
    {
        let Some(copy) = &self.copy else {
            return Err(Trouble::Broken);
        };
        placed(self.rt, self.place, copy).map_err(trouble_of)?;
        self.file = self.copy.take();
        Ok(())
    }

    fn begin(&mut self) -> Result<(), Trouble>
        ensures { self.new.calls ≡ self.old.calls }
    {
        self.copy = Some(begun(self.rt, self.place).map_err(trouble_of)?);
        Ok(())
    }
}

impl<'a> FileCalls for JournalFile<'a> {
    ghost calls = { λ file. Some file.calls };

    fn open(&mut self) -> Result<(), Trouble> {
        self.file = Some(opened(self.rt, self.place).map_err(trouble_of)?);
        Ok(())
    }

    fn open_to_read(&mut self) -> Result<(), Trouble> {
        self.file = Some(opened_to_read(self.rt, self.place).map_err(trouble_of)?);
        Ok(())
    }

    fn read_at(&mut self, at: u64, out: &mut [u8]) -> Result<usize, Trouble> {
        let answer = self.read_file(at, out);
        self.calls.note(&FileCall::ReadAt(at, given(answer, out)));
        answer
    }

    fn write_at(&mut self, at: u64, bytes: &[u8]) -> Result<(), Trouble> {
        let answer = self.write_file(at, bytes);
        self.calls
            .note(&FileCall::WroteAt(at, noted(bytes), answer));
        answer
    }

    fn sync(&mut self) -> Result<(), Trouble> {
        let answer = self.sync_file();
        self.calls.note(&FileCall::Synced(answer));
        answer
    }

    fn check_name(&mut self) -> Result<(), Trouble> {
        let answer = self.check_file();
        self.calls.note(&FileCall::Named(answer));
        answer
    }

    fn is_unsettled(&mut self) -> Result<bool, Trouble> {
        let answer = is_noted(self.rt, self.place).map_err(trouble_of);
        self.calls.note(&FileCall::Asked(answer));
        answer
    }

    fn unsettle(&mut self) -> Result<(), Trouble> {
        let answer = self.note_beside();
        self.calls.note(&FileCall::Unsettled(answer));
        answer
    }

    fn settle(&mut self) -> Result<(), Trouble> {
        let answer = unnoted(self.rt, self.place).map_err(trouble_of);
        self.calls.note(&FileCall::Settled(answer));
        answer
    }

    fn begin_copy(&mut self) -> Result<(), Trouble> {
        let answer = self.begin();
        self.calls.note(&FileCall::Begun(answer));
        answer
    }

    fn copy_at(&mut self, at: u64, bytes: &[u8]) -> Result<(), Trouble> {
        let answer = self.write_copy(at, bytes);
        self.calls
            .note(&FileCall::CopiedAt(at, noted(bytes), answer));
        answer
    }

    fn replace(&mut self) -> Result<(), Trouble> {
        let answer = self.place_copy();
        self.calls.note(&FileCall::Replaced(answer));
        answer
    }
}
