//! The system's calls on a desk's folder.
ghost use Rattle.std.specs.Prelude.{◌≡◌, [], Some};

use crate::desk_paths::DeskPaths;
use crate::folder_calls::{FolderCalls, FolderStep, Mark};
use crate::folder_checks::{cause_of, check_folder, is_there};
use crate::system_files::{FILE_MODE, made, sync_folder, unlinked};
use crate::system_mark::{mark_found, marked};
use desk_outside::{DeskFile, FolderFault, MOST_LETTERS, Slot};
use express_outside::{History, JournalFile, Trouble, clear_beside, trouble_of};
use std::fs::{File, TryLockError};
use std::os::unix::fs::OpenOptionsExt;
use std::{fs, io};

/// A desk's folder, and its lock while this process has it. It tells its calls.
#[derive(Drop)]
pub struct SystemFolder<'a> {
    rt: &'a HostRuntime,
    paths: &'a DeskPaths,
    lock: Option<File>,
    calls: History<FolderStep>,
}

impl<'a> SystemFolder<'a> {
    /// The folder of these paths, which isn't touched yet.
    pub fn new(rt: &'a HostRuntime, paths: &'a DeskPaths) -> Self {
        SystemFolder {
            rt,
            paths,
            lock: None,
            calls: History::new(),
        }
    }

    fn has(&self, file: DeskFile) -> Result<bool, FolderFault> {
        is_there(self.rt, self.paths.path(file))
    }

    fn has_letter(&self, slot: Slot) -> Result<bool, FolderFault> {
        Ok(self.has(DeskFile::Outbox(slot))? || self.has(DeskFile::NextOutbox(slot))?)
    }

    fn has_letters(&self) -> Result<bool, FolderFault> {
        for number in 0..MOST_LETTERS {
            if self.has_letter(Slot { number })? {
                return Ok(true);
            }
        }
        Ok(false)
    }

    fn check_folder(&self) -> Result<(), FolderFault> {
        match fs::symlink_metadata(self.rt, self.paths.folder()) {
            Ok(found) => check_folder(&found),
            Err(error) => Err(cause_of(&error)),
        }
    }

    fn take_lock(&mut self) -> Result<bool, FolderFault>
        ensures { self.new.calls ≡ self.old.calls }
    {
        is_there(self.rt, self.paths.lock())?;
        self.lock = locked(self.rt, self.paths.lock()).map_err(|error| cause_of(&error))?;
        Ok(self.lock.is_some())
    }

    fn find_mark(&self) -> Result<Mark, FolderFault> {
        match &self.lock {
            Some(lock) => mark_found(self.rt, self.paths, lock),
            None => Err(FolderFault::Broken),
        }
    }

    fn has_nothing(&self) -> Result<bool, FolderFault> {
        Ok(!self.has(DeskFile::Ledger)? && !self.has(DeskFile::NextLedger)? && !self.has_letters()?)
    }

    fn put_mark(&self) -> Result<(), FolderFault> {
        match &self.lock {
            Some(lock) => marked(self.rt, self.paths, lock).map_err(|error| cause_of(&error)),
            None => Err(FolderFault::Broken),
        }
    }
}

// Takes a file's name away, and what stands beside it.
fn forgotten(rt: &HostRuntime, path: &str) -> io::Result<()> {
    unlinked(rt, path)?;
    clear_beside(rt, path)
}

// The lock's file, which is made where there is none.
fn lock_file(rt: &HostRuntime, path: &str) -> io::Result<File> {
    let mut options = File::options();
    options.read(true).write(true).create(true).mode(FILE_MODE);
    options.open(rt, path)
}

// The lock, unless another process has it.
fn locked(rt: &HostRuntime, path: &str) -> io::Result<Option<File>> {
    let file = lock_file(rt, path)?;
    match file.try_lock() {
        Ok(()) => Ok(Some(file)),
        Err(TryLockError::WouldBlock) => Ok(None),
        Err(TryLockError::Error(error)) => Err(error),
    }
}

impl<'a> FolderCalls for SystemFolder<'a> {
    type File = JournalFile<'a>;

    ghost calls = { λ folder. Some folder.calls };

    fn make(&mut self) -> Result<(), FolderFault> {
        let answer = made(self.rt, self.paths.folder()).map_err(|error| cause_of(&error));
        self.calls.note(&FolderStep::Made(answer));
        answer
    }

    fn check(&mut self) -> Result<(), FolderFault> {
        let answer = self.check_folder();
        self.calls.note(&FolderStep::Checked(answer));
        answer
    }

    fn lock(&mut self) -> Result<bool, FolderFault> {
        let answer = self.take_lock();
        self.calls.note(&FolderStep::Locked(answer));
        answer
    }

    fn mark(&mut self) -> Result<Mark, FolderFault> {
        let answer = self.find_mark();
        self.calls.note(&FolderStep::Marked(answer));
        answer
    }

    fn is_bare(&mut self) -> Result<bool, FolderFault> {
        let answer = self.has_nothing();
        self.calls.note(&FolderStep::FoundBare(answer));
        answer
    }

    fn set_mark(&mut self) -> Result<(), FolderFault> {
        let answer = self.put_mark();
        self.calls.note(&FolderStep::MarkSet(answer));
        answer
    }

    fn look(&mut self, file: DeskFile) -> Result<bool, FolderFault> {
        let answer = self.has(file);
        self.calls.note(&FolderStep::Looked(file, answer));
        answer
    }

    fn file(&mut self, file: DeskFile) -> JournalFile<'a> {
        self.calls.note(&FolderStep::HandedOut(file));
        JournalFile::at(self.rt, self.paths.place(file))
    }

    fn rename(&mut self, from: DeskFile, to: DeskFile) -> Result<(), Trouble> {
        let (from_path, to_path) = (self.paths.path(from), self.paths.path(to));
        let answer = fs::rename(self.rt, from_path, to_path).map_err(|error| trouble_of(error));
        self.calls.note(&FolderStep::Renamed(from, to, answer));
        answer
    }

    fn unlink(&mut self, file: DeskFile) -> Result<(), Trouble> {
        let answer = forgotten(self.rt, self.paths.path(file)).map_err(|error| trouble_of(error));
        self.calls.note(&FolderStep::Unlinked(file, answer));
        answer
    }

    fn sync(&mut self) -> Result<(), Trouble> {
        let answer = sync_folder(self.rt, self.paths.folder()).map_err(|error| trouble_of(error));
        self.calls.note(&FolderStep::Synced(answer));
        answer
    }
}
