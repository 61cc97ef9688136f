//! The system's calls on papers.
ghost use Rattle.std.specs.Prelude.{◌≡◌, ◌↔◌, ◌⊎◌, IsTrue, Some};
ghost use Rattle.std.specs.IoError.{error_kind};

use crate::paper_files::{PaperCalls, PaperStep, Stands};
use crate::system_files::{made, sync_folder, unlinked, written};
use express_outside::{Direct, History, Trouble, noted, trouble_of};
use std::fs::File;
use std::io::ErrorKind;
use std::{fs, io};

/// The system's files, by their paths. It tells its calls that write.
#[derive(Drop)]
pub struct SystemPapers<'a> {
    rt: &'a HostRuntime,
    calls: History<PaperStep>,
}

impl<'a> SystemPapers<'a> {
    /// All of them.
    pub fn new(rt: &'a HostRuntime) -> Self {
        SystemPapers {
            rt,
            calls: History::new(),
        }
    }
}

// The path of a file of this name.
fn path_of(rt: &HostRuntime, folder: &str, name: &str) -> io::Result<String> {
    format!(in rt.alloc(); "{folder}/{name}").map_err(|_| io::Error::from(ErrorKind::OutOfMemory))
}

// The path of a file that is to have this name once it is whole.
fn unfinished_path_of(rt: &HostRuntime, folder: &str, name: &str) -> io::Result<String> {
    format!(in rt.alloc(); "{folder}/.{name}.part").map_err(|_| io::Error::from(
        ErrorKind::OutOfMemory,
    ))
}

// What has this path, compared with bytes. A link has none of its own.
fn stands(rt: &HostRuntime, path: &str, bytes: &[u8]) -> io::Result<Stands> {
    match fs::symlink_metadata(rt, path) {
        Ok(found) if !found.is_file() => return Ok(Stands::Others),
        Ok(_) => {}
        Err(error) if error.kind() == ErrorKind::NotFound => return Ok(Stands::Nothing),
        Err(error) => return Err(error),
    }
    if fs::read(rt, path)?.as_slice() != bytes {
        return Ok(Stands::Others);
    }
    File::open(rt, path)?.sync_all()?;
    Ok(Stands::These)
}

fn found(rt: &HostRuntime, folder: &str, name: &str, bytes: &[u8]) -> io::Result<Stands> {
    let path = path_of(rt, folder, name)?;
    stands(rt, path.as_str(), bytes)
}

fn tidied(rt: &HostRuntime, folder: &str, name: &str) -> io::Result<()> {
    let path = unfinished_path_of(rt, folder, name)?;
    unlinked(rt, path.as_str())
}

fn laid(rt: &HostRuntime, folder: &str, name: &str, bytes: &[u8]) -> io::Result<()> {
    tidied(rt, folder, name)?;
    let path = unfinished_path_of(rt, folder, name)?;
    written(rt, path.as_str(), bytes)
}

// Whether a file has but one name on such a file system, as on a stick that other systems read too.
fn lacks_links(error: &io::Error) -> bool
    ensures { IsTrue result ↔ ((error_kind error.now ≡ ErrorKind.PermissionDenied)
        ⊎ (error_kind error.now ≡ ErrorKind.Unsupported)) }
{
    matches!(
        error.kind(),
        ErrorKind::PermissionDenied | ErrorKind::Unsupported
    )
}

// Gives the file a second name, or, where files have but one, writes it under its name.
fn linked(rt: &HostRuntime, from: &str, to: &str, bytes: &[u8]) -> io::Result<()> {
    match fs::hard_link(rt, from, to) {
        Err(error) if lacks_links(&error) => written(rt, to, bytes),
        answer => answer,
    }
}

fn placed(rt: &HostRuntime, folder: &str, name: &str, bytes: &[u8]) -> io::Result<bool> {
    let from = unfinished_path_of(rt, folder, name)?;
    let to = path_of(rt, folder, name)?;
    match linked(rt, from.as_str(), to.as_str(), bytes) {
        Ok(()) => Ok(true),
        Err(error) if error.kind() == ErrorKind::AlreadyExists => Ok(false),
        Err(error) => Err(error),
    }
}

impl<'a> PaperCalls for SystemPapers<'a> {
    type File = Direct<File>;

    ghost calls = { λ papers. Some papers.calls };

    fn open(&mut self, path: &str) -> Result<Direct<File>, Trouble> {
        Ok(Direct::new(File::open(self.rt, path).map_err(|error| trouble_of(error))?))
    }

    fn make(&mut self, folder: &str) -> Result<(), Trouble> {
        let answer = made(self.rt, folder).map_err(|error| trouble_of(error));
        self.calls
            .note(&PaperStep::FolderMade(noted(folder.as_bytes()), answer));
        answer
    }

    fn find(&mut self, folder: &str, name: &str, bytes: &[u8]) -> Result<Stands, Trouble> {
        let answer = found(self.rt, folder, name, bytes).map_err(|error| trouble_of(error));
        self.calls.note(&PaperStep::Found(
            noted(folder.as_bytes()),
            noted(name.as_bytes()),
            noted(bytes),
            answer,
        ));
        answer
    }

    fn lay(&mut self, folder: &str, name: &str, bytes: &[u8]) -> Result<(), Trouble> {
        let answer = laid(self.rt, folder, name, bytes).map_err(|error| trouble_of(error));
        self.calls.note(&PaperStep::Laid(
            noted(folder.as_bytes()),
            noted(name.as_bytes()),
            noted(bytes),
            answer,
        ));
        answer
    }

    fn place(&mut self, folder: &str, name: &str, bytes: &[u8]) -> Result<bool, Trouble> {
        let answer = placed(self.rt, folder, name, bytes).map_err(|error| trouble_of(error));
        self.calls.note(&PaperStep::Placed(
            noted(folder.as_bytes()),
            noted(name.as_bytes()),
            noted(bytes),
            answer,
        ));
        answer
    }

    fn tidy(&mut self, folder: &str, name: &str) -> Result<(), Trouble> {
        let answer = tidied(self.rt, folder, name).map_err(|error| trouble_of(error));
        self.calls.note(&PaperStep::Tidied(
            noted(folder.as_bytes()),
            noted(name.as_bytes()),
            answer,
        ));
        answer
    }

    fn sync(&mut self, folder: &str) -> Result<(), Trouble> {
        let answer = sync_folder(self.rt, folder).map_err(|error| trouble_of(error));
        self.calls
            .note(&PaperStep::FolderSynced(noted(folder.as_bytes()), answer));
        answer
    }
}
