//! Where a desk's folder and what stands in it is.
ghost use Rattle.std.specs.Prelude.{◌≡◌, IfOk, codes, slice_get, unwrap_or};
ghost use Rattle.desk_files.specs.Paths.{IsPathOfOne, file_name, letter_name, letter_path, letter_paths};
ghost use Rattle.desk_files.specs.Paths.{path_in, place_of};

use desk_outside::{DeskFile, MOST_LETTERS, Slot};
use express_outside::Place;
use express_words::Text;
use std::alloc::{AllocError, Global};
use std::marker::Model;

/// A desk's folder, and the paths of what stands in it. A contract sees the folder's path.
#[derive(Drop)]
pub struct DeskPaths {
    folder: Text,
    lock: Text,
    mark: Text,
    next_mark: Text,
    ledger: Text,
    next_ledger: Text,
    outboxes: Vec<Text>,
    next_outboxes: Vec<Text>,
    itself: Text,
}

impl Model for DeskPaths {
    ghost use Rattle.std.specs.Prelude.{List, ℕ, ◌≡◌, codes};
    ghost use Rattle.desk_files.specs.Paths.{ArePaths, path_in};

    ghost Value = { List ℕ };

    ghost view = { λ p. p.folder };

    ghost invariant = { λ p.
        ArePaths p.folder p.ledger p.next_ledger p.itself p.outboxes.items p.next_outboxes.items
        × (p.lock ≡ path_in p.folder (codes "lock"))
        × (p.mark ≡ path_in p.folder (codes "mark"))
        × (p.next_mark ≡ path_in p.folder (codes "mark.next")) };
}

fn path_in(alloc: Global, folder: &str, name: &str) -> Result<Text, AllocError>
    ensures { IfOk result (λ path. path ≡ path_in folder.now name.now) }
{
    let path = format!(in alloc; "{folder}/{name}")?;
    Ok(Text::from_string(path))
}

fn letter_name(alloc: Global, number: u8) -> Result<Text, AllocError>
    ensures { IfOk result (λ name. name ≡ letter_name number) }
{
    let name = match number {
        0 => String::from_str(alloc, "outbox")?,
        _ => format!(in alloc; "outbox-{}", u16::from(number) + 1)?,
    };
    Ok(Text::from_string(name))
}

// The path of a letter's file at a place, of which there may be more, whose name goes on with this.
fn letter_path(alloc: Global, folder: &str, number: u8, ending: &str) -> Result<Text, AllocError>
    ensures { IfOk result (λ path. path ≡ letter_path folder.now ending.now number) }
{
    let name = letter_name(alloc, number)?;
    let name = name.as_str();
    let path = format!(in alloc; "{folder}/{name}{ending}")?;
    Ok(Text::from_string(path))
}

// The paths of the letters' files at all places, whose names go on with this.
fn letter_paths(alloc: Global, folder: &str, ending: &str) -> Result<Vec<Text>, AllocError>
    ensures { IfOk result (λ paths. paths.items ≡ letter_paths folder.now ending.now) }
{
    let mut paths = Vec::new(alloc);
    for number in 0..MOST_LETTERS {
        paths.push(letter_path(alloc, folder, number, ending)?)?;
    }
    Ok(paths)
}

// The path at a place, or `other` where there is no such place.
fn path_at<'a>(paths: &'a [Text], slot: Slot, other: &'a Text) -> &'a str
    ensures { result.now ≡ unwrap_or (slice_get paths.now slot.number) other.now }
{
    match paths.get(usize::from(slot.number)) {
        Some(path) => path.as_str(),
        None => other.as_str(),
    }
}

impl DeskPaths {
    /// Those of a folder.
    pub fn of(alloc: Global, folder: &str) -> Result<DeskPaths, AllocError>
        ensures { IfOk result (λ paths. paths ≡ folder.now) }
    {
        Ok(DeskPaths {
            folder: Text::from_string(String::from_str(alloc, folder)?),
            lock: path_in(alloc, folder, "lock")?,
            mark: path_in(alloc, folder, "mark")?,
            next_mark: path_in(alloc, folder, "mark.next")?,
            ledger: path_in(alloc, folder, "ledger")?,
            next_ledger: path_in(alloc, folder, "ledger.next")?,
            outboxes: letter_paths(alloc, folder, "")?,
            next_outboxes: letter_paths(alloc, folder, ".next")?,
            itself: path_in(alloc, folder, ".")?,
        })
    }

    /// The folder.
    pub fn folder(&self) -> &str
        ensures { result.now ≡ self.now }
    {
        self.folder.as_str()
    }

    /// The file whose lock is the folder's.
    pub fn lock(&self) -> &str
        ensures { result.now ≡ path_in self.now (codes "lock") }
    {
        self.lock.as_str()
    }

    /// The file that says whose the folder is.
    pub fn mark(&self) -> &str
        ensures { result.now ≡ path_in self.now (codes "mark") }
    {
        self.mark.as_str()
    }

    /// A mark that isn't in place yet.
    pub fn next_mark(&self) -> &str
        ensures { result.now ≡ path_in self.now (codes "mark.next") }
    {
        self.next_mark.as_str()
    }

    /// The path of a file. A letter's place of `MOST_LETTERS` or more has no file: its path is one of the
    /// folder's own, so that each call that takes it for a file fails.
    pub fn path(&self, file: DeskFile) -> &str
        ensures named { result.now ≡ path_in self.now (file_name file) }
        ensures alone { IsPathOfOne file self.now result.now }
    {
        match file {
            DeskFile::Ledger => self.ledger.as_str(),
            DeskFile::NextLedger => self.next_ledger.as_str(),
            DeskFile::Outbox(slot) => path_at(&self.outboxes, slot, &self.itself),
            DeskFile::NextOutbox(slot) => path_at(&self.next_outboxes, slot, &self.itself),
        }
    }

    /// Where a file stands, and where it may be put while it is open.
    pub fn place(&self, file: DeskFile) -> Place<'_>
        ensures folder { result.folder.now ≡ self.now }
        ensures path { result.path.now ≡ path_in self.now (file_name file) }
        ensures moved { result.moved.now ≡ path_in self.now (file_name (place_of file)) }
    {
        Place {
            folder: self.folder(),
            path: self.path(file),
            moved: self.path(in_place(file)),
        }
    }
}

// The file in whose place this one may be put.
fn in_place(file: DeskFile) -> DeskFile
    ensures { result ≡ place_of file }
{
    match file {
        DeskFile::Ledger | DeskFile::NextLedger => DeskFile::Ledger,
        DeskFile::Outbox(slot) | DeskFile::NextOutbox(slot) => DeskFile::Outbox(slot),
    }
}
