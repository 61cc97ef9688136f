//! The calls that were made on a desk's folder, which only proofs read.
ghost use Rattle.std.specs.Prelude.{◌≡◌, [], ◌∷◌, ◌++◌};
ghost use Rattle.desk_outside.specs.Calls.{Held, Looked, Opened, Placed, Removed, Adopted, given};
ghost use Rattle.desk_files.specs.Noted.{call_of};

use desk_outside::{DeskFile, FolderFault, Hold};
use express_words::outside::Failed;
use http_server::Log;
use std::marker::Model;

/// A call on a folder, with its answer where that isn't a file.
#[derive(Clone, Copy)]
pub enum Entry {
    Held(Result<Hold, FolderFault>),
    Looked(DeskFile, Result<bool, FolderFault>),
    Opened(DeskFile),
    Placed(DeskFile, DeskFile, bool),
    Removed(DeskFile, bool),
    Adopted(bool),
}

/// The calls in their order, with the files that they gave. It takes no memory, and its calls do nothing at run time.
#[derive(Drop)]
pub struct FolderLog<D> {
    log: Log<Entry, Result<D, Failed>>,
}

impl<D> Model for FolderLog<D> {
    ghost use Rattle.std.specs.Prelude.{List, map};
    ghost use Rattle.desk_outside.specs.Calls.{FolderCall};
    ghost use Rattle.desk_files.specs.Noted.{call_of};

    ghost Value = { List (FolderCall D) };

    ghost view = { λ l. map call_of l.log.items };
}

impl<D: Drop> FolderLog<D> {
    /// No call was made yet.
    pub fn new() -> FolderLog<D>
        ensures { result ≡ [] }
    {
        FolderLog { log: Log::new() }
    }

    fn note(&mut self, entry: &Entry, opened: &Result<D, Failed>)
        ensures { self.new ≡ self.old ++ call_of (entry.now, opened.now) ∷ [] }
    {
        self.log = self.log.and(entry, opened);
    }

    /// The folder was held.
    pub fn held(&mut self, answer: Result<Hold, FolderFault>)
        ensures { self.new ≡ self.old ++ Held (given answer) ∷ [] }
    {
        self.note(&Entry::Held(answer), &Err(Failed));
    }

    /// It was asked whether a file is there.
    pub fn looked(&mut self, file: DeskFile, answer: Result<bool, FolderFault>)
        ensures { self.new ≡ self.old ++ Looked file (given answer) ∷ [] }
    {
        self.note(&Entry::Looked(file, answer), &Err(Failed));
    }

    /// A file was opened.
    pub fn opened(&mut self, file: DeskFile, answer: &Result<D, Failed>)
        ensures { self.new ≡ self.old ++ Opened file (given answer.now) ∷ [] }
    {
        self.note(&Entry::Opened(file), answer);
    }

    /// A file was put in another's place, or that failed.
    pub fn placed(&mut self, next: DeskFile, file: DeskFile, failed: bool)
        ensures { self.new ≡ self.old ++ Placed next file failed ∷ [] }
    {
        self.note(&Entry::Placed(next, file, failed), &Err(Failed));
    }

    /// A file was removed, or that failed.
    pub fn removed(&mut self, file: DeskFile, failed: bool)
        ensures { self.new ≡ self.old ++ Removed file failed ∷ [] }
    {
        self.note(&Entry::Removed(file, failed), &Err(Failed));
    }

    /// The folder was adopted, or that failed.
    pub fn adopted(&mut self, failed: bool)
        ensures { self.new ≡ self.old ++ Adopted failed ∷ [] }
    {
        self.note(&Entry::Adopted(failed), &Err(Failed));
    }
}
