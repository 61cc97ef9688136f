//! The system's calls on a desk's folder, each made once.
ghost use Rattle.std.specs.Prelude.{◌≡◌, List, Option};
ghost use Rattle.express_outside.specs.Calls.{added};

use desk_outside::{DeskFile, FolderFault};
use express_outside::{FileCalls, Trouble};

/// Whose mark stands in a folder. A mark is of one lock, a file that is made once and never written: a copy
/// of the folder has another lock.
#[derive(Clone, Copy, Debug, PartialEq, Eq)]
pub enum Mark {
    /// This folder's lock's.
    This,
    /// Another's, or what stands there is no mark.
    Other,
    /// There is none.
    Absent,
}

/// A call on a folder, with its answer.
#[derive(Clone, Copy)]
pub enum FolderStep {
    /// It was made where it wasn't there.
    Made(Result<(), FolderFault>),
    /// Whether it is its user's alone, and no link.
    Checked(Result<(), FolderFault>),
    /// It was locked, for this process or not.
    Locked(Result<bool, FolderFault>),
    /// Whose mark stands in it.
    Marked(Result<Mark, FolderFault>),
    /// Whether nothing of a desk stands in it.
    FoundBare(Result<bool, FolderFault>),
    /// Its lock's mark was set.
    MarkSet(Result<(), FolderFault>),
    /// A file was handed out.
    HandedOut(DeskFile),
    /// Whether a file is there.
    Looked(DeskFile, Result<bool, FolderFault>),
    /// A file was renamed to another.
    Renamed(DeskFile, DeskFile, Result<(), Trouble>),
    /// A file's name was taken away.
    Unlinked(DeskFile, Result<(), Trouble>),
    /// The disk has the folder's names.
    Synced(Result<(), Trouble>),
}

/// The system's calls on a desk's folder.
pub trait FolderCalls {
    ghost use Rattle.express_outside.specs.declared.calls.Trouble.{Trouble};
    ghost use Rattle.desk_files.specs.declared.folder_calls.FolderStep.{FolderStep};
    ghost use Rattle.desk_files.specs.declared.folder_calls.FolderStep.TheVariants.{Made, Checked, Locked, Marked};
    ghost use Rattle.desk_files.specs.declared.folder_calls.FolderStep.TheVariants.{FoundBare, MarkSet, HandedOut};
    ghost use Rattle.desk_files.specs.declared.folder_calls.FolderStep.TheVariants.{Looked, Renamed, Unlinked, Synced};

    /// One of its files, with the system's calls on it.
    type File: FileCalls + Drop;

    /// Its calls so far, if it tells.
    ghost calls: { Self → Option (List FolderStep) };

    /// Makes the folder for its user alone, where there is none, and waits until the disk has its name.
    fn make(&mut self) -> Result<(), FolderFault>
        ensures told { calls self.new ≡ added (Made result) (calls self.old) };

    /// Fails where the folder is none, is a link, or is open to others than its user, and says which.
    fn check(&mut self) -> Result<(), FolderFault>
        ensures told { calls self.new ≡ added (Checked result) (calls self.old) };

    /// Takes the folder's lock for this process until it ends, and says whether it has it now. The lock is
    /// made where there is none.
    fn lock(&mut self) -> Result<bool, FolderFault>
        ensures told { calls self.new ≡ added (Locked result) (calls self.old) };

    /// Whose mark stands in the folder, whose lock this process has.
    fn mark(&mut self) -> Result<Mark, FolderFault>
        ensures told { calls self.new ≡ added (Marked result) (calls self.old) };

    /// Whether no ledger and no letter on its way stands in the folder, nor one that isn't in place yet.
    fn is_bare(&mut self) -> Result<bool, FolderFault>
        ensures told { calls self.new ≡ added (FoundBare result) (calls self.old) };

    /// Puts the mark of the folder's lock, which this process has, in the place of any other, at once. The
    /// disk has it then.
    fn set_mark(&mut self) -> Result<(), FolderFault>
        ensures told { calls self.new ≡ added (MarkSet result) (calls self.old) };

    /// Whether the file is there, which must be its user's alone then, and no link.
    fn look(&mut self, file: DeskFile) -> Result<bool, FolderFault>
        ensures told { calls self.new ≡ added (Looked file result) (calls self.old) };

    /// The file, which isn't touched yet.
    fn file(&mut self, file: DeskFile) -> Self::File
        ensures told { calls self.new ≡ added (HandedOut file) (calls self.old) };

    /// Gives the file `from` the name of the file `to`, which it replaces.
    fn rename(&mut self, from: DeskFile, to: DeskFile) -> Result<(), Trouble>
        ensures told { calls self.new ≡ added (Renamed from to result) (calls self.old) };

    /// Takes the file's name away, where it is there.
    fn unlink(&mut self, file: DeskFile) -> Result<(), Trouble>
        ensures told { calls self.new ≡ added (Unlinked file result) (calls self.old) };

    /// Waits until the disk has the folder's names.
    fn sync(&mut self) -> Result<(), Trouble>
        ensures told { calls self.new ≡ added (Synced result) (calls self.old) };
}
