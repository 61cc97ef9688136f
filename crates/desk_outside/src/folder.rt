//! The folder of a desk.
ghost use Rattle.std.specs.Prelude.{◌≡◌, ℕ, List, Option, IfOk, is_err};
ghost use Rattle.express_words.specs.Causes.{HasCause, CountsFault};
ghost use Rattle.desk_outside.specs.Calls.{FolderCall, Held, Looked, Opened, Placed, Removed, Adopted, Adds, given};

use crate::FolderFault;
use express_words::outside::{Counted, Failed};
use node_journal::Disk;

/// So many letters can be on their way at once.
pub const MOST_LETTERS: u8 = 8;

/// The place of a letter on its way, counted from 0, below `MOST_LETTERS`.
#[derive(Clone, Copy, Debug, PartialEq, Eq)]
pub struct Slot {
    pub number: u8,
}

/// A file of the folder.
#[derive(Clone, Copy, Debug, PartialEq, Eq)]
pub enum DeskFile {
    /// An owner's desk.
    Ledger,
    /// A ledger that isn't in place yet.
    NextLedger,
    /// A stranger's letter on its way.
    Outbox(Slot),
    /// A try of that letter that isn't in place yet.
    NextOutbox(Slot),
}

/// Whether the folder is this process's alone.
#[derive(Clone, Copy, Debug, PartialEq, Eq)]
pub enum Hold {
    /// It is, until this process ends.
    Held,
    /// The same, and what stands in it was copied from another folder.
    Copied,
    /// Another process has it.
    InUse,
}

/// The folder of a desk, with a count of its faults.
pub trait Folder: Counted {
    /// What an opening gives.
    type File: Disk + Drop;

    /// Its calls so far, if it tells.
    ghost calls: { Self → Option (List (FolderCall Self.File)) };

    /// Makes the folder where there is none, and takes it for this process alone. It must be its user's alone, and no
    /// link. Says whether it is a copy: what a desk leaves in its folder isn't this folder's then.
    fn hold(&mut self) -> Result<Hold, FolderFault>
        ensures call { Adds (calls self.old) (calls self.new) (Held (given result)) }
        ensures cause { HasCause (Self.seen self.old).faults (Self.seen self.new).faults result }
        ensures counts { CountsFault (Self.seen self.old).faults (Self.seen self.new).faults result };

    /// Whether the file is there, which must be its user's alone then, and no link.
    fn is_there(&mut self, file: DeskFile) -> Result<bool, FolderFault>
        ensures call { Adds (calls self.old) (calls self.new) (Looked file (given result)) }
        ensures cause { HasCause (Self.seen self.old).faults (Self.seen self.new).faults result }
        ensures counts { CountsFault (Self.seen self.old).faults (Self.seen self.new).faults result };

    /// The file as a disk, which is empty where there was none.
    fn open(&mut self, file: DeskFile) -> Result<Self::File, Failed>
        ensures whole { IfOk result (λ disk. (Self.File.seen disk).faults ≡ 0) }
        ensures call { Adds (calls self.old) (calls self.new) (Opened file (given result)) }
        ensures cause { HasCause (Self.seen self.old).faults (Self.seen self.new).faults result }
        ensures counts { CountsFault (Self.seen self.old).faults (Self.seen self.new).faults result };

    /// The file, which must be there, as a disk that is only read: nothing in the folder changes.
    fn look_into(&mut self, file: DeskFile) -> Result<Self::File, Failed>
        ensures whole { IfOk result (λ disk. (Self.File.seen disk).faults ≡ 0) }
        ensures call { Adds (calls self.old) (calls self.new) (Opened file (given result)) }
        ensures cause { HasCause (Self.seen self.old).faults (Self.seen self.new).faults result }
        ensures counts { CountsFault (Self.seen self.old).faults (Self.seen self.new).faults result };

    /// Puts the file `next` in the place of `file` at once: a stop at any moment leaves the one or the other there. A
    /// disk that was opened as `next` stays the same disk.
    fn put_in_place(&mut self, next: DeskFile, file: DeskFile) -> Result<(), Failed>
        ensures call { Adds (calls self.old) (calls self.new) (Placed next file (is_err result)) }
        ensures cause { HasCause (Self.seen self.old).faults (Self.seen self.new).faults result }
        ensures counts { CountsFault (Self.seen self.old).faults (Self.seen self.new).faults result };

    /// Removes the file, where it is there.
    fn remove(&mut self, file: DeskFile) -> Result<(), Failed>
        ensures call { Adds (calls self.old) (calls self.new) (Removed file (is_err result)) }
        ensures cause { HasCause (Self.seen self.old).faults (Self.seen self.new).faults result }
        ensures counts { CountsFault (Self.seen self.old).faults (Self.seen self.new).faults result };

    /// From now on the folder isn't taken for a copy.
    fn adopt(&mut self) -> Result<(), Failed>
        ensures call { Adds (calls self.old) (calls self.new) (Adopted (is_err result)) }
        ensures cause { HasCause (Self.seen self.old).faults (Self.seen self.new).faults result }
        ensures counts { CountsFault (Self.seen self.old).faults (Self.seen self.new).faults result };
}
