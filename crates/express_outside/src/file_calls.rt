//! The system's calls on a file, each made once.
ghost use Rattle.std.specs.Prelude.{◌≡◌, ◌≤◌, List, length, Option, IfOk};
ghost use Rattle.express_outside.specs.Calls.{added, given};

use crate::calls::Trouble;
use crate::history::{History, noted};

/// A call on a file, with its answer.
#[derive(Drop)]
pub enum FileCall {
    /// A read at an offset, with the bytes that it gave.
    ReadAt(u64, Result<History<u8>, Trouble>),
    /// A whole write at an offset, with its bytes.
    WroteAt(u64, History<u8>, Result<(), Trouble>),
    /// A wait for the disk.
    Synced(Result<(), Trouble>),
    /// Whether the name that the file was opened by is still its own.
    Named(Result<(), Trouble>),
    /// Whether it is noted beside the file that a sync of it has failed since it was settled.
    Asked(Result<bool, Trouble>),
    /// That a sync failed was noted.
    Unsettled(Result<(), Trouble>),
    /// The note was taken away.
    Settled(Result<(), Trouble>),
    /// A copy was begun beside the file.
    Begun(Result<(), Trouble>),
    /// Bytes were written to the copy at an offset.
    CopiedAt(u64, History<u8>, Result<(), Trouble>),
    /// The copy is the file from here on.
    Replaced(Result<(), Trouble>),
}

/// What a read into this buffer gave, as it is noted.
pub fn given(answer: Result<usize, Trouble>, buffer: &[u8]) -> Result<History<u8>, Trouble>
    requires { IfOk answer (λ n. n ≤ length buffer.now) }
    ensures { result ≡ given answer buffer.now }
{
    match answer {
        Ok(count) => Ok(noted(&buffer[..count])),
        Err(why) => Err(why),
    }
}

/// The system's calls on one file, on the note beside it that says that a sync of it failed, and on a copy that
/// is to take its place.
pub trait FileCalls {
    ghost use Rattle.express_outside.specs.declared.file_calls.FileCall.{FileCall};
    ghost use Rattle.express_outside.specs.declared.file_calls.FileCall.TheVariants.{ReadAt, WroteAt, Synced, Named};
    ghost use Rattle.express_outside.specs.declared.file_calls.FileCall.TheVariants.{Asked, Unsettled, Settled};
    ghost use Rattle.express_outside.specs.declared.file_calls.FileCall.TheVariants.{Begun, CopiedAt, Replaced};

    /// Its calls so far, if it tells.
    ghost calls: { Self → Option (List FileCall) };

    /// Opens the file, or makes it, for this process alone.
    fn open(&mut self) -> Result<(), Trouble>
        ensures told { calls self.new ≡ calls self.old };

    /// Opens the file, which must be there, for reading alone.
    fn open_to_read(&mut self) -> Result<(), Trouble>
        ensures told { calls self.new ≡ calls self.old };

    /// One read from an offset on. Ok(0) for a buffer that isn't empty is the file's end.
    fn read_at(&mut self, at: u64, out: &mut [u8]) -> Result<usize, Trouble>
        ensures bound { IfOk result (λ n. n ≤ length out.new) }
        ensures told { calls self.new ≡ added (ReadAt at (given result out.new)) (calls self.old) };

    /// Writes all of the bytes from an offset on.
    fn write_at(&mut self, at: u64, bytes: &[u8]) -> Result<(), Trouble>
        ensures told { calls self.new ≡ added (WroteAt at bytes.now result) (calls self.old) };

    /// Waits until the disk has what was written.
    fn sync(&mut self) -> Result<(), Trouble>
        ensures told { calls self.new ≡ added (Synced result) (calls self.old) };

    /// Fails where the name that the file was opened by isn't its own any more.
    fn check_name(&mut self) -> Result<(), Trouble>
        ensures told { calls self.new ≡ added (Named result) (calls self.old) };

    /// Whether a sync of the file has failed since it was settled, as is noted beside it.
    fn is_unsettled(&mut self) -> Result<bool, Trouble>
        ensures told { calls self.new ≡ added (Asked result) (calls self.old) };

    /// Notes beside the file that a sync of it failed.
    fn unsettle(&mut self) -> Result<(), Trouble>
        ensures told { calls self.new ≡ added (Unsettled result) (calls self.old) };

    /// Takes that note away.
    fn settle(&mut self) -> Result<(), Trouble>
        ensures told { calls self.new ≡ added (Settled result) (calls self.old) };

    /// Begins a copy of the file, an empty one. What was left of an earlier copy goes.
    fn begin_copy(&mut self) -> Result<(), Trouble>
        ensures told { calls self.new ≡ added (Begun result) (calls self.old) };

    /// Writes all of the bytes to the copy, from an offset on.
    fn copy_at(&mut self, at: u64, bytes: &[u8]) -> Result<(), Trouble>
        ensures told { calls self.new ≡ added (CopiedAt at bytes.now result) (calls self.old) };

    /// Waits until the disk has the copy, and puts it in the file's place at once; the disk has its name then. It is
    /// the file from here on.
    fn replace(&mut self) -> Result<(), Trouble>
        ensures told { calls self.new ≡ added (Replaced result) (calls self.old) };
}
