//! Papers over the system's calls.
ghost use Rattle.std.specs.Prelude.{◌≡◌, List, Option, Ok, IfOk, true};
ghost use Rattle.express_words.specs.Seen.{silent};
ghost use Rattle.express_words.specs.Streams.{IsAtStart};
ghost use Rattle.express_words.specs.Causes.{HasCause, CountsFault};
ghost use Rattle.express_outside.specs.Calls.{added};
ghost use Rattle.desk_files.specs.Steps.{PutNew, IsAnswered};

use desk_outside::{Papers, Written};
use express_outside::{Adapter, History, Reads, Trouble};
use express_words::outside::{Counted, Failed};

/// What stands under a name, compared with bytes.
#[derive(Clone, Copy, Debug, PartialEq, Eq)]
pub enum Stands {
    /// Nothing has the name.
    Nothing,
    /// A file with these very bytes, and the disk has them.
    These,
    /// Something else.
    Others,
}

/// A call on papers, with its answer. A folder's path comes first, and then a name in it and bytes.
#[derive(Drop)]
pub enum PaperStep {
    /// A folder was made where it wasn't there.
    FolderMade(History<u8>, Result<(), Trouble>),
    /// What stands under a name was compared with these bytes.
    Found(History<u8>, History<u8>, History<u8>, Result<Stands, Trouble>),
    /// These bytes were written beside the name that they are for, and the disk has them.
    Laid(History<u8>, History<u8>, History<u8>, Result<(), Trouble>),
    /// They were given the name, which nothing had, or not.
    Placed(History<u8>, History<u8>, History<u8>, Result<bool, Trouble>),
    /// What stands beside the name was taken away.
    Tidied(History<u8>, History<u8>, Result<(), Trouble>),
    /// The disk has the folder's names.
    FolderSynced(History<u8>, Result<(), Trouble>),
}

/// The system's calls on papers.
pub trait PaperCalls {
    ghost use Rattle.express_outside.specs.declared.calls.Trouble.{Trouble};
    ghost use Rattle.desk_files.specs.declared.paper_files.PaperStep.{PaperStep};
    ghost use Rattle.desk_files.specs.declared.paper_files.PaperStep.TheVariants.{FolderMade, Found, Laid, Placed};
    ghost use Rattle.desk_files.specs.declared.paper_files.PaperStep.TheVariants.{Tidied, FolderSynced};

    /// A file that is read.
    type File: Reads + Drop;

    /// Its calls that write so far, if it tells.
    ghost calls: { Self → Option (List PaperStep) };

    /// The file at this path, from its first byte on.
    fn open(&mut self, path: &str) -> Result<Self::File, Trouble>
        ensures unread { IfOk result (λ file. IsAtStart (Self.File.content file)) }
        ensures told { calls self.new ≡ calls self.old };

    /// Makes this folder for its user alone, where there is none, and waits until the disk has its name.
    fn make(&mut self, folder: &str) -> Result<(), Trouble>
        ensures told { calls self.new ≡ added (FolderMade folder.now result) (calls self.old) };

    /// What stands under this name, compared with these bytes. A link isn't followed.
    fn find(&mut self, folder: &str, name: &str, bytes: &[u8]) -> Result<Stands, Trouble>
        ensures told { calls self.new ≡ added (Found folder.now name.now bytes.now result) (calls self.old) };

    /// Writes these bytes to a new file beside this name, which its user alone may read, and waits until the disk has
    /// them. What was left there goes first; a link isn't followed.
    fn lay(&mut self, folder: &str, name: &str, bytes: &[u8]) -> Result<(), Trouble>
        ensures told { calls self.new ≡ added (Laid folder.now name.now bytes.now result) (calls self.old) };

    /// Gives the file that was written beside it this name, unless something has it: says whether it did.
    fn place(&mut self, folder: &str, name: &str, bytes: &[u8]) -> Result<bool, Trouble>
        ensures told { calls self.new ≡ added (Placed folder.now name.now bytes.now result) (calls self.old) };

    /// Takes what stands beside this name away.
    fn tidy(&mut self, folder: &str, name: &str) -> Result<(), Trouble>
        ensures told { calls self.new ≡ added (Tidied folder.now name.now result) (calls self.old) };

    /// Waits until the disk has the folder's names.
    fn sync(&mut self, folder: &str) -> Result<(), Trouble>
        ensures told { calls self.new ≡ added (FolderSynced folder.now result) (calls self.old) };
}

/// Files of the system. Each error is a fault.
#[derive(Drop)]
pub struct PaperFiles<C> {
    system: C,
    faults: u64,
}

// What a write is answered, where this stands under its name in the end.
fn written_as(is_new: bool, stands: Stands) -> Result<Written, Trouble>
    ensures new { result ≡ Ok Written.New → (is_new ≡ true) × (stands ≡ Stands.These) }
    ensures before { result ≡ Ok Written.Before → stands ≡ Stands.These }
{
    match stands {
        Stands::These if is_new => Ok(Written::New),
        Stands::These => Ok(Written::Before),
        Stands::Others | Stands::Nothing => Err(Trouble::Broken),
    }
}

impl<C: PaperCalls> PaperFiles<C> {
    /// No call of it has failed yet.
    pub fn new(system: C) -> Self
        ensures { result ≡ record { system = system; faults = 0 } }
    {
        PaperFiles { system, faults: 0 }
    }

    // Puts the bytes under the name, if nothing has it, and says whether it did.
    fn put_new(&mut self, folder: &str, name: &str, bytes: &[u8]) -> Result<bool, Trouble>
        ensures faults { self.new.faults ≡ self.old.faults }
        ensures put { result ≡ Ok true → PutNew (C.calls self.new.system) folder.now name.now bytes.now }
    {
        match self.system.find(folder, name, bytes)? {
            Stands::These | Stands::Others => Ok(false),
            Stands::Nothing => {
                self.system.lay(folder, name, bytes)?;
                self.system.place(folder, name, bytes)
            }
        }
    }

    fn put(&mut self, folder: &str, name: &str, bytes: &[u8]) -> Result<Written, Trouble>
        ensures faults { self.new.faults ≡ self.old.faults }
        ensures answered { IfOk result
            (λ written. IsAnswered written (C.calls self.new.system) folder.now name.now bytes.now) }
    {
        self.system.make(folder)?;
        let is_new = self.put_new(folder, name, bytes)?;
        let stands = self.system.find(folder, name, bytes)?;
        self.system.tidy(folder, name)?;
        self.system.sync(folder)?;
        written_as(is_new, stands)
    }
}

impl<C> Counted for PaperFiles<C> {
    ghost seen = { λ papers. silent papers.faults };

    fn faults(&self) -> u64 {
        self.faults
    }
}

impl<C: PaperCalls> Papers for PaperFiles<C> {
    type Paper = Adapter<C::File>;

    fn read(&mut self, path: &str) -> Result<Adapter<C::File>, Failed> {
        match self.system.open(path) {
            Ok(file) => Ok(Adapter::new(file)),
            Err(_) => {
                self.faults = self.faults.saturating_add(1);
                Err(Failed)
            }
        }
    }

    fn write(&mut self, folder: &str, name: &str, bytes: &[u8]) -> Result<Written, Failed>
        ensures answered { IfOk result
            (λ written. IsAnswered written (C.calls self.new.system) folder.now name.now bytes.now) }
        ensures cause { HasCause self.old.faults self.new.faults result }
        ensures counts { CountsFault self.old.faults self.new.faults result }
    {
        match self.put(folder, name, bytes) {
            Ok(written) => Ok(written),
            Err(_) => {
                self.faults = self.faults.saturating_add(1);
                Err(Failed)
            }
        }
    }
}
