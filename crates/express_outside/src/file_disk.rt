//! A journal's disk over a file.
ghost use Rattle.std.specs.Prelude.{◌≡◌, ◌≤◌, ◌<◌, ◌+◌, ◌^◌, length, take, true, false, Ok, Err, IfOk, OnOk, OnErr};
ghost use Rattle.express_words.specs.Seen.{silent};
ghost use Rattle.express_words.specs.Causes.{HasCause, CountsFault, next};
ghost use Rattle.express_outside.specs.Calls.{added, EndedBy};
ghost use Rattle.express_outside.specs.declared.file_calls.FileCall.TheVariants.{WroteAt, Synced, CopiedAt};
ghost use Rattle.express_outside.specs.Copying.{CopiedWhole};
ghost use Rattle.express_outside.specs.FileReads.{GaveFrom, ReadFrom};
ghost use Rattle.express_outside.specs.Answers.{EndedByEnd, EndedSynced, EndedUnsettled};
ghost use Rattle.express_outside.specs.Answers.{IsUnopened, OpenedSettled, Renewed};

use crate::calls::Trouble;
use crate::file_calls::FileCalls;
use express_words::outside::{Counted, Failed};
use node_journal::Disk;

/// So many bytes at once are copied of a file that is put in place anew.
const PIECE: usize = 8192;

/// A file as a disk, opened at the first call. Each error is a fault. It doesn't tell its content.
#[derive(Drop)]
pub struct FileDisk<F> {
    file: F,
    is_open: bool,
    is_only_read: bool,
    faults: u64,
}

// Reads until `out` is full or the file ends, and tells how many bytes that were. A read that was interrupted
// is made again.
fn read_on<F: FileCalls>(file: &mut F, at: u64, out: &mut [u8]) -> Result<usize, Trouble>
    ensures bound { IfOk result (λ n. n ≤ length out.new) }
    ensures length { length out.new ≡ length out.old }
    ensures gave { at + length out.old < 2 ^ 64
        → IfOk result (λ n. ReadFrom at (F.calls file.old) (F.calls file.new) (take n out.new)) }
    ensures ended { IfOk result (λ n. n < length out.old → EndedByEnd (F.calls file.new)) }
{
    let mut done = 0;
    'reading: for _ in 0..u64::MAX {
        if done >= out.len() {
            return Ok(done);
        }
        match file.read_at(at.wrapping_add(done as u64), &mut out[done..]) {
            Ok(0) => return Ok(done),
            Ok(count) => done += count,
            Err(Trouble::Interrupted) => {}
            Err(Trouble::Broken) => return Err(Trouble::Broken),
        }
    }
    Err(Trouble::Interrupted)
}

// Writes a piece to the copy, and tells the offset behind it.
fn copy_piece<F: FileCalls>(file: &mut F, at: u64, piece: &[u8]) -> Result<u64, Trouble>
    ensures copied { OnOk result
        (F.calls file.new ≡ added (CopiedAt at piece.now (Ok tt)) (F.calls file.old)) }
    ensures behind { IfOk result (λ end. end ≡ at + length piece.now) }
{
    file.copy_at(at, piece)?;
    match at.checked_add(piece.len() as u64) {
        Some(end) => Ok(end),
        None => Err(Trouble::Broken),
    }
}

// Copies all that the file has, piece by piece.
fn copy_whole<F: FileCalls>(file: &mut F) -> Result<(), Trouble>
    ensures whole { OnOk result (CopiedWhole (F.calls file.old) (F.calls file.new)) }
{
    let mut piece = [0; PIECE];
    let mut at = 0u64;
    'copying: for _ in 0..u64::MAX {
        match file.read_at(at, &mut piece) {
            Ok(0) => return Ok(()),
            Ok(count) => at = copy_piece(file, at, &piece[..count])?,
            Err(Trouble::Interrupted) => {}
            Err(Trouble::Broken) => return Err(Trouble::Broken),
        }
    }
    Err(Trouble::Interrupted)
}

// Puts a copy of what can be read of the file in its place, and then takes the note away that a sync of it failed.
fn renew<F: FileCalls>(file: &mut F) -> Result<(), Trouble>
    ensures renewed { OnOk result (Renewed (F.calls file.old) (F.calls file.new)) }
{
    file.begin_copy()?;
    copy_whole(file)?;
    file.replace()?;
    file.settle()
}

// Waits until the disk has what was written. Where that fails the system may forget what it couldn't write, and
// give it to readers all the same; so that is noted for whoever opens the file next.
fn sync_or_note<F: FileCalls>(file: &mut F) -> Result<(), Trouble>
    ensures synced { OnOk result (F.calls file.new ≡ added (Synced (Ok tt)) (F.calls file.old)) }
    ensures noted { OnErr result (EndedUnsettled (F.calls file.new)) }
{
    match file.sync() {
        Ok(()) => Ok(()),
        Err(why) => {
            let _ = file.unsettle();
            Err(why)
        }
    }
}

// What was opened is on the disk from here on. Nothing is written but where it is noted that a sync failed.
fn settled<F: FileCalls>(file: &mut F) -> Result<(), Trouble>
    ensures { OnOk result (OpenedSettled (F.calls file.old) (F.calls file.new)) }
{
    if file.is_unsettled()? {
        renew(file)?;
    }
    sync_or_note(file)
}

impl<F: FileCalls> FileDisk<F> {
    /// The file, which isn't touched yet.
    pub fn new(file: F) -> Self
        ensures { result ≡ record { file = file; is_open = false; is_only_read = false; faults = 0 } }
    {
        FileDisk {
            file,
            is_open: false,
            is_only_read: false,
            faults: 0,
        }
    }

    /// The file, which must be there, to be only read: a write or a sync of it fails, and nothing on the disk changes.
    pub fn only_read(file: F) -> Self
        ensures { result ≡ record { file = file; is_open = false; is_only_read = true; faults = 0 } }
    {
        FileDisk {
            file,
            is_open: false,
            is_only_read: true,
            faults: 0,
        }
    }

    // Opens the file at the first call. What it had is on the disk then, if it isn't only read.
    fn open(&mut self) -> Result<(), Trouble>
        ensures faults { self.new.faults ≡ self.old.faults }
        ensures opened { OnOk result (self.new.is_open ≡ true) }
        ensures purpose { self.new.is_only_read ≡ self.old.is_only_read }
        ensures first { IsUnopened self.old
            → OnOk result (OpenedSettled (F.calls self.old.file) (F.calls self.new.file)) }
        ensures only_read { self.old.is_only_read ≡ true → F.calls self.new.file ≡ F.calls self.old.file }
        ensures later { self.old.is_open ≡ true → self.new ≡ self.old }
    {
        if self.is_open {
            return Ok(());
        }
        if self.is_only_read {
            self.file.open_to_read()?;
        } else {
            self.file.open()?;
            settled(&mut self.file)?;
        }
        self.is_open = true;
        Ok(())
    }

    // Opens the file where it may be written.
    fn open_to_write(&mut self) -> Result<(), Trouble>
        ensures faults { self.new.faults ≡ self.old.faults }
        ensures only_read { self.old.is_only_read ≡ true → (result ≡ Err Trouble.Broken) × (self.new ≡ self.old) }
    {
        if self.is_only_read {
            return Err(Trouble::Broken);
        }
        self.open()
    }

    fn read_file(&mut self, at: u64, out: &mut [u8]) -> Result<usize, Trouble>
        ensures faults { self.new.faults ≡ self.old.faults }
        ensures bound { IfOk result (λ n. n ≤ length out.new) }
        ensures length { length out.new ≡ length out.old }
        ensures gave { at + length out.old < 2 ^ 64 → IfOk result (λ n. GaveFrom at
            self.old.is_open (F.calls self.old.file) (F.calls self.new.file) (take n out.new)) }
        ensures ended { IfOk result (λ n. n < length out.old → EndedByEnd (F.calls self.new.file)) }
    {
        self.open()?;
        read_on(&mut self.file, at, out)
    }

    fn write_file(&mut self, at: u64, bytes: &[u8]) -> Result<(), Trouble>
        ensures faults { self.new.faults ≡ self.old.faults }
        ensures written { OnOk result (EndedBy (F.calls self.new.file) (WroteAt at bytes.now (Ok tt))) }
        ensures only_read { self.old.is_only_read ≡ true → self.new ≡ self.old }
    {
        self.open_to_write()?;
        self.file.write_at(at, bytes)
    }

    fn sync_file(&mut self) -> Result<(), Trouble>
        ensures faults { self.new.faults ≡ self.old.faults }
        ensures synced { OnOk result (EndedSynced (F.calls self.new.file)) }
        ensures only_read { self.old.is_only_read ≡ true → self.new ≡ self.old }
    {
        self.open_to_write()?;
        sync_or_note(&mut self.file)?;
        self.file.check_name()
    }

    fn count_fault(&mut self)
        ensures faults { self.new.faults ≡ next self.old.faults }
        ensures later { self.old.faults ≤ self.new.faults }
        ensures file { self.new.file ≡ self.old.file }
    {
        self.faults = self.faults.saturating_add(1);
    }
}

impl<F: FileCalls> Counted for FileDisk<F> {
    ghost seen = { λ d. silent d.faults };

    fn faults(&self) -> u64 {
        self.faults
    }
}

impl<F: FileCalls> Disk for FileDisk<F> {
    ghost disk = { λ d. record { reads = λ c. ⊥; may_leave = λ c. ⊥; moment = 0; left_since = λ t c. ⊥ } };

    fn read(&mut self, at: u64, out: &mut [u8]) -> Result<usize, Failed>
        ensures bound { IfOk result (λ n. n ≤ length out.new) }
        ensures length { length out.new ≡ length out.old }
        ensures cause { HasCause self.old.faults self.new.faults result }
        ensures counts { CountsFault self.old.faults self.new.faults result }
        ensures gave { at + length out.old < 2 ^ 64 → IfOk result (λ n. GaveFrom at
            self.old.is_open (F.calls self.old.file) (F.calls self.new.file) (take n out.new)) }
        ensures ended { IfOk result (λ n. n < length out.old → EndedByEnd (F.calls self.new.file)) }
    {
        match self.read_file(at, out) {
            Ok(count) => Ok(count),
            Err(_) => {
                self.count_fault();
                Err(Failed)
            }
        }
    }

    fn write(&mut self, at: u64, bytes: &[u8]) -> Result<(), Failed>
        ensures cause { HasCause self.old.faults self.new.faults result }
        ensures counts { CountsFault self.old.faults self.new.faults result }
        ensures put { OnOk result (EndedBy (F.calls self.new.file) (WroteAt at bytes.now (Ok tt))) }
    {
        match self.write_file(at, bytes) {
            Ok(()) => Ok(()),
            Err(_) => {
                self.count_fault();
                Err(Failed)
            }
        }
    }

    fn sync(&mut self) -> Result<(), Failed>
        ensures cause { HasCause self.old.faults self.new.faults result }
        ensures counts { CountsFault self.old.faults self.new.faults result }
        ensures synced { OnOk result (EndedSynced (F.calls self.new.file)) }
    {
        match self.sync_file() {
            Ok(()) => Ok(()),
            Err(_) => {
                self.count_fault();
                Err(Failed)
            }
        }
    }

    ghost one_content = { λ d b c is also. absurd is };

    ghost counts_now = { λ d t c le now. now };

    ghost only_now = { λ d c left. left };
}
