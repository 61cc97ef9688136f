//! A desk's folder over the system's calls.
ghost use Rattle.std.specs.Prelude.{◌≡◌, ◌≤◌, [], ◌∷◌, ◌++◌, Some, Ok, IfErr, IfOk, OnOk, is_err, true};
ghost use Rattle.express_words.specs.Seen.{silent};
ghost use Rattle.express_words.specs.Causes.{HasCause, CountsFault, next};
ghost use Rattle.express_outside.specs.Calls.{added};
ghost use Rattle.desk_outside.specs.Calls.{Held, Opened, Placed, Removed, Adopted, given};
ghost use Rattle.desk_outside.specs.Calls.{Looked as Asked};
ghost use Rattle.desk_files.specs.Disks.{IsOnlyRead, MayBeWritten};
ghost use Rattle.desk_files.specs.declared.folder_calls.FolderStep.TheVariants.{Looked, Renamed, Unlinked, Synced};
ghost use Rattle.desk_files.specs.declared.folder_calls.FolderStep.TheVariants.{HandedOut, MarkSet};
ghost use Rattle.desk_files.specs.Steps.{IsHoldOf, FailsToHold, HoldsBehindLock, FailsBehindLock};

use crate::folder_calls::{FolderCalls, Mark};
use crate::folder_log::FolderLog;
use desk_outside::{DeskFile, Folder, FolderFault, Hold};
use express_outside::{FileDisk, Trouble};
use express_words::outside::{Counted, Failed};

/// A folder of the system. Each error is a fault. It tells its calls.
#[derive(Drop)]
pub struct DeskFolder<C: FolderCalls> {
    system: C,
    log: FolderLog<FileDisk<C::File>>,
    faults: u64,
}

impl<C: FolderCalls> DeskFolder<C> {
    /// The folder, which isn't touched yet.
    pub fn new(system: C) -> Self
        ensures { result ≡ record { system = system; log = []; faults = 0 } }
    {
        DeskFolder {
            system,
            log: FolderLog::new(),
            faults: 0,
        }
    }

    fn count_fault(&mut self)
        ensures faults { self.new.faults ≡ next self.old.faults }
        ensures later { self.old.faults ≤ self.new.faults }
        ensures system { self.new.system ≡ self.old.system }
        ensures log { self.new.log ≡ self.old.log }
    {
        self.faults = self.faults.saturating_add(1);
    }

    // What the mark says of a folder whose lock this process has. One in which nothing stands gets its mark.
    fn marked(&mut self) -> Result<Hold, FolderFault>
        ensures faults { self.new.faults ≡ self.old.faults }
        ensures log { self.new.log ≡ self.old.log }
        ensures hold { IfOk result
            (λ hold. HoldsBehindLock hold (C.calls self.old.system) (C.calls self.new.system)) }
        ensures fails { IfErr result
            (λ fault. FailsBehindLock fault (C.calls self.old.system) (C.calls self.new.system)) }
    {
        match self.system.mark()? {
            Mark::This => Ok(Hold::Held),
            Mark::Other => Ok(Hold::Copied),
            Mark::Absent => {
                if !self.system.is_bare()? {
                    return Ok(Hold::Copied);
                }
                self.system.set_mark()?;
                Ok(Hold::Held)
            }
        }
    }

    fn take(&mut self) -> Result<Hold, FolderFault>
        ensures faults { self.new.faults ≡ self.old.faults }
        ensures log { self.new.log ≡ self.old.log }
        ensures hold { IfOk result
            (λ hold. IsHoldOf hold (C.calls self.old.system) (C.calls self.new.system)) }
        ensures fails { IfErr result
            (λ fault. FailsToHold fault (C.calls self.old.system) (C.calls self.new.system)) }
    {
        self.system.make()?;
        self.system.check()?;
        if self.system.lock()? {
            self.marked()
        } else {
            Ok(Hold::InUse)
        }
    }

    fn replace(&mut self, next: DeskFile, file: DeskFile) -> Result<(), Trouble>
        ensures faults { self.new.faults ≡ self.old.faults }
        ensures log { self.new.log ≡ self.old.log }
        ensures placed { OnOk result (C.calls self.new.system
            ≡ added (Synced (Ok tt)) (added (Renamed next file (Ok tt)) (C.calls self.old.system))) }
    {
        self.system.rename(next, file)?;
        self.system.sync()
    }

    fn forget(&mut self, file: DeskFile) -> Result<(), Trouble>
        ensures faults { self.new.faults ≡ self.old.faults }
        ensures log { self.new.log ≡ self.old.log }
        ensures removed { OnOk result (C.calls self.new.system
            ≡ added (Synced (Ok tt)) (added (Unlinked file (Ok tt)) (C.calls self.old.system))) }
    {
        self.system.unlink(file)?;
        self.system.sync()
    }
}

impl<C: FolderCalls> Counted for DeskFolder<C> {
    ghost seen = { λ folder. silent folder.faults };

    fn faults(&self) -> u64 {
        self.faults
    }
}

impl<C: FolderCalls> Folder for DeskFolder<C> {
    type File = FileDisk<C::File>;

    ghost calls = { λ folder. Some folder.log };

    fn hold(&mut self) -> Result<Hold, FolderFault>
        ensures call { self.new.log ≡ self.old.log ++ Held (given result) ∷ [] }
        ensures hold { IfOk result
            (λ hold. IsHoldOf hold (C.calls self.old.system) (C.calls self.new.system)) }
        ensures fails { IfErr result
            (λ fault. FailsToHold fault (C.calls self.old.system) (C.calls self.new.system)) }
        ensures cause { HasCause self.old.faults self.new.faults result }
        ensures counts { CountsFault self.old.faults self.new.faults result }
    {
        let answer = self.take();
        self.log.held(answer);
        if answer.is_err() {
            self.count_fault();
        }
        answer
    }

    fn is_there(&mut self, file: DeskFile) -> Result<bool, FolderFault>
        ensures call { self.new.log ≡ self.old.log ++ Asked file (given result) ∷ [] }
        ensures looked { IfOk result
            (λ there. C.calls self.new.system ≡ added (Looked file (Ok there)) (C.calls self.old.system)) }
        ensures cause { HasCause self.old.faults self.new.faults result }
        ensures counts { CountsFault self.old.faults self.new.faults result }
    {
        let answer = self.system.look(file);
        self.log.looked(file, answer);
        if answer.is_err() {
            self.count_fault();
        }
        answer
    }

    fn open(&mut self, file: DeskFile) -> Result<FileDisk<C::File>, Failed>
        ensures call { self.new.log ≡ self.old.log ++ Opened file (given result) ∷ [] }
        ensures file { OnOk result
            (C.calls self.new.system ≡ added (HandedOut file) (C.calls self.old.system)) }
        ensures whole { IfOk result (λ disk. disk.faults ≡ 0) }
        ensures purpose { IfOk result MayBeWritten }
        ensures cause { HasCause self.old.faults self.new.faults result }
        ensures counts { CountsFault self.old.faults self.new.faults result }
    {
        let answer = Ok(FileDisk::new(self.system.file(file)));
        self.log.opened(file, &answer);
        answer
    }

    fn look_into(&mut self, file: DeskFile) -> Result<FileDisk<C::File>, Failed>
        ensures call { self.new.log ≡ self.old.log ++ Opened file (given result) ∷ [] }
        ensures file { OnOk result
            (C.calls self.new.system ≡ added (HandedOut file) (C.calls self.old.system)) }
        ensures whole { IfOk result (λ disk. disk.faults ≡ 0) }
        ensures purpose { IfOk result IsOnlyRead }
        ensures cause { HasCause self.old.faults self.new.faults result }
        ensures counts { CountsFault self.old.faults self.new.faults result }
    {
        let answer = Ok(FileDisk::only_read(self.system.file(file)));
        self.log.opened(file, &answer);
        answer
    }

    fn put_in_place(&mut self, next: DeskFile, file: DeskFile) -> Result<(), Failed>
        ensures call { self.new.log ≡ self.old.log ++ Placed next file (is_err result) ∷ [] }
        ensures placed { OnOk result (C.calls self.new.system
            ≡ added (Synced (Ok tt)) (added (Renamed next file (Ok tt)) (C.calls self.old.system))) }
        ensures cause { HasCause self.old.faults self.new.faults result }
        ensures counts { CountsFault self.old.faults self.new.faults result }
    {
        match self.replace(next, file) {
            Ok(()) => {
                self.log.placed(next, file, false);
                Ok(())
            }
            Err(_) => {
                self.log.placed(next, file, true);
                self.count_fault();
                Err(Failed)
            }
        }
    }

    fn remove(&mut self, file: DeskFile) -> Result<(), Failed>
        ensures call { self.new.log ≡ self.old.log ++ Removed file (is_err result) ∷ [] }
        ensures removed { OnOk result (C.calls self.new.system
            ≡ added (Synced (Ok tt)) (added (Unlinked file (Ok tt)) (C.calls self.old.system))) }
        ensures cause { HasCause self.old.faults self.new.faults result }
        ensures counts { CountsFault self.old.faults self.new.faults result }
    {
        match self.forget(file) {
            Ok(()) => {
                self.log.removed(file, false);
                Ok(())
            }
            Err(_) => {
                self.log.removed(file, true);
                self.count_fault();
                Err(Failed)
            }
        }
    }

    fn adopt(&mut self) -> Result<(), Failed>
        ensures call { self.new.log ≡ self.old.log ++ Adopted (is_err result) ∷ [] }
        ensures marked { OnOk result
            (C.calls self.new.system ≡ added (MarkSet (Ok tt)) (C.calls self.old.system)) }
        ensures cause { HasCause self.old.faults self.new.faults result }
        ensures counts { CountsFault self.old.faults self.new.faults result }
    {
        match self.system.set_mark() {
            Ok(()) => {
                self.log.adopted(false);
                Ok(())
            }
            Err(_) => {
                self.log.adopted(true);
                self.count_fault();
                Err(Failed)
            }
        }
    }
}
