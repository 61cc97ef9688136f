//! What is left to be done at a desk's boxes, and asking for it.
ghost use Rattle.std.specs.Prelude.{◌≡◌, ◌≤◌, ◌<◌, ◌^◌, ◌++◌, length, Some, None, Ok, Err, IfOk, IfErr, OnOk, OnErr};
ghost use Rattle.client_core.specs.Requests.{fault_in};
ghost use Rattle.step_rules.specs.ClientAsks.{asked};
ghost use Rattle.kept_machine.specs.Faults.{OnStill};
ghost use Rattle.client_restart.specs.Notes.{Asked};
ghost use Rattle.desk_ledger.specs.Notes.{LedgerKeeps};
ghost use Rattle.desk_ledger.specs.Tasks.{TakesTask, is_leaving, is_live, live_places, next_task, place_if, place_of, request_of};

use crate::ledger::Ledger;
use crate::task::Task;
use client_core::AskFault;
use client_restart::{KeepFault, OwnedBox};
use desk_entries::{Entry, is_retired, is_retiring, name_of, waiting};
use express_words::NoMemory;
use node_journal::Disk;

impl<D: Disk> Ledger<D> {
    /// What is left to be done, whatever came between: the next box to be registered, or else to be retired.
    pub fn next_task(&self) -> Result<Option<Task>, NoMemory>
        ensures { length self.now.client.core.boxes ≤ 2 ^ 32 → IfOk result (λ task.
            task ≡ next_task self.now.entries self.now.client.core.boxes) }
    {
        let waiting = waiting(self.alloc, &self.entries)?;
        match waiting.first() {
            Some(address) => Ok(Some(Task::Register(*address))),
            None => match self.leaving() {
                Some(own) => Ok(Some(Task::Retire(own))),
                None => Ok(None),
            },
        }
    }

    // The first live box whose name is to be retired.
    fn leaving(&self) -> Option<u32>
        ensures { length self.now.client.core.boxes ≤ 2 ^ 32
            → result ≡ place_of (is_leaving self.now.entries) 0 self.now.client.core.boxes }
    {
        let mut rest = self.client.boxes();
        let mut own: usize = 0;
        while let [owned, behind @ ..] = rest {
            if is_leaving(&self.entries, owned) {
                return match u32::try_from(own) {
                    Ok(own) => Some(own),
                    Err(_) => None,
                };
            }
            own += 1;
            rest = behind;
        }
        None
    }

    /// The live boxes, in order, each by its place among the desk's own.
    pub fn live(&self) -> Result<Vec<u32>, NoMemory>
        ensures { length self.now.client.core.boxes ≤ 2 ^ 32
            → IfOk result (λ live. live.items ≡ live_places self.now) }
    {
        let mut live = Vec::new(self.alloc);
        let mut rest = self.client.boxes();
        let mut own: usize = 0;
        while let [owned, behind @ ..] = rest {
            add_place(&mut live, is_live(&self.entries, owned), own)?;
            own += 1;
            rest = behind;
        }
        Ok(live)
    }

    /// Asks the servers for something, which is on the disk before its first frame goes. `Ok(Err(_))` is the
    /// refusal of `KeptClient::ask`, and then nothing is kept.
    pub fn ask(&mut self, task: Task) -> Result<Result<(), AskFault>, KeepFault>
        ensures refused { IfOk result (λ taken. IfErr taken (λ fault.
            asked self.old.client.core.client (request_of task) ≡ Err (fault_in fault))) }
        ensures refused_stays { IfOk result (λ taken. OnErr taken (self.new ≡ self.old)) }
        ensures taken { IfOk result (λ taken. OnOk taken (TakesTask self.old task)) }
        ensures keeps { TakesTask self.old task
            → LedgerKeeps D.disk D.Counted.seen (Asked (request_of task)) self.old self.new result }
        ensures entries { self.new.entries ≡ self.old.entries }
        ensures pair { self.new.pair ≡ self.old.pair }
        ensures stays { OnStill result (self.new ≡ self.old) }
    {
        match self.client.ask(&task.request()) {
            Ok(taken) => Ok(taken),
            Err(fault) => Err(fault),
        }
    }
}

// The place of a live box stands behind the others.
fn add_place(live: &mut Vec<u32>, is_live: bool, own: usize) -> Result<(), NoMemory>
    ensures { own < 2 ^ 32 → OnOk result (live.new.items ≡ live.old.items ++ place_if is_live own) }
{
    if is_live && let Ok(own) = u32::try_from(own) {
        live.push(own)?;
    }
    Ok(())
}

pub(crate) fn is_live(entries: &[Entry], owned: &OwnedBox) -> bool
    ensures { result ≡ is_live entries.now owned.now }
{
    !is_retired(entries, owned.serial)
}

#[tactic(auto, unfolding(crate::specs::Tasks::is_leaving))]
fn is_leaving(entries: &[Entry], owned: &OwnedBox) -> bool
    ensures { result ≡ is_leaving entries.now owned.now }
{
    is_live(entries, owned) && is_retiring(entries, name_of(entries, owned.serial).as_bytes())
}
