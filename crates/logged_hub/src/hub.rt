//! Connections and a clock, and the log beside them.
ghost use Rattle.std.specs.Prelude.{◌≡◌, ◌≤◌, ◌⊎◌, ◌++◌, ℕ, List, [], length, true, false, None, IfSome, IsSome, IsOk, IsErr, OnOk, OnErr, refl};
ghost use Rattle.std.proofs.Common.{◌∙◌};
ghost use Rattle.std.specs.Bool.{OnTrue, OnFalse};
ghost use Rattle.many_words.specs.Events.{Adds, Waited, Opened, Asked, Closed, Dropped, Logged, LogFailed, Unanswered, Sent, SentAgain, records_of};
ghost use Rattle.many_words.specs.Takes.{Gives};
ghost use Rattle.kept_machine.specs.Kept.{Holds};
ghost use Rattle.node_journal.specs.Disk.{LeavesOnly, Within};
ghost use Rattle.logged_hub.specs.State.{IsKept, IsReady, LeavesWhole, records_in, told_of};
ghost use Rattle.logged_hub.specs.Logs.{Counts, IsFaultOf};
ghost use Rattle.logged_hub.specs.Runs.{Fails, Proceeds, calls_then};

use crate::fault::LogFault;
use crate::writing::write_all;
use many_wires::{CallLog, RecordLog, Wires};
use many_words::{Door, Entry, Failed, Hub, Taken};
use node_journal::{Batch, Disk, Journal};
use std::marker::Model;

/// Connections and a clock, and a journal that the records of frames go to before they are answered. Once a call of
/// the log fails, each further one does.
#[derive(Drop)]
pub struct LoggedHub<W: Wires, D: Disk> {
    wires: W,
    journal: Journal,
    disk: D,
    batch: Batch,
    fault: Option<LogFault>,
    held: RecordLog,
    calls: CallLog,
}

impl<W: Wires, D: Disk> Model for LoggedHub<W, D> {
    ghost use Rattle.std.specs.Prelude.{◌++◌};
    ghost use Rattle.logged_hub.specs.Calls.{written};
    ghost use Rattle.logged_hub.specs.State.{HubState, IsKept};

    ghost Value = { HubState W D };

    ghost view = { λ h. record {
      wires = h.wires;
      journal = h.journal;
      disk = h.disk;
      batch = h.batch;
      fault = h.fault;
      held = h.held;
      calls = h.calls;
    } };

    ghost invariant = { λ h. IsKept (D.disk h.disk) h.journal h.batch.records (h.held ++ written h.calls) h.fault };
}

impl<W: Wires, D: Disk> LoggedHub<W, D> {
    /// Connections, and a journal that stands at its end on its disk, with the records that it holds. The batch's room
    /// is for the records of one call of the log.
    pub fn open(
        wires: W,
        journal: Journal,
        disk: D,
        held: RecordLog,
        batch: Batch,
    ) -> LoggedHub<W, D>
        requires ready { IsReady journal (D.disk disk) }
        requires held { Holds held (D.disk disk).reads }
        ensures made { result ≡ record { wires = wires; journal = journal; disk = disk; batch = batch; fault = None; held = held; calls = [] } }
    {
        LoggedHub {
            wires,
            journal,
            disk,
            batch,
            fault: None,
            held,
            calls: CallLog::new(),
        }
    }

    /// Why the log failed, if it did. Whatever was called so far, the disk has the records of the log; once it failed, a crash
    /// leaves all of the last batch or none of it.
    pub fn fault(&self) -> Option<LogFault>
        ensures fault { result ≡ self.now.fault }
        ensures kept { IsKept (D.disk self.now.disk) self.now.journal self.now.batch.records (records_in self.now) self.now.fault }
    {
        self.fault
    }

    /// The connections.
    pub fn wires(&self) -> &W
        ensures { result.now ≡ self.now.wires }
    {
        &self.wires
    }

    /// How many bytes the log's records take.
    pub fn log_end(&self) -> u64
        ensures { result ≡ self.now.journal.end }
    {
        self.journal.end()
    }

    /// The connections and the disk, as the last call left them.
    pub fn into_parts(self) -> (W, D)
        ensures wires { result.0 ≡ self.wires }
        ensures disk { result.1 ≡ self.disk }
        ensures held { self.fault ≡ None → Holds (records_in self) (D.disk result.1).reads }
        ensures durable { self.fault ≡ None → Within (D.disk result.1).may_leave (D.disk result.1).reads }
        ensures failed { IsSome self.fault → (c : List ℕ) → (D.disk result.1).may_leave c
            → LeavesWhole self.journal.limit (records_in self) self.batch.records c }
    {
        let LoggedHub {
            wires,
            journal: _,
            disk,
            batch: _,
            fault: _,
            held: _,
            calls: _,
        } = self;
        (wires, disk)
    }
}

impl<W: Wires, D: Disk> Hub for LoggedHub<W, D> {
    ghost told = { told_of };

    ghost goes_on = { Proceeds W.told D.disk };

    ghost fails = { Fails W.told D.disk };

    ghost goes_on_none = { λ hub. record { calls = ([], refl); fault = refl } };

    ghost goes_on_then = { λ old mid new one two. record {
      calls =
          (one.calls.0 ++ two.calls.0, calls_then W.told D.disk one.calls.0 two.calls.0 old mid new one.calls.1 two.calls.1);
      fault = two.fault ∙ one.fault;
    } };

    fn wait(&mut self) -> u64
        ensures told { Adds (told_of self.old) (told_of self.new) (Waited result) }
        ensures goes_on { Proceeds W.told D.disk self.old self.new }
    {
        let now = self.wires.wait();
        self.calls.note_waited(now);
        now
    }

    fn open(&mut self, place: usize, door: Door) -> bool
        ensures opened { OnTrue result (Adds (told_of self.old) (told_of self.new) (Opened place door)) }
        ensures none { OnFalse result (Adds (told_of self.old) (told_of self.new) (Asked place door)) }
        ensures goes_on { Proceeds W.told D.disk self.old self.new }
    {
        if self.wires.open(place, door) {
            self.calls.note_opened(place, door);
            true
        } else {
            self.calls.note_asked(place, door);
            false
        }
    }

    fn take(&mut self, place: usize, door: Door, buf: &mut [u8]) -> Taken
        ensures length { length buf.new ≡ length buf.old }
        ensures gives { Gives (told_of self.old) (told_of self.new) place door result buf.new }
        ensures goes_on { Proceeds W.told D.disk self.old self.new }
    {
        let taken = self.wires.take(place, door, buf);
        match taken {
            Taken::Bytes(count) => self.calls.note_came(place, &buf[..count]),
            Taken::Over => self.calls.note_ended(place),
            Taken::Pending => self.calls.note_blocked(place),
        }
        taken
    }

    fn close(&mut self, place: usize)
        ensures told { Adds (told_of self.old) (told_of self.new) (Closed place) }
        ensures goes_on { Proceeds W.told D.disk self.old self.new }
    {
        self.wires.close(place);
        self.calls.note_closed(place);
    }

    fn knocks(&mut self, door: Door) -> bool
        ensures told { told_of self.new ≡ told_of self.old }
        ensures goes_on { Proceeds W.told D.disk self.old self.new }
    {
        self.wires.knocks(door)
    }

    fn drop_for_another(&mut self, place: usize)
        ensures told { Adds (told_of self.old) (told_of self.new) (Dropped place) }
        ensures goes_on { Proceeds W.told D.disk self.old self.new }
    {
        self.wires.drop_for_another(place);
        self.calls.note_dropped(place);
    }

    fn log(&mut self, entries: &[Entry]) -> Result<(), Failed>
        ensures logged { OnOk result (Adds (told_of self.old) (told_of self.new) (Logged entries.now)) }
        ensures failed { OnErr result (Adds (told_of self.old) (told_of self.new) LogFailed) }

        ensures kept { OnOk result (Holds (records_in self.old ++ records_of entries.now) (D.disk self.new.disk).reads) }
        // A crash at any moment of the call leaves the records of before, with all of these or with none.
        ensures any_moment { self.old.fault ≡ None → LeavesOnly (D.disk self.old.disk) (D.disk self.new.disk)
            (LeavesWhole self.old.journal.limit (records_in self.old) (records_of entries.now)) }
        ensures nothing { self.old.fault ≡ None → records_of entries.now ≡ []
            → IsOk result × (self.new.disk ≡ self.old.disk) }
        ensures still_open { OnOk result ((self.old.fault ≡ None) × (self.new.fault ≡ None)) }

        // Once it has failed, nothing more is written.
        ensures closed { OnErr result (IsSome self.new.fault) }
        ensures stays { IsSome self.old.fault
            → IsErr result × (self.new.fault ≡ self.old.fault) × (self.new.disk ≡ self.old.disk) }
        ensures fault { self.old.fault ≡ None
            → IfSome self.new.fault (IsFaultOf self.old.batch.room self.old.journal (records_of entries.now)) }
        ensures counts { self.old.fault ≡ None
            → Counts (D.Counted.seen self.old.disk).faults (D.Counted.seen self.new.disk).faults self.new.fault }
        // The batch that a crash may leave is that of this call.
        ensures batch { self.old.fault ≡ None → OnErr result ((self.new.disk ≡ self.old.disk)
            ⊎ (self.new.batch.records ≡ records_of entries.now)) }
        ensures room { self.new.batch.room ≡ self.old.batch.room }
        ensures goes_on { OnOk result (Proceeds W.told D.disk self.old self.new) }
        ensures fails { OnErr result (Fails W.told D.disk self.old self.new) }
    {
        if self.fault.is_some() {
            self.calls.note_log_failed();
            return Err(Failed);
        }
        match write_all(&mut self.batch, &mut self.journal, &mut self.disk, entries) {
            Ok(()) => {
                self.calls.note_logged(entries);
                Ok(())
            }
            Err(fault) => {
                self.fault = Some(fault);
                self.calls.note_log_failed();
                Err(Failed)
            }
        }
    }

    fn leave(&mut self, place: usize)
        ensures told { Adds (told_of self.old) (told_of self.new) (Unanswered place) }
        ensures goes_on { Proceeds W.told D.disk self.old self.new }
    {
        self.wires.leave(place);
        self.calls.note_unanswered(place);
    }

    fn send(&mut self, place: usize, bytes: &[u8])
        ensures told { Adds (told_of self.old) (told_of self.new) (Sent place bytes.now) }
        ensures goes_on { Proceeds W.told D.disk self.old self.new }
    {
        self.wires.send(place, bytes);
        self.calls.note_sent(place, bytes);
    }

    fn send_again(&mut self, place: usize, bytes: &[u8])
        ensures told { Adds (told_of self.old) (told_of self.new) (SentAgain place bytes.now) }
        ensures goes_on { Proceeds W.told D.disk self.old self.new }
    {
        self.wires.send_again(place, bytes);
        self.calls.note_sent_again(place, bytes);
    }
}
