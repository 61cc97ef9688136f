//! A net in memory.
ghost use Rattle.std.specs.Prelude.{◌≡◌, ◌≢◌, ℕ, ◌<◌, ◌≤◌, ◌⊎◌, ◌↔◌, List, [], ◌∷◌, length, true, false, IfOk, OnOk, OnErr, Option, Some, None, IsNone, IfSome, OnSome, IfNone, IsTrue, IsErr, is_err};
ghost use Rattle.express_words.specs.Causes.{HasCause, CountsFault, CountsFailure, Rose, next};
ghost use Rattle.express_words.specs.Streams.{Stream};
ghost use Rattle.express_words.specs.Calls.{Call, Listened, Accepted, Dialled, Adds, GivesTelling, AddsClose};
ghost use Rattle.express_words.specs.Seen.{netted};
ghost use Rattle.express_words.specs.Memory.{NetState, ConnState, Ledger, LacksRoom, IsListed, net_failed, net_of, net_passed, passed, faulted, noted, unnoted, NotesIfRoom, GivesFirst, lending, closing, told, shown};

use crate::NoMemory;
use crate::outside::call_log::CallLog;
use crate::outside::net_ledger::{Door, NetLedger};
use crate::outside::{Counted, Failed, MemoryConn, Net};
use std::alloc::Global;
use std::marker::Model;

/// Connections that are given in order, to accepts and dials alike, and room for notes of the calls.
///
/// The calls whose numbers are listed fail, the first call having number 1, and so does one for which the room
/// left is too small, and an accept or a dial where no connection is left. An accept or a dial takes room for
/// itself and for the close of its connection. It tells its calls for as long as each of them finds room.
#[derive(Drop)]
pub struct MemoryNet {
    waiting: Vec<MemoryConn>,
    ledger: NetLedger,
    calls: CallLog,
    doors: u64,
}

impl Model for MemoryNet {
    ghost use Rattle.std.specs.Prelude.{reverse};
    ghost use Rattle.express_words.specs.Memory.{NetState};

    ghost Value = { NetState };

    // the last one waiting is given next
    ghost view = { λ n. record { waiting = reverse n.waiting.items; ledger = n.ledger; tally = n.calls; doors = n.doors } };
}

impl MemoryNet {
    ghost use Rattle.express_words.specs.Noted.{call_of};

    /// A net that gives `conns` in order, with room for `calls` calls and `text_bytes` bytes of their texts, and a
    /// copy of `failing`, the numbers of the calls that are to fail.
    pub fn new(
        alloc: Global,
        conns: Vec<MemoryConn>,
        calls: usize,
        text_bytes: usize,
        failing: &[u64],
    ) -> Result<MemoryNet, NoMemory>
        ensures { IfOk result (λ n. n ≡ net_of conns.items failing.now calls text_bytes) }
    {
        let mut waiting = conns;
        waiting.reverse();
        Ok(MemoryNet {
            waiting,
            ledger: NetLedger::new(alloc, calls, text_bytes)?,
            calls: CallLog::new(alloc, failing)?,
            doors: 0,
        })
    }

    /// The connections that were closed, in the order of their closes.
    pub fn closed(&self) -> &[MemoryConn]
        ensures { result.now ≡ self.now.ledger.closed }
    {
        self.ledger.closed()
    }

    // Whether no connection can be given and noted.
    fn lacks_conn(&self, text: &str) -> bool
        ensures { IsTrue result ↔ (LacksRoom self.now.ledger 2 (length text.now) ⊎ (self.now.waiting ≡ [])) }
    {
        self.ledger.lacks_room(2, text) || self.waiting.is_empty()
    }

    // An accept or a dial, but for the count at the door.
    fn connect(&mut self, door: Door, text: &str) -> Option<MemoryConn>
        ensures fails { IsNone result ↔ (IsListed self.old.tally
            ⊎ (LacksRoom self.old.ledger 2 (length text.now) ⊎ (self.old.waiting ≡ []))) }
        ensures gives { IfSome result (GivesFirst self.old.waiting self.new.waiting) }
        ensures noted { OnSome result (self.new.ledger ≡ lending (noted (call_of door text.now false)
            (length text.now) self.old.ledger)) }
        ensures passed { OnSome result ((self.new.tally ≡ passed self.old.tally)
            × (self.new.doors ≡ self.old.doors)) }
        ensures failed { IfNone result (self.new ≡ net_failed self.new.ledger self.old.doors self.old) }
        ensures later { self.old.tally.faults ≤ self.new.tally.faults }
        ensures notes_failure { IfNone result (NotesIfRoom (call_of door text.now true) (length text.now) self.old.ledger self.new.ledger) }
    {
        if self.calls.begin() || self.lacks_conn(text) {
            self.calls.fail();
            self.ledger.note(door, text, true);
            return None;
        }
        self.ledger.note(door, text, false);
        self.ledger.lend();
        let mut conn = self.waiting.pop()?;
        conn.restart();
        Some(conn)
    }
}

impl Counted for MemoryNet {
    ghost seen = { λ n. netted (told n.ledger) n.tally.faults n.doors };

    fn faults(&self) -> u64 {
        self.calls.faults()
    }
}

impl Net for MemoryNet {
    type Conn = MemoryConn;

    /// A call that fails changes nothing but the counts and the notes.
    fn listen(&mut self, at: &str) -> Result<(), Failed>
        ensures call { Adds (told self.old.ledger) (told self.new.ledger) (Listened at.now (is_err result)) }
        ensures door { CountsFailure self.old.doors self.new.doors result }
        ensures cause { HasCause self.old.tally.faults self.new.tally.faults result }
        ensures counts { CountsFault self.old.tally.faults self.new.tally.faults result }
        ensures fails { IsErr result ↔ (IsListed self.old.tally ⊎ LacksRoom self.old.ledger 1 (length at.now)) }
        ensures after { OnOk result (self.new ≡ net_passed self.old.waiting
            (noted (Listened at.now false) (length at.now) self.old.ledger) self.old) }
        ensures stays { OnErr result (self.new ≡ net_failed self.new.ledger (next self.old.doors) self.old) }
        ensures notes_failure { OnErr result (NotesIfRoom (Listened at.now true)
            (length at.now) self.old.ledger self.new.ledger) }
    {
        if self.calls.begin() || self.ledger.lacks_room(1, at) {
            self.calls.fail();
            self.ledger.note(Door::Listen, at, true);
            self.doors = self.doors.saturating_add(1);
            return Err(Failed);
        }
        self.ledger.note(Door::Listen, at, false);
        Ok(())
    }

    /// A call that fails changes nothing but the counts and the notes.
    fn accept(&mut self) -> Result<MemoryConn, Failed>
        ensures whole { IfOk result (λ conn. conn.tally.faults ≡ 0) }
        ensures unread { IfOk result (λ conn. conn.content.given ≡ []) }
        ensures unwritten { IfOk result (λ conn. conn.written ≡ []) }
        ensures tells { IfOk result (λ conn. GivesTelling (told self.new.ledger) (Some (shown conn.content))
            (Some conn.written)) }
        ensures call { Adds (told self.old.ledger) (told self.new.ledger) (Accepted (is_err result)) }
        ensures door { CountsFailure self.old.doors self.new.doors result }
        ensures cause { HasCause self.old.tally.faults self.new.tally.faults result }
        ensures counts { CountsFault self.old.tally.faults self.new.tally.faults result }
        ensures fails { IsErr result ↔ (IsListed self.old.tally ⊎ (LacksRoom self.old.ledger 2 0
            ⊎ (self.old.waiting ≡ []))) }
        ensures gives { IfOk result (GivesFirst self.old.waiting self.new.waiting) }
        ensures after { OnOk result (self.new ≡ net_passed self.new.waiting
            (lending (noted (Accepted false) 0 self.old.ledger)) self.old) }
        ensures stays { OnErr result (self.new ≡ net_failed self.new.ledger (next self.old.doors) self.old) }
        ensures notes_failure { OnErr result (NotesIfRoom (Accepted true) 0 self.old.ledger self.new.ledger) }
    {
        match self.connect(Door::Accept, "") {
            Some(conn) => Ok(conn),
            None => {
                self.doors = self.doors.saturating_add(1);
                Err(Failed)
            }
        }
    }

    /// A call that fails changes nothing but the counts and the notes.
    fn dial(&mut self, peer: &str) -> Result<MemoryConn, Failed>
        ensures whole { IfOk result (λ conn. conn.tally.faults ≡ 0) }
        ensures unread { IfOk result (λ conn. conn.content.given ≡ []) }
        ensures unwritten { IfOk result (λ conn. conn.written ≡ []) }
        ensures tells { IfOk result (λ conn. GivesTelling (told self.new.ledger) (Some (shown conn.content))
            (Some conn.written)) }
        ensures call { Adds (told self.old.ledger) (told self.new.ledger) (Dialled peer.now (is_err result)) }
        ensures door { self.new.doors ≡ self.old.doors }
        ensures cause { HasCause self.old.tally.faults self.new.tally.faults result }
        ensures counts { CountsFault self.old.tally.faults self.new.tally.faults result }
        ensures fails { IsErr result ↔ (IsListed self.old.tally
            ⊎ (LacksRoom self.old.ledger 2 (length peer.now) ⊎ (self.old.waiting ≡ []))) }
        ensures gives { IfOk result (GivesFirst self.old.waiting self.new.waiting) }
        ensures after { OnOk result (self.new ≡ net_passed self.new.waiting
            (lending (noted (Dialled peer.now false) (length peer.now) self.old.ledger)) self.old) }
        ensures stays { OnErr result (self.new ≡ net_failed self.new.ledger self.old.doors self.old) }
        ensures notes_failure { OnErr result (NotesIfRoom (Dialled peer.now true)
            (length peer.now) self.old.ledger self.new.ledger) }
    {
        self.connect(Door::Dial, peer).ok_or(Failed)
    }

    /// The close of a connection that this net didn't give isn't noted.
    fn close(&mut self, conn: MemoryConn)
        ensures call { AddsClose (told self.old.ledger) (told self.new.ledger) (Some (shown conn.content)) (Some conn.written) conn.tally.faults }
        ensures door { self.new.doors ≡ self.old.doors }
        ensures later { self.old.tally.faults ≤ self.new.tally.faults }
        ensures whole { conn.tally.faults ≡ 0 → self.new.tally.faults ≡ self.old.tally.faults }
        ensures broken { conn.tally.faults ≢ 0 → Rose self.old.tally.faults self.new.tally.faults }
        ensures kept { conn.tally.faults ≡ 0 → self.new.tally ≡ self.old.tally }
        ensures counted { conn.tally.faults ≢ 0 → self.new.tally ≡ faulted self.old.tally }
        ensures noted { 1 ≤ self.old.ledger.lent → self.new.ledger ≡ closing conn self.old.ledger }
        ensures foreign { self.old.ledger.lent ≡ 0 → self.new.ledger ≡ unnoted self.old.ledger }
        ensures waiting { self.new.waiting ≡ self.old.waiting }
    {
        if conn.faults() != 0 {
            self.calls.fail();
        }
        self.ledger.close(conn);
    }
}
