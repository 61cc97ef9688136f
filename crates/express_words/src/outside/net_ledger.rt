//! What a net in memory notes of its calls, in room that was taken before.
ghost use Rattle.std.specs.Prelude.{◌≡◌, ℕ, ◌<◌, ◌≤◌, ◌⊎◌, ◌↔◌, [], length, true, IfOk, IsTrue};
ghost use Rattle.express_words.specs.Memory.{LacksRoom, NotesIfRoom, unnoted, lending, closing};

use crate::NoMemory;
use crate::outside::MemoryConn;
use std::alloc::Global;
use std::marker::Model;

/// How a connection, or the place where connections come, is opened.
#[derive(Clone, Copy)]
pub enum Door {
    Listen,
    Accept,
    Dial,
}

/// A call that opened or should have opened something, with how many bytes of text it has and whether it failed;
/// or a close.
#[derive(Clone, Copy)]
pub enum Entry {
    Opened(Door, usize, bool),
    Closed,
}

/// Entries, the texts of all of them one after another, and the connections that were closed.
#[derive(Drop)]
pub struct NetLedger {
    entries: Vec<Entry>,
    texts: Vec<u8>,
    closed: Vec<MemoryConn>,
    whole: bool,
    room: usize,
    text_room: usize,
    lent: usize,
}

impl Model for NetLedger {
    ghost use Rattle.std.specs.Prelude.{◌≡◌, ◌+◌, ◌≤◌, length, vec_len, vec_capacity};
    ghost use Rattle.express_words.specs.Memory.{Ledger};

    ghost Value = { Ledger };

    ghost use Rattle.express_words.specs.Noted.{calls_of, text_bytes, closes};

    ghost view = { λ l. record { calls = calls_of l.entries.items l.texts.items l.closed.items; whole = l.whole; room = l.room; text_room = l.text_room; lent = l.lent; closed = l.closed.items } };

    ghost invariant = { λ l. (vec_len l.entries + l.room + l.lent ≤ vec_capacity l.entries) × (vec_len l.closed + l.room + l.lent ≤ vec_capacity l.closed) × (vec_len l.texts + l.text_room ≤ vec_capacity l.texts) × (text_bytes l.entries.items ≡ length l.texts.items) × (closes l.entries.items ≡ length l.closed.items) };
}

impl NetLedger {
    ghost use Rattle.express_words.specs.Noted.{call_of};

    /// Room for `calls` calls, and for `text_bytes` bytes of their texts.
    pub fn new(alloc: Global, calls: usize, text_bytes: usize) -> Result<NetLedger, NoMemory>
        ensures { IfOk result (λ l. l ≡ record { calls = []; whole = true; room = calls; text_room = text_bytes; lent = 0; closed = [] }) }
    {
        let Ok(entries) = Vec::with_capacity(alloc, calls) else {
            return Err(NoMemory);
        };
        let Ok(closed) = Vec::with_capacity(alloc, calls) else {
            return Err(NoMemory);
        };
        let Ok(texts) = Vec::with_capacity(alloc, text_bytes) else {
            return Err(NoMemory);
        };
        Ok(NetLedger {
            entries,
            texts,
            closed,
            whole: true,
            room: calls,
            text_room: text_bytes,
            lent: 0,
        })
    }

    /// Whether so many calls more, or a text of this length, don't fit.
    pub fn lacks_room(&self, calls: usize, text: &str) -> bool
        ensures { IsTrue result ↔ LacksRoom self.now calls (length text.now) }
    {
        self.room < calls || self.text_room < text.len()
    }

    /// Notes a call if there is room.
    pub fn note(&mut self, door: Door, text: &str, fails: bool)
        ensures { NotesIfRoom (call_of door text.now fails) (length text.now) self.old self.new }
    {
        if self.lacks_room(1, text) {
            self.whole = false;
            return;
        }
        let entry = Entry::Opened(door, text.len(), fails);
        let Ok(()) = self.entries.push(entry) else {
            unreachable!()
        };
        let Ok(()) = self.texts.extend_from_slice(text.as_bytes()) else {
            unreachable!()
        };
        self.room -= 1;
        self.text_room -= text.len();
    }

    /// Keeps room for the close of a connection.
    pub fn lend(&mut self)
        requires { 1 ≤ self.old.room }
        ensures { self.new ≡ lending self.old }
    {
        self.room -= 1;
        self.lent += 1;
    }

    /// Notes a close, in the room that was kept for it; one of a connection that no room was kept for isn't noted.
    pub fn close(&mut self, conn: MemoryConn)
        ensures closed { 1 ≤ self.old.lent → self.new ≡ closing conn self.old }
        ensures foreign { self.old.lent ≡ 0 → self.new ≡ unnoted self.old }
    {
        if self.lent == 0 {
            self.whole = false;
            return;
        }
        let Ok(()) = self.entries.push(Entry::Closed) else {
            unreachable!()
        };
        let Ok(()) = self.closed.push(conn) else {
            unreachable!()
        };
        self.lent -= 1;
    }

    /// The connections that were closed, in order.
    pub fn closed(&self) -> &[MemoryConn]
        ensures { result.now ≡ self.now.closed }
    {
        &self.closed
    }
}
