//! A hub in memory.
ghost use Rattle.std.specs.Prelude.{◌≡◌, ◌≤◌, ℕ, List, length, take, false, Option, Some, OnOk, OnErr, IfOk};
ghost use Rattle.std.specs.Bool.{OnTrue, OnFalse};
ghost use Rattle.many_words.specs.Events.{Adds};
ghost use Rattle.many_words.specs.Doors.{is_dialled};
ghost use Rattle.many_words.specs.Memory.{told_of, event_of, event_in};

use crate::door::Door;
use crate::entry::Entry;
use crate::hub::{Failed, Hub, Taken};
use std::alloc::{AllocError, Global};

/// What was called.
#[derive(Clone, Copy, Debug, PartialEq, Eq)]
pub enum Kind {
    Waited,
    Opened(Door),
    Asked(Door),
    Came,
    Ended,
    Blocked,
    Closed,
    Dropped,
    Logged,
    LogFailed,
    Unanswered,
    Sent,
    SentAgain,
}

/// One call: its kind, the place or for a wait the moment, its bytes, and what went to the log.
#[derive(Drop)]
pub struct Note {
    pub kind: Kind,
    pub number: usize,
    pub bytes: Vec<u8>,
    pub entries: Vec<Entry>,
}

/// One connection to come: the door that it comes through, its bytes, and how many of them come in each round. It ends behind them, if it ends. What is
/// sent to it is pending for so many looks.
#[derive(Drop)]
pub struct Script {
    pub door: Door,
    pub bytes: Vec<u8>,
    pub pace: usize,
    pub ends: bool,
    pub slow: usize,
}

// A connection that came, how many of its bytes were given, and for how many looks its output is pending.
#[derive(Drop)]
struct Given {
    place: usize,
    script: Script,
    count: usize,
    pending: usize,
}

/// Connections that come in order, each at the first place that its door is asked for; a clock that goes on by one at each wait;
/// and a log of which one write may fail. It tells its calls for as long as each of them finds memory.
#[derive(Drop)]
pub struct MemoryHub {
    alloc: Global,
    coming: Vec<Script>,
    given: Vec<Given>,
    clock: u32,
    writes: u64,
    failing: u64,
    notes: Vec<Note>,
    whole: bool,
}

impl MemoryHub {
    /// Connections that come in this order, and the number of the write to the log that fails, from 1; 0 where none does.
    pub fn new(alloc: Global, coming: Vec<Script>, failing: u64) -> MemoryHub {
        MemoryHub {
            alloc,
            coming,
            given: Vec::new(alloc),
            clock: 0,
            writes: 0,
            failing,
            notes: Vec::new(alloc),
            whole: true,
        }
    }

    /// The calls so far, if all of them were noted.
    pub fn notes(&self) -> Option<&[Note]> {
        if self.whole { Some(&self.notes) } else { None }
    }

    fn note(&mut self, kind: Kind, number: usize, bytes: &[u8], entries: &[Entry])
        ensures told { Adds (told_of self.old.whole self.old.notes.items) (told_of self.new.whole self.new.notes.items)
            (event_of kind number bytes.now entries.now) }
    {
        match note_of(self.alloc, kind, number, bytes, entries) {
            Ok(note) => {
                if self.notes.push(note).is_err() {
                    self.whole = false;
                }
            }
            Err(_) => self.whole = false,
        }
    }

    // What is sent to the connection at a place is pending for a while.
    fn hold_up(&mut self, place: usize)
        ensures notes { (self.new.notes ≡ self.old.notes) }
        ensures whole { (self.new.whole ≡ self.old.whole) }
    {
        for given in self.given.iter_mut() {
            if given.place == place {
                given.pending = given.script.slow;
            }
        }
    }

    // The next connection of a door comes to a place, if there is one and memory for it.
    fn come(&mut self, place: usize, door: Door) -> bool
        ensures notes { (self.new.notes ≡ self.old.notes) }
        ensures whole { (self.new.whole ≡ self.old.whole) }
    {
        let Some(index) = self.coming.iter().position(|script| script.door == door) else {
            return false;
        };
        let given = Given {
            place,
            script: self.coming.remove(index),
            count: 0,
            pending: 0,
        };
        self.given.retain(|given| given.place != place);
        self.given.push(given).is_ok()
    }

    // The next bytes of the connection at a place of a door, into the front of a buffer.
    fn give(&mut self, place: usize, door: Door, buf: &mut [u8]) -> Taken
        ensures length { length buf.new ≡ length buf.old }
        ensures bound { (n : ℕ) → result ≡ Taken.Bytes n → n ≤ length buf.new }
        ensures pending { result ≡ Taken.Pending → is_dialled door ≡ false }
        ensures notes { (self.new.notes ≡ self.old.notes) }
        ensures whole { (self.new.whole ≡ self.old.whole) }
    {
        for given in self.given.iter_mut() {
            if given.place == place {
                return next_of(given, door, buf);
            }
        }
        Taken::Over
    }
}

fn copy_of(alloc: Global, entries: &[Entry]) -> Result<Vec<Entry>, AllocError>
    ensures { IfOk result (λ copy. copy.items ≡ entries.now) }
{
    let mut copy = Vec::new(alloc);
    for entry in entries {
        copy.push(entry.copy(alloc)?)?;
    }
    Ok(copy)
}

fn note_of(
    alloc: Global,
    kind: Kind,
    number: usize,
    bytes: &[u8],
    entries: &[Entry],
) -> Result<Note, AllocError>
    ensures { IfOk result (λ note. event_in note ≡ event_of kind number bytes.now entries.now) }
{
    Ok(Note {
        kind,
        number,
        bytes: Vec::from_slice(alloc, bytes)?,
        entries: copy_of(alloc, entries)?,
    })
}

fn next_of(given: &mut Given, door: Door, buf: &mut [u8]) -> Taken
    ensures length { length buf.new ≡ length buf.old }
    ensures bound { (n : ℕ) → result ≡ Taken.Bytes n → n ≤ length buf.new }
    ensures pending { result ≡ Taken.Pending → is_dialled door ≡ false }
{
    if given.pending > 0 && !door.is_dialled() {
        given.pending -= 1;
        return Taken::Pending;
    }
    let start = given.count;
    let left = given.script.bytes.len().saturating_sub(start);
    if left == 0 && given.script.ends {
        return Taken::Over;
    }
    let count = left.min(given.script.pace).min(buf.len());
    if count == 0 {
        return Taken::Bytes(0);
    }
    copy_front(&given.script.bytes[start..start + count], buf);
    given.count = start + count;
    Taken::Bytes(count)
}

fn copy_front(bytes: &[u8], buf: &mut [u8])
    requires { length bytes.now ≤ length buf.old }
    ensures { length buf.new ≡ length buf.old }
{
    buf[..bytes.len()].copy_from_slice(bytes);
}

impl Hub for MemoryHub {
    ghost told = { λ h. told_of h.whole h.notes.items };

    // There is nothing but its history.
    ghost goes_on = { λ old new. Unit {0} };

    ghost fails = { λ old new. Unit {0} };

    ghost goes_on_none = { λ hub. tt };

    ghost goes_on_then = { λ old mid new one two. tt };

    fn wait(&mut self) -> u64 {
        self.clock = self.clock.saturating_add(1);
        let now = self.clock;
        self.note(Kind::Waited, now as usize, &[], &[]);
        u64::from(now)
    }

    fn open(&mut self, place: usize, door: Door) -> bool {
        let comes = self.come(place, door);
        let kind = if comes {
            Kind::Opened(door)
        } else {
            Kind::Asked(door)
        };
        self.note(kind, place, &[], &[]);
        comes
    }

    fn take(&mut self, place: usize, door: Door, buf: &mut [u8]) -> Taken {
        let taken = self.give(place, door, buf);
        match taken {
            Taken::Bytes(count) => self.note(Kind::Came, place, &buf[..count], &[]),
            Taken::Over => self.note(Kind::Ended, place, &[], &[]),
            Taken::Pending => self.note(Kind::Blocked, place, &[], &[]),
        }
        taken
    }

    fn close(&mut self, place: usize) {
        self.given.retain(|given| given.place != place);
        self.note(Kind::Closed, place, &[], &[]);
    }

    fn knocks(&mut self, door: Door) -> bool {
        self.coming.iter().any(|script| script.door == door)
    }

    fn drop_for_another(&mut self, place: usize) {
        self.given.retain(|given| given.place != place);
        self.note(Kind::Dropped, place, &[], &[]);
    }

    fn log(&mut self, entries: &[Entry]) -> Result<(), Failed> {
        if entries.iter().any(|entry| entry.record().is_some()) {
            self.writes = self.writes.saturating_add(1);
            if self.writes == self.failing {
                self.note(Kind::LogFailed, 0, &[], &[]);
                return Err(Failed);
            }
        }
        self.note(Kind::Logged, 0, &[], entries);
        Ok(())
    }

    fn leave(&mut self, place: usize) {
        self.note(Kind::Unanswered, place, &[], &[]);
    }

    fn send(&mut self, place: usize, bytes: &[u8]) {
        self.hold_up(place);
        self.note(Kind::Sent, place, bytes, &[]);
    }

    fn send_again(&mut self, place: usize, bytes: &[u8]) {
        self.hold_up(place);
        self.note(Kind::SentAgain, place, bytes, &[]);
    }
}
