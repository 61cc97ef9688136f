//! The calls on connections at places, which only proofs read.
ghost use Rattle.std.specs.Prelude.{◌≡◌, [], ◌∷◌, ◌++◌};
ghost use Rattle.many_words.specs.Events.{Waited, Opened, Asked, Came, Ended, Blocked, Closed, Dropped, Logged, LogFailed, Unanswered, Sent, SentAgain};
ghost use Rattle.many_words.specs.Memory.{event_of};

use crate::history::{History, noted_bytes};
use many_words::{Door, Entry, Kind};
use std::marker::Model;

/// All calls so far. It takes no memory, and its calls do nothing at run time.
#[derive(Drop)]
pub struct CallLog {
    calls: History<Call>,
}

impl Model for CallLog {
    ghost use Rattle.std.specs.Prelude.{List};
    ghost use Rattle.many_words.specs.Events.{Event};

    ghost Value = { List Event };

    ghost view = { λ log. log.calls };
}

// One call: its kind, the place or for a wait the moment, its bytes, and what went to the log.
#[derive(Drop)]
struct Call {
    kind: Kind,
    number: u64,
    bytes: History<u8>,
    entries: History<NotedEntry>,
}

impl Model for Call {
    ghost use Rattle.many_words.specs.Events.{Event};
    ghost use Rattle.many_words.specs.Memory.{event_of};

    ghost Value = { Event };

    ghost view = { λ call. event_of call.kind call.number call.bytes call.entries };
}

// An entry of the log.
#[derive(Drop)]
struct NotedEntry {
    place: usize,
    door: Door,
    frame: History<u8>,
    noted: Option<History<u8>>,
}

impl Model for NotedEntry {
    ghost use Rattle.many_words.specs.Events.{Entry};

    ghost Value = { Entry };

    ghost view = { λ e. record { place = e.place; door = e.door; frame = e.frame; noted = e.noted } };
}

fn noted_entry(entry: &Entry) -> NotedEntry
    ensures { result ≡ entry.now }
{
    NotedEntry {
        place: entry.place(),
        door: entry.door(),
        frame: noted_bytes(entry.frame()),
        noted: noted_record(entry),
    }
}

fn noted_record(entry: &Entry) -> Option<History<u8>>
    ensures { result ≡ entry.now.noted }
{
    match entry.record() {
        Some(bytes) => Some(noted_bytes(bytes)),
        None => None,
    }
}

fn noted_entries(entries: &[Entry]) -> History<NotedEntry>
    ensures { result ≡ entries.now }
{
    let mut noted = History::new();
    for entry in entries {
        noted.note(&noted_entry(entry));
    }
    noted
}

impl CallLog {
    /// No call was made yet.
    pub fn new() -> CallLog
        ensures { result ≡ [] }
    {
        CallLog {
            calls: History::new(),
        }
    }

    fn note(&mut self, kind: Kind, number: u64, bytes: &[u8], entries: &[Entry])
        ensures { self.new ≡ self.old ++ event_of kind number bytes.now entries.now ∷ [] }
    {
        self.calls.note(&Call {
            kind,
            number,
            bytes: noted_bytes(bytes),
            entries: noted_entries(entries),
        });
    }

    /// A wait gave this moment.
    pub fn note_waited(&mut self, now: u64)
        ensures { self.new ≡ self.old ++ Waited now ∷ [] }
    {
        self.note(Kind::Waited, now, &[], &[]);
    }

    /// A connection of this door was opened at a place.
    pub fn note_opened(&mut self, place: usize, door: Door)
        ensures { self.new ≡ self.old ++ Opened place door ∷ [] }
    {
        self.note(Kind::Opened(door), place as u64, &[], &[]);
    }

    /// A door was asked for a connection at a place, and had none.
    pub fn note_asked(&mut self, place: usize, door: Door)
        ensures { self.new ≡ self.old ++ Asked place door ∷ [] }
    {
        self.note(Kind::Asked(door), place as u64, &[], &[]);
    }

    /// These bytes came of a connection.
    pub fn note_came(&mut self, place: usize, bytes: &[u8])
        ensures { self.new ≡ self.old ++ Came place bytes.now ∷ [] }
    {
        self.note(Kind::Came, place as u64, bytes, &[]);
    }

    /// A connection had no more bytes.
    pub fn note_ended(&mut self, place: usize)
        ensures { self.new ≡ self.old ++ Ended place ∷ [] }
    {
        self.note(Kind::Ended, place as u64, &[], &[]);
    }

    /// Nothing was taken of a connection, since what was sent to it hasn't left yet.
    pub fn note_blocked(&mut self, place: usize)
        ensures { self.new ≡ self.old ++ Blocked place ∷ [] }
    {
        self.note(Kind::Blocked, place as u64, &[], &[]);
    }

    /// A connection was closed.
    pub fn note_closed(&mut self, place: usize)
        ensures { self.new ≡ self.old ++ Closed place ∷ [] }
    {
        self.note(Kind::Closed, place as u64, &[], &[]);
    }

    /// A connection was closed for one that waited at the door.
    pub fn note_dropped(&mut self, place: usize)
        ensures { self.new ≡ self.old ++ Dropped place ∷ [] }
    {
        self.note(Kind::Dropped, place as u64, &[], &[]);
    }

    /// The records of these frames went to the log.
    pub fn note_logged(&mut self, entries: &[Entry])
        ensures { self.new ≡ self.old ++ Logged entries.now ∷ [] }
    {
        self.note(Kind::Logged, 0, &[], entries);
    }

    /// The log failed.
    pub fn note_log_failed(&mut self)
        ensures { self.new ≡ self.old ++ LogFailed ∷ [] }
    {
        self.note(Kind::LogFailed, 0, &[], &[]);
    }

    /// The frame of a place was taken and isn't answered now.
    pub fn note_unanswered(&mut self, place: usize)
        ensures { self.new ≡ self.old ++ Unanswered place ∷ [] }
    {
        self.note(Kind::Unanswered, place as u64, &[], &[]);
    }

    /// These bytes were sent to a connection.
    pub fn note_sent(&mut self, place: usize, bytes: &[u8])
        ensures { self.new ≡ self.old ++ Sent place bytes.now ∷ [] }
    {
        self.note(Kind::Sent, place as u64, bytes, &[]);
    }

    /// These bytes were sent to a connection, which were sent to another before, or were to be while none stood.
    pub fn note_sent_again(&mut self, place: usize, bytes: &[u8])
        ensures { self.new ≡ self.old ++ SentAgain place bytes.now ∷ [] }
    {
        self.note(Kind::SentAgain, place as u64, bytes, &[]);
    }
}
