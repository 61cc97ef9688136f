//! What a run tells: what became of requests, what the journal has, and the frames that were noted.
ghost use Rattle.replay_world.specs.Messages.{HasNoOther};

use client_core::Outcome;
use express_words::{Closing, List, Openings, Refusal};

/// What a client is told of a request.
#[derive(Clone, Copy, Debug, PartialEq, Eq)]
pub enum Told {
    Done(Outcome),
    /// The client never got an own box of this number, and sent nothing.
    NoOwn(u32),
}

/// What became of a request, by its number at its client, counted from 0 in the order asked.
#[derive(Drop)]
pub struct OutcomeLine {
    pub client: u16,
    pub request: u32,
    pub outcome: Told,
    /// The bytes of a message; else none.
    pub message: List<u8>,
    pub ghost bare: { HasNoOther outcome message },
}

/// A command of the leader to the helper.
#[derive(Clone, Copy, Debug, PartialEq, Eq)]
pub enum Command {
    Register,
    Begin,
    Audit,
    Settle,
    Read,
    Retire,
}

/// What a command came to.
#[derive(Clone, Copy, Debug, PartialEq, Eq)]
pub enum Entry {
    /// The address got this box.
    Registered(u32),
    /// A write began over this many boxes.
    Began(u32),
    /// A write was audited: the leader's openings, the helper's, and the helper's closing.
    Audited(Openings, Openings, Closing),
    /// A write was accepted, or not; with the leader's closing.
    Settled(bool, Closing),
    /// The box was read.
    WasRead(u32),
    /// The box was read for the last time.
    Retired(u32),
    Refused(Command, Refusal),
}

/// A command that was carried out, for the request of a lane that has this serial.
#[derive(Clone, Copy, Debug, PartialEq, Eq)]
pub struct JournalLine {
    pub lane: u16,
    pub serial: u32,
    pub entry: Entry,
}

/// A frame of the pool that was noted for the output, by its number.
#[derive(Drop)]
pub struct Shown {
    pub number: u32,
    pub bytes: List<u8>,
}
