//! The outside of a server of many connections.
ghost use Rattle.std.specs.Prelude.{◌≡◌, ◌≤◌, ℕ, List, length, take, true, false, Option, OnOk, OnErr};
ghost use Rattle.std.specs.Bool.{OnTrue, OnFalse};
ghost use Rattle.many_words.specs.Events.{Event, Adds, Waited, Opened, Asked, Came, Ended, Blocked, Closed, Dropped, Logged, LogFailed, Unanswered, Sent, SentAgain};
ghost use Rattle.many_words.specs.Takes.{Gives};

use crate::door::Door;
use crate::entry::Entry;

/// A call failed.
#[derive(Clone, Copy, Debug, PartialEq, Eq)]
pub struct Failed;

/// What a connection has now.
#[derive(Clone, Copy, Debug, PartialEq, Eq)]
pub enum Taken {
    /// So many bytes, maybe none.
    Bytes(usize),
    /// It has ended or failed.
    Over,
    /// What was sent to it hasn't left yet, so that nothing was taken of it.
    Pending,
}

/// Connections at numbered places, a clock and a log.
pub trait Hub {
    /// All calls so far, where it tells.
    ghost told: { Self → Option (List Event) };

    /// Some of these calls, maybe none, led from the one to the other, and none of them failed.
    ghost goes_on: { Self → Self → Type 0 };

    /// A call of the log led from the one to the other, and failed.
    ghost fails: { Self → Self → Type 0 };

    /// Waits until something may be ready, or for a while, and gives the moment.
    fn wait(&mut self) -> u64
        ensures told { Adds (told self.old) (told self.new) (Waited result) }
        ensures goes_on { goes_on self.old self.new };

    /// Puts the next connection of a door at one of its places, if one waits there, or for the door [`Door::Dialled`] the
    /// one that the server dials, if it stands now. One that was at the place is closed for it. It never waits.
    fn open(&mut self, place: usize, door: Door) -> bool
        ensures opened { OnTrue result (Adds (told self.old) (told self.new) (Opened place door)) }
        ensures none { OnFalse result (Adds (told self.old) (told self.new) (Asked place door)) }
        ensures goes_on { goes_on self.old self.new };

    /// The bytes that came of the connection at a place of this door, up to the buffer's length, into its front. Of the one
    /// that the server dials they are taken also while what was sent to it is pending. It never waits.
    fn take(&mut self, place: usize, door: Door, buf: &mut [u8]) -> Taken
        ensures length { length buf.new ≡ length buf.old }
        ensures gives { Gives (told self.old) (told self.new) place door result buf.new }
        ensures goes_on { goes_on self.old self.new };

    /// Closes a connection.
    fn close(&mut self, place: usize)
        ensures told { Adds (told self.old) (told self.new) (Closed place) }
        ensures goes_on { goes_on self.old self.new };

    /// Whether a connection waits at a door.
    fn knocks(&mut self, door: Door) -> bool
        ensures told { told self.new ≡ told self.old }
        ensures goes_on { goes_on self.old self.new };

    /// Closes a connection for one that waits at the door.
    fn drop_for_another(&mut self, place: usize)
        ensures told { Adds (told self.old) (told self.new) (Dropped place) }
        ensures goes_on { goes_on self.old self.new };

    /// Writes the records of these frames together, in this order, and syncs them: at Ok a crash leaves them. A frame
    /// without a record writes nothing, and where none has one nothing is written or synced.
    fn log(&mut self, entries: &[Entry]) -> Result<(), Failed>
        ensures logged { OnOk result (Adds (told self.old) (told self.new) (Logged entries.now)) }
        ensures failed { OnErr result (Adds (told self.old) (told self.new) LogFailed) }
        ensures goes_on { OnOk result (goes_on self.old self.new) }
        ensures fails { OnErr result (fails self.old self.new) };

    /// The frame of this place was taken and isn't answered now.
    fn leave(&mut self, place: usize)
        ensures told { Adds (told self.old) (told self.new) (Unanswered place) }
        ensures goes_on { goes_on self.old self.new };

    /// Bytes that are sent to a connection as it takes them. It never waits.
    fn send(&mut self, place: usize, bytes: &[u8])
        ensures told { Adds (told self.old) (told self.new) (Sent place bytes.now) }
        ensures goes_on { goes_on self.old self.new };

    /// So too, of what was sent to another connection before, or was to be sent while none stood.
    fn send_again(&mut self, place: usize, bytes: &[u8])
        ensures told { Adds (told self.old) (told self.new) (SentAgain place bytes.now) }
        ensures goes_on { goes_on self.old self.new };

    /// None of them does.
    ghost goes_on_none: { (hub : Self) → goes_on hub hub };

    /// Some and then others do.
    ghost goes_on_then: { (old mid new : Self) → goes_on old mid → goes_on mid new → goes_on old new };
}
