//! Connections at places, and a clock: a hub without its log.
ghost use Rattle.std.specs.Prelude.{◌≡◌, ℕ, List, length, Option};
ghost use Rattle.std.specs.Bool.{OnTrue, OnFalse};
ghost use Rattle.many_words.specs.Events.{Event, Adds, Waited, Opened, Asked, Closed, Dropped, Unanswered, Sent, SentAgain};
ghost use Rattle.many_words.specs.Takes.{Gives};

use many_words::{Door, Taken};

/// Connections at numbered places, and a clock: what a [`many_words::Hub`] has beside its log, with the same calls.
pub trait Wires {
    /// All calls so far, where it tells.
    ghost told: { Self → Option (List Event) };

    /// Waits until something may be ready, or for a while, and gives the moment, in milliseconds.
    fn wait(&mut self) -> u64
        ensures { Adds (told self.old) (told self.new) (Waited result) };

    /// Puts the next connection of a door at one of its places, if one waits there, or for the door [`Door::Dialled`] the
    /// one that the server dials, if it stands now. One that was at the place is closed for it. It never waits.
    fn open(&mut self, place: usize, door: Door) -> bool
        ensures opened { OnTrue result (Adds (told self.old) (told self.new) (Opened place door)) }
        ensures none { OnFalse result (Adds (told self.old) (told self.new) (Asked place door)) };

    /// The bytes that came of the connection at a place of this door, up to the buffer's length, into its front. Of the one
    /// that the server dials they are taken also while what was sent to it is pending. It never waits.
    fn take(&mut self, place: usize, door: Door, buf: &mut [u8]) -> Taken
        ensures length { length buf.new ≡ length buf.old }
        ensures gives { Gives (told self.old) (told self.new) place door result buf.new };

    /// Closes a connection.
    fn close(&mut self, place: usize)
        ensures { Adds (told self.old) (told self.new) (Closed place) };

    /// Whether a connection waits at a door.
    fn knocks(&mut self, door: Door) -> bool
        ensures { told self.new ≡ told self.old };

    /// Closes a connection for one that waits at the door.
    fn drop_for_another(&mut self, place: usize)
        ensures { Adds (told self.old) (told self.new) (Dropped place) };

    /// The frame of this place was taken and isn't answered now.
    fn leave(&mut self, place: usize)
        ensures { Adds (told self.old) (told self.new) (Unanswered place) };

    /// Bytes that are sent to a connection as it takes them. It never waits.
    fn send(&mut self, place: usize, bytes: &[u8])
        ensures { Adds (told self.old) (told self.new) (Sent place bytes.now) };

    /// So too, of what was sent to another connection before, or was to be sent while none stood.
    fn send_again(&mut self, place: usize, bytes: &[u8])
        ensures { Adds (told self.old) (told self.new) (SentAgain place bytes.now) };
}
