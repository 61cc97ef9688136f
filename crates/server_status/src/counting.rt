//! Connections that count what they do.
ghost use Rattle.std.specs.Prelude.{◌≡◌, [], Some, length};
ghost use Rattle.std.specs.Bool.{OnTrue, OnFalse};
ghost use Rattle.many_words.specs.Events.{Adds, Waited, Opened, Asked, Closed, Dropped, Unanswered, Sent, SentAgain};
ghost use Rattle.many_words.specs.Takes.{Gives};
ghost use Rattle.server_status.specs.Tallies.{tallied};

use crate::tally::Tally;
use many_wires::{CallLog, Wires};
use many_words::{Door, Taken};
use std::marker::Model;

/// Connections at places over other ones, whose calls it passes on as they are and counts. The place 0 is the
/// other server's.
#[derive(Drop)]
pub struct CountingWires<W: Wires> {
    wires: W,
    tally: Tally,
    calls: CallLog,
}

impl<W: Wires> Model for CountingWires<W> {
    ghost use Rattle.std.specs.Prelude.{◌≡◌};
    ghost use Rattle.server_status.specs.Views.{View};
    ghost use Rattle.server_status.specs.Tallies.{tallied};

    ghost Value = { View W };

    ghost view = { λ c. record { wires = c.wires; calls = c.calls } };

    ghost invariant = { λ c. c.tally ≡ tallied c.calls };
}

impl<W: Wires> CountingWires<W> {
    /// Over these connections, which nobody called yet.
    pub fn new(wires: W) -> CountingWires<W>
        ensures { result ≡ record { wires = wires; calls = [] } }
    {
        CountingWires {
            wires,
            tally: Tally::NONE,
            calls: CallLog::new(),
        }
    }

    /// The counts of all calls so far.
    pub fn tally(&self) -> Tally
        ensures { result ≡ tallied self.now.calls }
    {
        self.tally
    }
}

impl<W: Wires> Wires for CountingWires<W> {
    ghost told = { λ c. Some c.calls };

    fn wait(&mut self) -> u64
        ensures told { Adds (Some self.old.calls) (Some self.new.calls) (Waited result) }
        ensures below { Adds (W.told self.old.wires) (W.told self.new.wires) (Waited result) }
    {
        let now = self.wires.wait();
        self.tally.begin_round(now);
        self.calls.note_waited(now);
        now
    }

    fn open(&mut self, place: usize, door: Door) -> bool
        ensures opened { OnTrue result (Adds (Some self.old.calls) (Some self.new.calls) (Opened place door)) }
        ensures none { OnFalse result (Adds (Some self.old.calls) (Some self.new.calls) (Asked place door)) }
        ensures opened_below { OnTrue result (Adds (W.told self.old.wires) (W.told self.new.wires) (Opened place door)) }
        ensures none_below { OnFalse result (Adds (W.told self.old.wires) (W.told self.new.wires) (Asked place door)) }
    {
        if self.wires.open(place, door) {
            self.tally.connect(place);
            self.calls.note_opened(place, door);
            true
        } else {
            self.calls.note_asked(place, door);
            false
        }
    }

    fn take(&mut self, place: usize, door: Door, buf: &mut [u8]) -> Taken
        ensures length { length buf.new ≡ length buf.old }
        ensures gives { Gives (Some self.old.calls) (Some self.new.calls) place door result buf.new }
        ensures below { Gives (W.told self.old.wires) (W.told self.new.wires) place door result buf.new }
    {
        let taken = self.wires.take(place, door, buf);
        match taken {
            Taken::Bytes(count) => self.calls.note_came(place, &buf[..count]),
            Taken::Over => self.calls.note_ended(place),
            Taken::Pending => self.calls.note_blocked(place),
        }
        taken
    }

    fn close(&mut self, place: usize)
        ensures told { Adds (Some self.old.calls) (Some self.new.calls) (Closed place) }
        ensures below { Adds (W.told self.old.wires) (W.told self.new.wires) (Closed place) }
    {
        self.wires.close(place);
        self.tally.disconnect(place);
        self.calls.note_closed(place);
    }

    fn knocks(&mut self, door: Door) -> bool
        ensures told { self.new.calls ≡ self.old.calls }
        ensures below { W.told self.new.wires ≡ W.told self.old.wires }
    {
        self.wires.knocks(door)
    }

    fn drop_for_another(&mut self, place: usize)
        ensures told { Adds (Some self.old.calls) (Some self.new.calls) (Dropped place) }
        ensures below { Adds (W.told self.old.wires) (W.told self.new.wires) (Dropped place) }
    {
        self.wires.drop_for_another(place);
        self.tally.drop_one(place);
        self.calls.note_dropped(place);
    }

    fn leave(&mut self, place: usize)
        ensures told { Adds (Some self.old.calls) (Some self.new.calls) (Unanswered place) }
        ensures below { Adds (W.told self.old.wires) (W.told self.new.wires) (Unanswered place) }
    {
        self.wires.leave(place);
        self.tally.answer();
        self.calls.note_unanswered(place);
    }

    fn send(&mut self, place: usize, bytes: &[u8])
        ensures told { Adds (Some self.old.calls) (Some self.new.calls) (Sent place bytes.now) }
        ensures below { Adds (W.told self.old.wires) (W.told self.new.wires) (Sent place bytes.now) }
    {
        self.wires.send(place, bytes);
        self.tally.answer();
        self.calls.note_sent(place, bytes);
    }

    fn send_again(&mut self, place: usize, bytes: &[u8])
        ensures told { Adds (Some self.old.calls) (Some self.new.calls) (SentAgain place bytes.now) }
        ensures below { Adds (W.told self.old.wires) (W.told self.new.wires) (SentAgain place bytes.now) }
    {
        self.wires.send_again(place, bytes);
        self.calls.note_sent_again(place, bytes);
    }
}
