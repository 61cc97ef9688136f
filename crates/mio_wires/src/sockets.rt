//! The connections of a server over the system's sockets, and its clock.
ghost use Rattle.std.specs.Prelude.{◌≡◌, ℕ, ◌≤◌, ◌<◌, ◌++◌, ◌∷◌, [], Some, length, true, false, IfOk, IfErr};
ghost use Rattle.std.specs.Bool.{OnTrue, OnFalse};
ghost use Rattle.many_words.specs.Events.{Adds, Waited, Opened, Asked, Closed, Dropped, Unanswered, Sent, SentAgain};
ghost use Rattle.many_words.specs.Takes.{Gives};
ghost use Rattle.many_words.specs.declared.hub.Taken.TheVariants.{Bytes, Over};
ghost use Rattle.mio_wires.specs.Openings.{NamesItsDoor, opened};
ghost use Rattle.mio_wires.specs.Slots.{taken_event, ChangesAt, ChangesOnly, Takes, Sends, Leaves, Comes};

use crate::doors::Doors;
use crate::fault::WiresFault;
use crate::settings::WiresSettings;
use crate::slot::Slot;
use crate::slots::{note_reports, send_at, take_at, vacant_slots};
use many_wires::{CallLog, Wires};
use many_words::{Door, Taken};
use mio::{Events, Poll};
use std::alloc::Global;
use std::marker::Model;
use std::net::{Net, SocketAddr};
use std::thread;
use std::time::{Clock, Duration, Instant};

/// So many milliseconds a wait lasts at most.
const WAIT: u64 = 50;

/// So many reports a wait takes at most; the others are the next one's.
const REPORTS: usize = 1024;

/// The system's connections at places, and its clock. It tells its calls.
#[derive(Drop)]
pub struct MioWires<R: Net + Clock + Copy> {
    rt: R,
    start: Instant,
    moment: u64,
    // Something is known to be ready.
    more: bool,
    poll: Poll,
    events: Events,
    doors: Doors,
    slots: Vec<Slot>,
    calls: CallLog,
}

impl<R: Net + Clock + Copy> Model for MioWires<R> {
    ghost use Rattle.mio_wires.specs.Slots.{Seen};

    ghost Value = { Seen };

    ghost view = { λ w. record {
      moment = w.moment;
      slots = w.slots.items;
      calls = w.calls;
    } };
}

impl<R: Net + Clock + Copy> MioWires<R> {
    /// Listens at the doors of the settings. This alone takes memory: for each place as much as may be
    /// pending of one answer, and for the other server's as much as of all that may be on their way to it.
    pub fn open(alloc: Global, rt: R, settings: &WiresSettings) -> Result<MioWires<R>, WiresFault>
        ensures opened { IfOk result (λ w. w ≡ opened settings.now) }
        ensures names { IfErr result (NamesItsDoor settings.now) }
    {
        let poll = Poll::new(&rt).map_err(WiresFault::of_system)?;
        let start = Instant::now(&rt).map_err(WiresFault::of_system)?;
        let slots = vacant_slots(alloc, settings.places, settings.outstanding)?;
        let events = Events::with_capacity(alloc, REPORTS)?;
        let doors = Doors::open(&rt, poll.registry(), settings)?;
        Ok(MioWires {
            rt,
            start,
            moment: 0,
            more: false,
            poll,
            events,
            doors,
            slots,
            calls: CallLog::new(),
        })
    }

    /// Where the server listens for those of a door, as where the settings left the port to the system.
    pub fn address(&self, door: Door) -> Option<SocketAddr> {
        self.doors.address(door)
    }

    // Milliseconds since the start, or the last moment where the system gives none.
    fn read_clock(&self) -> u64
        ensures { self.now.moment ≤ result }
    {
        match Instant::now(&self.rt) {
            Ok(now) => self.moment.max(millis_of(now.duration_since(self.start))),
            Err(_) => self.moment,
        }
    }

    // Waits until a socket is reported, at most for a while, and not at all where something is known to be
    // ready.
    fn await_reports(&mut self)
        ensures { self.new ≡ self.old }
    {
        let longest = Duration::from_millis(if self.more { 0 } else { WAIT });
        self.more = false;
        if self.poll.poll(&mut self.events, Some(longest)).is_err() {
            thread::sleep(&self.rt, Duration::from_millis(WAIT));
        }
    }

    // Puts the next connection of a door at a place, if one waits there.
    fn admit(&mut self, place: usize, door: Door) -> bool
        ensures opened { OnTrue result (ChangesAt (Comes door) place self.old.slots self.new.slots) }
        ensures none { OnFalse result (self.new.slots ≡ self.old.slots) }
        ensures rest { (self.new.moment ≡ self.old.moment) × (self.new.calls ≡ self.old.calls) }
    {
        if place >= self.slots.len() {
            return false;
        }
        let wire = self
            .doors
            .take(&self.rt, self.poll.registry(), door, place, self.moment);
        let Some(wire) = wire else {
            return false;
        };
        self.slots[place].connect(wire);
        self.more = true;
        true
    }

    // Notes what a take gave. Where bytes came more may follow.
    fn note_taken(&mut self, place: usize, taken: Taken, buf: &[u8])
        requires { (n : ℕ) → taken ≡ Bytes n → n ≤ length buf.now }
        ensures calls { self.new.calls ≡ self.old.calls ++ taken_event place taken buf.now ∷ [] }
        ensures rest { (self.new.moment ≡ self.old.moment) × (self.new.slots ≡ self.old.slots) }
    {
        match taken {
            Taken::Bytes(count) => {
                self.more = self.more || count > 0;
                self.calls.note_came(place, &buf[..count]);
            }
            Taken::Over => self.calls.note_ended(place),
            Taken::Pending => self.calls.note_blocked(place),
        }
    }
}

fn millis_of(time: Duration) -> u64 {
    time.as_secs()
        .saturating_mul(1000)
        .saturating_add(u64::from(time.subsec_millis()))
}

impl<R: Net + Clock + Copy> Wires for MioWires<R> {
    ghost told = { λ w. Some w.calls };

    fn wait(&mut self) -> u64
        ensures called { Adds (Some self.old.calls) (Some self.new.calls) (Waited result) }
        ensures later { self.old.moment ≤ result }
        ensures moment { self.new.moment ≡ result }
        ensures slots { self.new.slots ≡ self.old.slots }
    {
        self.await_reports();
        note_reports(&self.events, &mut self.doors, &mut self.slots);
        self.moment = self.read_clock();
        self.calls.note_waited(self.moment);
        self.moment
    }

    fn open(&mut self, place: usize, door: Door) -> bool
        ensures opened { OnTrue result (Adds (Some self.old.calls) (Some self.new.calls) (Opened place door)) }
        ensures none { OnFalse result (Adds (Some self.old.calls) (Some self.new.calls) (Asked place door)) }
        ensures came { OnTrue result (ChangesAt (Comes door) place self.old.slots self.new.slots) }
        ensures left { OnFalse result (self.new.slots ≡ self.old.slots) }
        ensures moment { self.new.moment ≡ self.old.moment }
    {
        let comes = self.admit(place, door);
        if comes {
            self.calls.note_opened(place, door);
        } else {
            self.calls.note_asked(place, door);
        }
        comes
    }

    fn take(&mut self, place: usize, door: Door, buf: &mut [u8]) -> Taken
        ensures length { length buf.new ≡ length buf.old }
        ensures gives { Gives (Some self.old.calls) (Some self.new.calls) place door result buf.new }
        ensures takes { ChangesOnly (Takes door result buf.new) place self.old.slots self.new.slots }
        ensures nowhere { length self.old.slots ≤ place → result ≡ Over }
        ensures moment { self.new.moment ≡ self.old.moment }
    {
        let taken = take_at(&mut self.slots, place, door, buf);
        self.note_taken(place, taken, buf);
        taken
    }

    fn close(&mut self, place: usize)
        ensures called { Adds (Some self.old.calls) (Some self.new.calls) (Closed place) }
        ensures closed { ChangesOnly Leaves place self.old.slots self.new.slots }
        ensures moment { self.new.moment ≡ self.old.moment }
    {
        if place < self.slots.len() {
            self.slots[place].close();
        }
        self.more = true;
        self.calls.note_closed(place);
    }

    fn knocks(&mut self, door: Door) -> bool
        ensures { self.new ≡ self.old }
    {
        self.doors.knocks(door, self.moment)
    }

    fn drop_for_another(&mut self, place: usize)
        ensures called { Adds (Some self.old.calls) (Some self.new.calls) (Dropped place) }
        ensures dropped { ChangesOnly Leaves place self.old.slots self.new.slots }
        ensures moment { self.new.moment ≡ self.old.moment }
    {
        if place < self.slots.len() {
            self.slots[place].vacate();
        }
        self.more = true;
        self.calls.note_dropped(place);
    }

    fn leave(&mut self, place: usize)
        ensures called { Adds (Some self.old.calls) (Some self.new.calls) (Unanswered place) }
        ensures slots { self.new.slots ≡ self.old.slots }
        ensures moment { self.new.moment ≡ self.old.moment }
    {
        self.more = true;
        self.calls.note_unanswered(place);
    }

    fn send(&mut self, place: usize, bytes: &[u8])
        ensures called { Adds (Some self.old.calls) (Some self.new.calls) (Sent place bytes.now) }
        ensures sent { ChangesOnly (Sends bytes.now) place self.old.slots self.new.slots }
        ensures moment { self.new.moment ≡ self.old.moment }
    {
        send_at(&mut self.slots, place, bytes);
        self.more = true;
        self.calls.note_sent(place, bytes);
    }

    fn send_again(&mut self, place: usize, bytes: &[u8])
        ensures called { Adds (Some self.old.calls) (Some self.new.calls) (SentAgain place bytes.now) }
        ensures sent { ChangesOnly (Sends bytes.now) place self.old.slots self.new.slots }
        ensures moment { self.new.moment ≡ self.old.moment }
    {
        send_at(&mut self.slots, place, bytes);
        self.more = true;
        self.calls.note_sent_again(place, bytes);
    }
}
