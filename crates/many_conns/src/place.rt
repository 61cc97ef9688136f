//! A place for a connection.
ghost use Rattle.std.specs.Prelude.{◌≡◌, ◌+◌, ◌≤◌, ◌++◌, length, take, drop, IfOk, IfSome, OnSome, option_map, is_some, vec_capacity, true, false};
ghost use Rattle.many_conns.specs.Places.{empty_place, new_place, vacated, is_free, asked, with_bytes, at_end, blocked, is_heard, frame_at, taken, is_over, is_late, finished, waited, Looks, is_linked, is_quiet, patience_for, waits_for, waiting_for, released, replied};

use crate::answering::Answering;
use crate::patience::Patience;
use crate::said::Key;
use many_words::{Door, Hub, ROOM, Taken, push_all};
use std::alloc::{AllocError, Global};
use std::marker::Model;

/// So many bytes are taken at a time at most.
const PIECE: usize = 4096;

/// A place for a connection, with what came of it and wasn't taken.
#[derive(Drop)]
pub struct Place {
    door: Door,
    live: bool,
    held: Vec<u8>,
    ended: bool,
    finished: bool,
    pending: bool,
    waits: Option<Key>,
    since: u64,
    due: bool,
    asked: bool,
}

impl Model for Place {
    ghost use Rattle.std.specs.Prelude.{◌≤◌, length, vec_capacity};
    ghost use Rattle.many_conns.specs.Places.{Place as State};

    ghost Value = { State };

    ghost view = { λ p. record {
      door = p.door;
      live = p.live;
      held = p.held.items;
      ended = p.ended;
      finished = p.finished;
      pending = p.pending;
      waits = p.waits;
      since = p.since;
      due = p.due;
      asked = p.asked;
    } };

    ghost invariant = { λ p. (16384 ≤ vec_capacity p.held) × (length p.held.items ≤ 16384) };
}

// Removes bytes at the front.
fn remove_front(held: &mut Vec<u8>, count: usize)
    requires { count ≤ length held.old.items }
    ensures held { held.new.items ≡ drop count held.old.items }
    ensures capacity { vec_capacity held.new ≡ vec_capacity held.old }
{
    held.rotate_left(count);
    let left = held.len() - count;
    held.truncate(left);
}

impl Place {
    /// No connection, at a place of this door. This alone takes memory.
    pub fn empty(alloc: Global, door: Door) -> Result<Place, AllocError>
        ensures { IfOk result (λ p. p ≡ empty_place door) }
    {
        Ok(Place {
            door,
            live: false,
            held: Vec::with_capacity(alloc, ROOM)?,
            ended: false,
            finished: false,
            pending: false,
            waits: None,
            since: 0,
            due: false,
            asked: true,
        })
    }

    /// A connection comes.
    pub fn open(&mut self, now: u64)
        ensures { self.new ≡ new_place self.old.door now }
    {
        self.close();
        self.live = true;
        self.since = now;
        self.due = true;
    }

    /// The connection goes.
    pub fn close(&mut self)
        ensures { self.new ≡ empty_place self.old.door }
    {
        self.live = false;
        self.held.clear();
        self.ended = false;
        self.finished = false;
        self.pending = false;
        self.waits = None;
        self.since = 0;
        self.due = false;
        self.asked = true;
    }

    /// The connection goes for another one.
    pub fn vacate(&mut self)
        ensures { self.new ≡ vacated self.old }
    {
        self.close();
        self.asked = false;
    }

    /// The door has no connection for it.
    pub fn ask(&mut self)
        ensures { self.new ≡ asked self.old }
    {
        self.asked = true;
    }

    /// The door that its connections come through.
    pub fn door(&self) -> Door
        ensures { result ≡ self.now.door }
    {
        self.door
    }

    /// Whether a connection may come to it: none is there, or its door is the other server's.
    pub fn is_free(&self) -> bool
        ensures { result ≡ is_free self.now }
    {
        !self.live || self.door.is_link()
    }

    pub fn is_live(&self) -> bool
        ensures { result ≡ self.now.live }
    {
        self.live
    }

    /// Whether its door was asked since the last wait: where a connection is, whether it came since then.
    pub fn is_asked(&self) -> bool
        ensures { result ≡ self.now.asked }
    {
        self.asked
    }

    /// Since when it has been waited for.
    pub fn since(&self) -> u64
        ensures { result ≡ self.now.since }
    {
        self.since
    }

    /// Looks at the connection: takes what came of it, as far as there is room.
    pub fn look<H: Hub>(&mut self, hub: &mut H, place: usize) -> Taken
        ensures looks { Looks (H.told hub.old) (H.told hub.new) place result self.old self.new }
        ensures goes_on { H.goes_on hub.old hub.new }
    {
        let mut piece = [0u8; PIECE];
        let space = (ROOM - self.held.len()).min(PIECE);
        let seen = hub.take(place, self.door, &mut piece[..space]);
        match seen {
            Taken::Bytes(count) => {
                push_all(&mut self.held, &piece[..count]);
                self.pending = false;
            }
            Taken::Over => {
                self.ended = true;
                self.pending = false;
            }
            Taken::Pending => self.pending = true,
        }
        self.due = false;
        seen
    }

    /// The server has waited.
    pub fn wait(&mut self)
        ensures { self.new ≡ waited self.old }
    {
        self.due = true;
        self.asked = false;
    }

    // Whether a frame may be taken of it.
    fn is_heard(&self) -> bool
        ensures { result ≡ is_heard self.now }
    {
        self.live
            && !self.finished
            && (self.door.is_dialled() || !self.pending)
            && self.waits.is_none()
    }

    /// The bytes that came of it, if a frame may be taken of it.
    pub fn heard(&self) -> Option<&[u8]>
        ensures held { IfSome result (λ held. held.now ≡ self.now.held) }
        ensures heard { is_some result ≡ is_heard self.now }
        ensures room { IfSome result (λ held. length held.now ≤ 16384) }
    {
        if self.is_heard() {
            Some(&self.held)
        } else {
            None
        }
    }

    /// The whole frame that it has first. While its output is pending, unless the server dialled it, or it waits for an
    /// answer, it has none.
    pub fn frame<S: Answering>(&self, server: &S) -> Option<&[u8]>
        ensures frame { option_map (λ f. f.now) result ≡ frame_at S.rules.whole self.now }
        ensures room { IfSome result (λ f. length f.now ≤ 16384) }
    {
        if !self.is_heard() {
            return None;
        }
        match server.whole(self.door, &self.held) {
            Some(count) => Some(&self.held[..count]),
            None => None,
        }
    }

    /// Whether its time is over.
    pub fn is_over<S: Answering>(&self, server: &S, patience: Patience, now: u64) -> bool
        ensures { result ≡ is_over S.rules.whole patience now self.now }
    {
        ((self.ended || self.finished) && self.is_quiet(server)) || self.is_late(patience, now)
    }

    // Whether it has been waited for too long.
    fn is_late(&self, patience: Patience, now: u64) -> bool
        ensures { result ≡ is_late patience now self.now }
    {
        !self.door.is_peer() && self.patience_for(patience) <= now.saturating_sub(self.since)
    }

    // Whether nothing of it is under way.
    fn is_quiet<S: Answering>(&self, server: &S) -> bool
        ensures { result ≡ is_quiet S.rules.whole self.now }
    {
        !self.pending && self.waits.is_none() && self.frame(server).is_none()
    }

    // For how long it is waited for.
    fn patience_for(&self, patience: Patience) -> u64
        ensures { result ≡ patience_for patience self.now.waits }
    {
        match self.waits {
            None => patience.frame,
            Some(_) => patience.answer,
        }
    }

    /// Whether it waits for this.
    pub fn waits_for(&self, key: Key) -> bool
        ensures { result ≡ waits_for key self.now }
    {
        match self.waits {
            Some(other) => {
                self.live
                    && !self.door.is_dialled()
                    && other.lane == key.lane
                    && other.serial == key.serial
            }
            None => false,
        }
    }

    /// Whether it is the connection that the server dialled.
    pub fn is_linked(&self) -> bool
        ensures { result ≡ is_linked self.now }
    {
        self.live && self.door.is_dialled()
    }

    /// It waits for this from now on.
    pub fn wait_for(&mut self, key: Key)
        ensures { self.new ≡ waiting_for key self.old }
    {
        self.waits = Some(key);
    }

    /// Another waits for this now.
    pub fn release(&mut self, key: Key)
        ensures { self.new ≡ released key self.old }
    {
        if self.waits_for(key) {
            self.finished = true;
            self.waits = None;
        }
    }

    /// Its last frame is answered.
    pub fn finish(&mut self)
        ensures { self.new ≡ finished self.old }
    {
        self.finished = true;
    }

    /// It is sent the answer that it waited for.
    pub fn reply(&mut self, now: u64)
        ensures { self.new ≡ replied now self.old }
    {
        self.waits = None;
        self.pending = true;
        self.since = now;
    }

    /// Its first frame, of so many bytes, is taken.
    pub fn take(&mut self, now: u64, count: usize)
        ensures { self.new ≡ taken now count self.old }
    {
        let count = count.min(self.held.len());
        remove_front(&mut self.held, count);
        self.since = now;
        self.pending = true;
    }
}
