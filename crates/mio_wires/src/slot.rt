//! A place for a connection.
ghost use Rattle.std.specs.Prelude.{◌≡◌, ◌++◌, ◌≤◌, ℕ, [], None, true, false, length, drop, IfOk, vec_capacity};
ghost use Rattle.many_words.specs.Doors.{is_dialled};
ghost use Rattle.many_words.specs.declared.hub.Taken.TheVariants.{Bytes, Pending};
ghost use Rattle.mio_wires.specs.Slots.{Flushes, Reads, Takes, Sends, is_lost, new_stream, fresh, vacant, connected};

use crate::wire::{Halt, Wire};
use many_words::{Door, Taken, push_all};
use std::alloc::{AllocError, Global};
use std::marker::Model;

/// So many writes follow each other at once.
const MOST_WRITES: u32 = 4;

/// A place for a connection, with room for what is to be written.
#[derive(Drop)]
pub struct Slot {
    wire: Option<Wire>,
    room: usize,
    pending: Vec<u8>,
    // There was no room for what was to be sent.
    cut: bool,
    // A read, or a write, may find something.
    readable: bool,
    writable: bool,
}

impl Model for Slot {
    ghost use Rattle.std.specs.Prelude.{◌≤◌, is_some, vec_capacity};
    ghost use Rattle.mio_wires.specs.Slots.{Slot as State, door_of, given_of, written_of, ended_of, failed_of};

    ghost Value = { State };

    ghost view = { λ s. record {
      room = s.room;
      live = is_some s.wire;
      door = door_of s.wire;
      given = given_of s.wire;
      written = written_of s.wire;
      pending = s.pending.items;
      ended = ended_of s.wire;
      failed = failed_of s.wire;
      cut = s.cut;
    } };

    ghost invariant = { λ s. s.room ≤ vec_capacity s.pending };
}

// Drops so many bytes at the front.
fn remove_front(held: &mut Vec<u8>, count: usize)
    requires { count ≤ length held.old.items }
    ensures held { held.new.items ≡ drop count held.old.items }
    ensures capacity { vec_capacity held.new ≡ vec_capacity held.old }
{
    held.rotate_left(count);
    let left = held.len() - count;
    held.truncate(left);
}

impl Slot {
    /// A place without a connection. This alone takes memory: as much as may be pending.
    pub fn vacant(alloc: Global, room: usize) -> Result<Slot, AllocError>
        ensures { IfOk result (λ slot. slot ≡ vacant room) }
    {
        Ok(Slot {
            wire: None,
            room,
            pending: Vec::with_capacity(alloc, room)?,
            cut: false,
            readable: false,
            writable: false,
        })
    }

    // What is there goes at once.
    fn put(&mut self, wire: Option<Wire>)
        ensures { self.new ≡ fresh self.old.room wire }
    {
        self.wire = wire;
        self.pending.clear();
        self.cut = false;
        self.readable = true;
        self.writable = true;
    }

    /// A connection takes the place; the one that was there is dropped.
    pub fn connect(&mut self, wire: Wire)
        requires { wire ≡ new_stream wire.door }
        ensures { self.new ≡ connected self.old.room wire.door }
    {
        self.put(Some(wire));
    }

    /// Drops the connection.
    pub fn vacate(&mut self)
        ensures { self.new ≡ vacant self.old.room }
    {
        self.put(None);
    }

    /// Closes the connection: what the stream takes now is still written.
    pub fn close(&mut self)
        ensures { self.new ≡ vacant self.old.room }
    {
        self.flush();
        if let Some(wire) = self.wire.take() {
            wire.finish();
        }
        self.put(None);
    }

    /// The stream was reported to be ready.
    pub fn wake(&mut self, readable: bool, writable: bool)
        ensures { self.new ≡ self.old }
    {
        self.readable = self.readable || readable;
        self.writable = self.writable || writable;
    }

    // Whether nothing goes through it any more.
    fn is_lost(&self) -> bool
        ensures { result ≡ is_lost self.now }
    {
        match &self.wire {
            Some(wire) => self.cut || wire.has_failed(),
            None => true,
        }
    }

    // One write of what is pending, and whether another one may follow.
    fn write_once(&mut self) -> bool
        ensures { Flushes self.old self.new }
    {
        if self.is_lost() || !self.writable || self.pending.is_empty() {
            return false;
        }
        let Some(wire) = &mut self.wire else {
            return false;
        };
        match wire.write(&self.pending) {
            Ok(count) => {
                remove_front(&mut self.pending, count);
                return true;
            }
            Err(Halt::Blocked) => self.writable = false,
            Err(Halt::Interrupted | Halt::Broken) => {}
        }
        false
    }

    // Writes what is pending, as far as the stream takes it.
    fn flush(&mut self)
        ensures { Flushes self.old self.new }
    {
        for _ in 0..MOST_WRITES {
            if !self.write_once() {
                return;
            }
        }
    }

    // One read.
    fn read_once(&mut self, door: Door, buf: &mut [u8]) -> Taken
        requires unblocked { is_dialled door ≡ false → self.old.pending ≡ [] }
        ensures length { length buf.new ≡ length buf.old }
        ensures bound { (n : ℕ) → result ≡ Bytes n → n ≤ length buf.new }
        ensures pending { result ≡ Pending → is_dialled door ≡ false }
        ensures reads { Reads door result buf.new self.old self.new }
    {
        let Some(wire) = &mut self.wire else {
            return Taken::Over;
        };
        if wire.has_ended() {
            return Taken::Over;
        }
        if !self.readable || buf.is_empty() {
            return Taken::Bytes(0);
        }
        match wire.read(buf) {
            Ok(0) | Err(Halt::Broken) => return Taken::Over,
            Ok(count) => return Taken::Bytes(count),
            Err(Halt::Blocked) => self.readable = false,
            Err(Halt::Interrupted) => {}
        }
        Taken::Bytes(0)
    }

    // So where what is pending was written as far as it goes.
    fn take_flushed(&mut self, door: Door, buf: &mut [u8]) -> Taken
        ensures length { length buf.new ≡ length buf.old }
        ensures bound { (n : ℕ) → result ≡ Bytes n → n ≤ length buf.new }
        ensures pending { result ≡ Pending → is_dialled door ≡ false }
        ensures reads { Reads door result buf.new self.old self.new }
    {
        if self.is_lost() {
            return Taken::Over;
        }
        if !door.is_dialled() && !self.pending.is_empty() {
            return Taken::Pending;
        }
        self.read_once(door, buf)
    }

    /// The bytes that came of the connection, into the front of a buffer. While output is pending nothing is
    /// taken, unless the server dialled.
    pub fn take(&mut self, door: Door, buf: &mut [u8]) -> Taken
        ensures length { length buf.new ≡ length buf.old }
        ensures bound { (n : ℕ) → result ≡ Bytes n → n ≤ length buf.new }
        ensures pending { result ≡ Pending → is_dialled door ≡ false }
        ensures takes { Takes door result buf.new self.old self.new }
    {
        if self.is_lost() {
            return Taken::Over;
        }
        self.flush();
        self.take_flushed(door, buf)
    }

    /// Bytes that are written behind what is pending, as the stream takes them. A connection that has no room
    /// for them is cut off: its peer doesn't read.
    pub fn send(&mut self, bytes: &[u8])
        ensures { Sends bytes.now self.old self.new }
    {
        if self.is_lost() {
            return;
        }
        if self.room.saturating_sub(self.pending.len()) < bytes.len() {
            self.cut = true;
            return;
        }
        push_all(&mut self.pending, bytes);
        self.flush();
    }
}
