//! What a log takes: frames, each with the place that it came from, and what the log notes of it.
ghost use Rattle.std.specs.Prelude.{◌≡◌, ◌++◌, ◌≤◌, ◌+◌, [], None, IfOk, IfSome, length, option_map, vec_capacity};
ghost use Rattle.many_words.specs.declared.door.Door.TheVariants.{Clients};

use crate::door::Door;
use std::alloc::{AllocError, Global};
use std::marker::Model;

/// So many bytes a connection or an entry holds at most.
pub const ROOM: usize = 16384;

/// So many bytes the record of a frame has at most: those of the frame, and of what is noted beside it.
pub const RECORD_MAX: usize = 16896;

/// A frame with the place and the door that it came through, and its record, if it has one.
#[derive(Drop)]
pub struct Entry {
    place: usize,
    door: Door,
    frame: Vec<u8>,
    is_noted: bool,
    record: Vec<u8>,
}

impl Model for Entry {
    ghost use Rattle.std.specs.Prelude.{◌≤◌, vec_capacity};
    ghost use Rattle.many_words.specs.Events.{Entry as Seen};
    ghost use Rattle.many_words.specs.Notes.{noted_if};

    ghost Value = { Seen };

    ghost view = { λ e. record {
      place = e.place;
      door = e.door;
      frame = e.frame.items;
      noted = noted_if e.is_noted e.«record».items;
    } };

    ghost invariant = { λ e. (16384 ≤ vec_capacity e.frame) × (16896 ≤ vec_capacity e.«record») };
}

/// Adds bytes that have room.
pub fn push_all(held: &mut Vec<u8>, bytes: &[u8])
    requires { length held.old.items + length bytes.now ≤ vec_capacity held.old }
    ensures held { held.new.items ≡ held.old.items ++ bytes.now }
    ensures capacity { vec_capacity held.new ≡ vec_capacity held.old }
{
    for byte in bytes {
        held.push_reserved(*byte);
    }
}

impl Entry {
    /// No frame. This alone takes memory, for the longest one and its record.
    pub fn empty(alloc: Global) -> Result<Entry, AllocError>
        ensures { IfOk result (λ e. e ≡ record { place = 0; door = Clients; frame = []; noted = None }) }
    {
        Ok(Entry {
            place: 0,
            door: Door::Clients,
            frame: Vec::with_capacity(alloc, ROOM)?,
            is_noted: false,
            record: Vec::with_capacity(alloc, RECORD_MAX)?,
        })
    }

    /// Becomes a frame of at most [`ROOM`] bytes that came through this door to this place, with its record of at most
    /// [`RECORD_MAX`].
    pub fn fill(&mut self, place: usize, door: Door, frame: &[u8], noted: Option<&[u8]>)
        requires frame { length frame.now ≤ 16384 }
        requires noted { IfSome noted (λ bytes. length bytes.now ≤ 16896) }
        ensures { self.new ≡ record { place = place; door = door; frame = frame.now; noted = option_map (λ bytes. bytes.now) noted.entry } }
    {
        self.place = place;
        self.door = door;
        self.frame.clear();
        push_all(&mut self.frame, frame);
        self.record.clear();
        self.is_noted = noted.is_some();
        if let Some(bytes) = noted {
            push_all(&mut self.record, bytes);
        }
    }

    /// The same frame in memory of its own.
    pub fn copy(&self, alloc: Global) -> Result<Entry, AllocError>
        ensures { IfOk result (λ e. e ≡ self.now) }
    {
        Ok(Entry {
            place: self.place,
            door: self.door,
            frame: copy_bytes(alloc, &self.frame, ROOM)?,
            is_noted: self.is_noted,
            record: copy_bytes(alloc, &self.record, RECORD_MAX)?,
        })
    }

    /// The place that it came to.
    pub fn place(&self) -> usize
        ensures { result ≡ self.now.place }
    {
        self.place
    }

    /// The door that it came through.
    pub fn door(&self) -> Door
        ensures { result ≡ self.now.door }
    {
        self.door
    }

    /// The frame.
    pub fn frame(&self) -> &[u8]
        ensures { result.now ≡ self.now.frame }
    {
        &self.frame
    }

    /// What the log notes of it.
    pub fn record(&self) -> Option<&[u8]>
        ensures { option_map (λ bytes. bytes.now) result ≡ self.now.noted }
    {
        if self.is_noted {
            Some(&self.record)
        } else {
            None
        }
    }
}

// The same bytes, with room for so many.
fn copy_bytes(alloc: Global, bytes: &[u8], room: usize) -> Result<Vec<u8>, AllocError>
    ensures items { IfOk result (λ copy. copy.items ≡ bytes.now) }
    ensures room { IfOk result (λ copy. room ≤ vec_capacity copy) }
{
    let mut copy = Vec::with_capacity(alloc, room.max(bytes.len()))?;
    push_all(&mut copy, bytes);
    Ok(copy)
}
