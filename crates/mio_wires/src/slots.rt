//! All places.
ghost use Rattle.std.specs.Prelude.{◌≡◌, ◌≤◌, ℕ, false, length, IfOk, OnOk, ◌++◌, replicate};
ghost use Rattle.many_words.specs.declared.hub.Taken.TheVariants.{Bytes, Over, Pending};
ghost use Rattle.many_words.specs.Doors.{is_dialled};
ghost use Rattle.mio_wires.specs.Openings.{answer_room, vacant_slots};
ghost use Rattle.mio_wires.specs.Slots.{ChangesOnly, Takes, Sends, vacant};

use crate::doors::Doors;
use crate::slot::Slot;
use many_words::{Door, Taken};
use mio::Events;
use std::alloc::{AllocError, Global};

/// So many bytes may be pending of one answer: those of the longest, and of a head before it.
pub const ANSWER_ROOM: usize = 17408;

// So many places more.
fn add_vacant(alloc: Global, slots: &mut Vec<Slot>, count: usize) -> Result<(), AllocError>
    ensures { OnOk result (slots.new.items ≡ slots.old.items ++ replicate count (vacant answer_room)) }
{
    for _ in 0..count {
        slots.push(Slot::vacant(alloc, ANSWER_ROOM)?)?;
    }
    Ok(())
}

/// Places without connections. The other server's is the first one.
pub fn vacant_slots(
    alloc: Global,
    places: usize,
    outstanding: usize,
) -> Result<Vec<Slot>, AllocError>
    ensures { IfOk result (λ slots. slots.items ≡ vacant_slots places outstanding) }
{
    let mut slots = Vec::with_capacity(alloc, places)?;
    if places == 0 {
        return Ok(slots);
    }
    slots.push(Slot::vacant(alloc, outstanding.max(1).saturating_mul(ANSWER_ROOM))?)?;
    add_vacant(alloc, &mut slots, places - 1)?;
    Ok(slots)
}

// The stream of a place, if it is one, was reported to be ready.
fn wake_at(slots: &mut Vec<Slot>, place: usize, readable: bool, writable: bool)
    ensures { slots.new.items ≡ slots.old.items }
{
    if place < slots.len() {
        slots[place].wake(readable, writable);
    }
}

/// Notes what was reported of doors and of places.
pub fn note_reports(events: &Events, doors: &mut Doors, slots: &mut Vec<Slot>)
    ensures { slots.new.items ≡ slots.old.items }
{
    for event in events {
        doors.wake(event.token());
        let is_over = event.is_read_closed() || event.is_error();
        let is_readable = event.is_readable() || is_over;
        wake_at(slots, event.token().0, is_readable, event.is_writable());
    }
}

/// What came of the connection at a place.
pub fn take_at(slots: &mut Vec<Slot>, place: usize, door: Door, buf: &mut [u8]) -> Taken
    ensures length { length buf.new ≡ length buf.old }
    ensures bound { (n : ℕ) → result ≡ Bytes n → n ≤ length buf.new }
    ensures pending { result ≡ Pending → is_dialled door ≡ false }
    ensures takes { ChangesOnly (Takes door result buf.new) place slots.old.items slots.new.items }
    ensures nowhere { length slots.old.items ≤ place → result ≡ Over }
{
    if place >= slots.len() {
        return Taken::Over;
    }
    slots[place].take(door, buf)
}

/// Sends bytes to the connection at a place.
pub fn send_at(slots: &mut Vec<Slot>, place: usize, bytes: &[u8])
    ensures { ChangesOnly (Sends bytes.now) place slots.old.items slots.new.items }
{
    if place < slots.len() {
        slots[place].send(bytes);
    }
}
