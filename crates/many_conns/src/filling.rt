//! Which frames a batch takes: those of the line that have room, up to the first that has none.
ghost use Rattle.std.specs.Prelude.{◌≡◌, ◌+◌, ◌<◌, ◌≤◌, ◌^◌, [], true, false, length, take, drop, slice_get};
ghost use Rattle.many_conns.specs.Places.{frames_by, frames_of, taken};
ghost use Rattle.many_conns.specs.Batches.{Offered, weight_of, fits, offered, entry_of, entries_of, frames_from, is_side, whole_from, place_unless, around, line, admitted, refused, put_some, all_taken};

use crate::answering::Answering;
use crate::batch::{Batch, Weight};
use crate::place::Place;
use many_words::{Door, Entry, RECORD_MAX};

// Offers a frame, and says whether it had room.
fn offer_frame<S: Answering>(
    batch: &mut Batch,
    server: &S,
    place: usize,
    door: Door,
    frame: &[u8],
) -> bool
    requires { length frame.now ≤ 16384 }
    ensures fits { result ≡ fits (weight_of S.rules.is_dear (entry_of S.rules server.now place door frame.now)) batch.old.left }
    ensures offered { batch.new ≡ offered (weight_of S.rules.is_dear (entry_of S.rules server.now place door frame.now))
        (entry_of S.rules server.now place door frame.now) batch.old }
{
    let weight = Weight {
        client: door.is_client(),
        dear: server.is_dear(door, frame),
    };
    if !batch.fits(weight) {
        return false;
    }
    let mut out = [0u8; RECORD_MAX];
    let noted = match server.record(door, frame, &mut out) {
        Some(count) => Some(&out[..count]),
        None => None,
    };
    batch.put(place, door, frame, noted, weight);
    true
}

// Offers the whole frames that bytes begin with, which came through this door to a place, and says whether all had room.
fn offer_frames<S: Answering>(
    batch: &mut Batch,
    server: &S,
    place: usize,
    door: Door,
    held: &[u8],
) -> bool
    requires { length held.now ≤ 16384 }
    ensures { Offered S.rules.is_dear
        (entries_of S.rules server.now place door (frames_of (S.rules.whole door) (length held.now) held.now))
        batch.old batch.new (place_unless result place None) }
{
    let mut rest = held;
    for _ in 0..held.len() {
        let Some(count) = server.whole(door, rest) else {
            return true;
        };
        let (frame, behind) = rest.split_at(count);
        if !offer_frame(batch, server, place, door, frame) {
            return false;
        }
        rest = behind;
    }
    true
}

// Offers all whole frames of a place of the other server, and says whether the next place may offer its own.
fn offer_all<S: Answering>(batch: &mut Batch, server: &S, place: usize, from: &Place) -> bool
    ensures { Offered S.rules.is_dear (entries_of S.rules server.now place from.now.door (frames_by true S.rules.whole from.now))
        batch.old batch.new (place_unless result place None) }
{
    match from.heard() {
        Some(held) => offer_frames(batch, server, place, from.door(), held),
        None => true,
    }
}

// Offers the first whole frame of a place, if it has one, and says whether the next place may offer its own.
fn offer_first<S: Answering>(batch: &mut Batch, server: &S, place: usize, from: &Place) -> bool
    ensures { Offered S.rules.is_dear (entries_of S.rules server.now place from.now.door (frames_by false S.rules.whole from.now))
        batch.old batch.new (place_unless result place None) }
{
    match from.frame(server) {
        Some(frame) => offer_frame(batch, server, place, from.door(), frame),
        None => true,
    }
}

// Whether a door is the other server's, or isn't.
fn is_side(peers: bool, door: Door) -> bool
    ensures { result ≡ is_side peers door }
{
    if peers {
        door.is_peer()
    } else {
        !door.is_peer()
    }
}

// Offers the frames that a round takes of a place, if it is one of the other server, or if it isn't.
fn offer_one<S: Answering>(
    batch: &mut Batch,
    server: &S,
    peers: bool,
    place: usize,
    from: &Place,
) -> bool
    ensures { Offered S.rules.is_dear (entries_of S.rules server.now place from.now.door (frames_from S.rules.whole peers from.now))
        batch.old batch.new (place_unless result place None) }
{
    if !is_side(peers, from.door()) {
        return true;
    }
    if peers {
        return offer_all(batch, server, place, from);
    }
    offer_first(batch, server, place, from)
}

// Offers those of each of these places, the first of which has this number, and gives the place that had no room.
fn offer_each<S: Answering>(
    batch: &mut Batch,
    server: &S,
    peers: bool,
    base: usize,
    places: &[Place],
) -> Option<usize>
    requires base { base + length places.now < 2 ^ 64 }
    ensures { Offered S.rules.is_dear (whole_from S.rules server.now peers base places.now) batch.old batch.new result }
{
    for place in 0..places.len() {
        if !offer_one(batch, server, peers, base + place, &places[place]) {
            return Some(base + place);
        }
    }
    None
}

// Offers the frames of clients and operators, beginning at this place.
fn offer_around<S: Answering>(
    batch: &mut Batch,
    server: &S,
    turn: usize,
    places: &[Place],
) -> Option<usize>
    ensures { Offered S.rules.is_dear (around S.rules server.now turn places.now) batch.old batch.new result }
{
    if places.len() <= turn {
        return offer_each(batch, server, false, 0, places);
    }
    let (before, behind) = places.split_at(turn);
    match offer_each(batch, server, false, turn, behind) {
        Some(place) => Some(place),
        None => offer_each(batch, server, false, 0, before),
    }
}

// Offers the frames of the line: those of the other server first.
fn offer_line<S: Answering>(
    batch: &mut Batch,
    server: &S,
    turn: usize,
    places: &[Place],
) -> Option<usize>
    ensures { Offered S.rules.is_dear (line S.rules server.now turn places.now) batch.old batch.new result }
{
    match offer_each(batch, server, true, 0, places) {
        Some(place) => Some(place),
        None => offer_around(batch, server, turn, places),
    }
}

// Fills a batch from the line that begins at this place, and gives the first place that had no room.
pub fn fill<S: Answering>(
    batch: &mut Batch,
    server: &S,
    dear: usize,
    turn: usize,
    places: &[Place],
) -> Option<usize>
    ensures room { batch.new.room ≡ batch.old.room }
    ensures entries { batch.new.entries ≡ admitted S.rules.is_dear
        (record { frames = batch.old.room; clients = S.rules.room server.now; dear = dear }) (line S.rules server.now turn places.now) }
    ensures refused { result ≡ refused S.rules.is_dear
        (record { frames = batch.old.room; clients = S.rules.room server.now; dear = dear }) (line S.rules server.now turn places.now) }
{
    batch.begin(server.room(), dear);
    offer_line(batch, server, turn, places)
}

// A frame of so many bytes of this place is taken, if there is such a place.
fn take_at(places: &mut Vec<Place>, now: u64, place: usize, count: usize)
    ensures { places.new.items ≡ put_some places.old.items place (taken now count) (slice_get places.old.items place) }
{
    if place < places.len() {
        places[place].take(now, count);
    }
}

// Each of these frames is taken.
pub fn take_all(places: &mut Vec<Place>, now: u64, entries: &[Entry])
    ensures { places.new.items ≡ all_taken now entries.now places.old.items }
{
    for index in 0..entries.len() {
        let entry = &entries[index];
        take_at(places, now, entry.place(), entry.frame().len());
    }
}
