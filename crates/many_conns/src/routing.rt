//! Where an answer goes: to the place of its frame, or to whoever waits for it.
ghost use Rattle.std.specs.Prelude.{◌≡◌, ◌≤◌, ◌<◌, ◌^◌, length, map, take, IfSome, option_map, slice_get, Option, Some, None};
ghost use Rattle.std.specs.Bool.{OnTrue, OnFalse};
ghost use Rattle.many_conns.specs.Places.{finished, released, waiting_for, replied};
ghost use Rattle.many_conns.specs.Rules.{IsWithin, outcome_of};
ghost use Rattle.many_conns.specs.Routes.{waiter, changed_at, dialled, answered_at, key_at, waiting_at, sending, sending_to, places_after, sent_bytes, Delivers, IsResentAt, Resends, resent_at};

use crate::answering::{ANSWER_MAX, Answering};
use crate::place::Place;
use crate::said::{Key, Said};
use many_words::{Door, Hub};

/// Bytes of the front of an answer, and the place that they go to.
#[derive(Clone, Copy, Debug, PartialEq, Eq)]
pub struct Send {
    pub place: usize,
    pub count: usize,
}

// The place that waits for this.
fn waiter(places: &Vec<Place>, key: Key) -> Option<usize>
    ensures { result ≡ waiter key 0 places.now.items }
{
    for place in 0..places.len() {
        if places[place].waits_for(key) {
            return Some(place);
        }
    }
    None
}

// Nobody waits for this any more.
fn release_all(places: &mut Vec<Place>, key: Key)
    ensures { places.new.items ≡ map (released key) places.old.items }
{
    for place in 0..places.len() {
        places[place].release(key);
    }
}

// A place waits for this, and no other one.
fn wait_at(places: &mut Vec<Place>, place: usize, key: Option<Key>)
    ensures { places.new.items ≡ waiting_at key place places.old.items }
{
    let Some(key) = key else {
        return;
    };
    release_all(places, key);
    if place < places.len() {
        places[place].wait_for(key);
    }
}

// What the place of a frame waits for.
fn key_at(door: Door, key: Option<Key>) -> Option<Key>
    ensures { result ≡ key_at door key }
{
    if door.is_dialled() { None } else { key }
}

// The place of the connection that the server dials, if one stands there.
fn dialled(places: &Vec<Place>) -> Option<usize>
    ensures { result ≡ dialled places.now.items }
{
    if places.is_empty() {
        return None;
    }
    if places[0].is_linked() { Some(0) } else { None }
}

// The place where a frame is answered.
fn answered_at(door: Door, place: usize) -> Option<usize>
    ensures { result ≡ answered_at door place }
{
    if door.is_dialled() { None } else { Some(place) }
}

// Bytes of this length, to a place.
fn send_to(place: Option<usize>, count: usize, out: &[u8]) -> Option<Send>
    requires { count ≤ length out.now }
    ensures sends { sent_bytes out.now result ≡ sending_to (take count out.now) place }
    ensures within { IfSome result (λ send. send.count ≤ length out.now) }
{
    match place {
        Some(place) => Some(Send { place, count }),
        None => None,
    }
}

// No more is taken of the connection at a place.
fn finish_at(places: &mut Vec<Place>, place: usize)
    ensures { places.new.items ≡ changed_at finished (Some place) places.old.items }
{
    if place < places.len() {
        places[place].finish();
    }
}

// Whoever waits for this is sent its answer: who that is.
fn reply_to(places: &mut Vec<Place>, now: u64, key: Key) -> Option<usize>
    ensures place { result ≡ waiter key 0 places.old.items }
    ensures places { places.new.items ≡ changed_at (replied now) (waiter key 0 places.old.items) places.old.items }
{
    let place = waiter(places, key)?;
    if place < places.len() {
        places[place].reply(now);
    }
    Some(place)
}

/// What is to be sent of an answer to a frame that came through this door to a place, which the places take note of.
pub fn route(
    places: &mut Vec<Place>,
    now: u64,
    door: Door,
    place: usize,
    said: Said,
    out: &[u8],
) -> Option<Send>
    requires within { IsWithin said (length out.now) }
    ensures sends { sent_bytes out.now result ≡ sending door place (outcome_of said out.now) places.old.items }
    ensures within { IfSome result (λ send. send.count ≤ length out.now) }
    ensures places { places.new.items ≡ places_after now door place (outcome_of said out.now) places.old.items }
{
    match said {
        Said::Answer(count) => send_to(answered_at(door, place), count, out),
        Said::Last(count) => {
            finish_at(places, place);
            send_to(answered_at(door, place), count, out)
        }
        Said::Wait(key) => {
            wait_at(places, place, key_at(door, Some(key)));
            None
        }
        Said::Command(key, count) => {
            let to = dialled(places);
            wait_at(places, place, key_at(door, key));
            send_to(to, count, out)
        }
        Said::Reply(key, count) => send_to(reply_to(places, now, key), count, out),
        Said::Nothing => None,
    }
}

/// Sends what is to be sent for the frame of this place, or says that nothing is.
pub fn deliver<H: Hub>(hub: &mut H, place: usize, send: Option<Send>, out: &[u8])
    requires within { IfSome send (λ send. send.count ≤ length out.now) }
    ensures delivers { Delivers (H.told hub.old) (H.told hub.new) place (sent_bytes out.now send) }
    ensures goes_on { H.goes_on hub.old hub.new }
{
    match send {
        Some(send) => hub.send(send.place, &out[..send.count]),
        None => hub.leave(place),
    }
}

// Sends the command of this place among those that are unanswered again, if there is one.
fn resend_one<S: Answering, H: Hub>(server: &S, hub: &mut H, place: usize, index: usize) -> bool
    ensures sent { OnTrue result (IsResentAt (H.told hub.old) (H.told hub.new) place (S.rules.outstanding server.now) index) }
    ensures none { OnFalse result (slice_get (S.rules.outstanding server.now) index ≡ None) }
    ensures told { OnFalse result (H.told hub.new ≡ H.told hub.old) }
    ensures few { length (S.rules.outstanding server.now) < 2 ^ 32 }
    ensures goes_on { H.goes_on hub.old hub.new }
{
    let mut out = [0u8; ANSWER_MAX];
    let Some(count) = server.outstanding(index, &mut out) else {
        return false;
    };
    hub.send_again(place, &out[..count]);
    true
}

// Sends all commands that are unanswered again, from the oldest on.
fn resend_all<S: Answering, H: Hub>(server: &S, hub: &mut H, place: usize)
    ensures resends { Resends (H.told hub.old) (H.told hub.new) place (S.rules.outstanding server.now) }
    ensures goes_on { H.goes_on hub.old hub.new }
{
    let mut index = 0;
    'resending: while resend_one(server, hub, place, index) {
        index += 1;
    }
}

/// Sends all commands that are unanswered again to a place, from the oldest on, if the server dials the connection there.
pub fn resend<S: Answering, H: Hub>(server: &S, hub: &mut H, door: Door, place: usize)
    ensures resends { Resends (H.told hub.old) (H.told hub.new) place (resent_at door (S.rules.outstanding server.now)) }
    ensures goes_on { H.goes_on hub.old hub.new }
{
    if !door.is_dialled() {
        return;
    }
    resend_all(server, hub, place);
}
