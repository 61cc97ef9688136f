//! The connections at all places.
ghost use Rattle.std.specs.Prelude.{◌≡◌, ◌∷◌, ◌++◌, ◌≤◌, [], ℕ, length, IfOk, option_map, replicate, is_some, map};
ghost use Rattle.many_words.specs.Events.{Sent, SentAgain};
ghost use Rattle.many_words.specs.Doors.{is_dialled};
ghost use Rattle.http_wires.specs.Clients.{raw_client};
ghost use Rattle.http_wires.specs.Replies.{origin_of};
ghost use Rattle.http_wires.specs.Steps.{SendsAt, TakesAt, client_at, open_at, taken_event};

use crate::client::Client;
use crate::reply::TEXT_MAX;
use http_door::HeaderValue;
use many_wires::{CallLog, Wires};
use many_words::{Door, Taken};
use std::alloc::{AllocError, Global};

/// So many places without a connection. This takes memory.
pub(crate) fn free_clients(alloc: Global, places: usize) -> Result<Vec<Client>, AllocError>
    ensures { IfOk result (λ clients. clients.items ≡ replicate places raw_client) }
{
    let mut clients = Vec::new(alloc);
    for place in 0..places {
        clients.push(Client::empty(alloc)?)?;
    }
    Ok(clients)
}

/// The bytes of an origin, or none.
pub(crate) fn origin_bytes(
    alloc: Global,
    origin: Option<&HeaderValue<'_>>,
) -> Result<Vec<u8>, AllocError>
    ensures { IfOk result (λ bytes. origin_of bytes.items ≡ option_map (λ value. value.now) origin.entry) }
{
    match origin {
        Some(value) => Vec::from_slice(alloc, value.bytes()),
        None => Ok(Vec::new(alloc)),
    }
}

// Whether HTTP is spoken at a place.
fn is_http(clients: &[Client], place: usize) -> bool
    ensures { result ≡ is_some (client_at clients.now place) }
{
    if place < clients.len() {
        clients[place].is_http()
    } else {
        false
    }
}

/// A connection of this door comes to a place.
pub(crate) fn open_at(clients: &mut Vec<Client>, place: usize, door: Door)
    ensures { clients.new.items ≡ open_at clients.old.items place door }
{
    if place < clients.len() {
        clients[place].open(door);
    }
}

/// Takes at a place: of asks where HTTP is spoken, else of bytes as they are.
pub(crate) fn take_at<W: Wires>(
    clients: &mut Vec<Client>,
    wires: &mut W,
    place: usize,
    door: Door,
    buf: &mut [u8],
) -> Taken
    ensures length { length buf.new ≡ length buf.old }
    ensures takes { TakesAt (W.told wires.old) (W.told wires.new) place door result buf.new clients.old.items clients.new.items }
{
    if is_http(clients, place) {
        clients[place].take(wires, place, door, buf)
    } else {
        wires.take(place, door, buf)
    }
}

/// Sends bytes to a place: as the response to an answer where HTTP is spoken, else as they are.
pub(crate) fn send_at<W: Wires>(
    clients: &mut Vec<Client>,
    wires: &mut W,
    origin: &[u8],
    place: usize,
    bytes: &[u8],
)
    ensures { SendsAt (W.told wires.old) (W.told wires.new) place (Sent place) bytes.now (origin_of origin.now)
        clients.old.items clients.new.items }
{
    if !is_http(clients, place) {
        wires.send(place, bytes);
        return;
    }
    let mut out = [0u8; TEXT_MAX];
    if let Some(count) = clients[place].respond(bytes, origin, &mut out) {
        wires.send(place, &out[..count]);
    }
}

/// So too, of what was sent to another connection before.
pub(crate) fn send_again_at<W: Wires>(
    clients: &mut Vec<Client>,
    wires: &mut W,
    origin: &[u8],
    place: usize,
    bytes: &[u8],
)
    ensures { SendsAt (W.told wires.old) (W.told wires.new) place (SentAgain place) bytes.now (origin_of origin.now)
        clients.old.items clients.new.items }
{
    if !is_http(clients, place) {
        wires.send_again(place, bytes);
        return;
    }
    let mut out = [0u8; TEXT_MAX];
    if let Some(count) = clients[place].respond(bytes, origin, &mut out) {
        wires.send_again(place, &out[..count]);
    }
}

/// Notes a take.
pub(crate) fn note_taken(calls: &mut CallLog, place: usize, taken: Taken, buf: &[u8])
    requires { (n : ℕ) → taken ≡ Taken.Bytes n → n ≤ length buf.now }
    ensures { calls.new ≡ calls.old ++ taken_event place taken buf.now ∷ [] }
{
    match taken {
        Taken::Bytes(count) => calls.note_came(place, &buf[..count]),
        Taken::Over => calls.note_ended(place),
        Taken::Pending => calls.note_blocked(place),
    }
}
