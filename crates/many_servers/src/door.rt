//! What comes through each door.
ghost use Rattle.std.specs.Prelude.{◌≡◌, ◌≤◌, IfSome, length};
ghost use Rattle.many_servers.specs.Doors.{is_dear, whole_at};

use crate::packet::packet_len;
use crate::refusing::is_proof;
use door_asks::{ask_end, read_ask};
use many_words::Door;

/// How many of these bytes, which came through a door, are the first ask or packet, if one is whole.
pub(crate) fn whole_at(door: Door, held: &[u8]) -> Option<usize>
    ensures exact { result ≡ whole_at door held.now }
    ensures within { IfSome result (λ n. n ≤ length held.now) }
{
    match door {
        Door::Clients => ask_end(held),
        Door::Link | Door::Dialled => packet_len(held),
        Door::Status => None,
    }
}

/// Whether a frame takes long.
pub(crate) fn is_dear(door: Door, frame: &[u8]) -> bool
    ensures { result ≡ is_dear door frame.now }
{
    match door {
        Door::Clients => is_proof(&read_ask(frame)),
        Door::Link | Door::Dialled | Door::Status => false,
    }
}
