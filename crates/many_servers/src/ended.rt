//! How a leader answers a client's frame that isn't taken.
ghost use Rattle.std.specs.Prelude.{◌≡◌, ◌≤◌, length, option_map};
ghost use Rattle.frame_rules.specs.Whole.{whole};
ghost use Rattle.http_door.specs.Hearing.{plain_asked};
ghost use Rattle.http_door.specs.Replies.{plain_reply};
ghost use Rattle.door_asks.specs.Answers.{answer_bytes};
ghost use Rattle.many_servers.specs.Ends.{end_at, is_late, leader_refused, refused_frame};
ghost use Rattle.many_servers.specs.Passing.{fits_ticket};

use crate::refusing::refused_ask;
use http_door::{Asked, Reply, Request};
use lane_gate::{Holder, LaneGate, Ticket, TicketHash};
use lane_leases::{End, LaneLeases};
use wire_frames::Received;

fn fits_ticket(holder: &Holder, serial: u32, hash: &TicketHash) -> bool
    ensures { result ≡ fits_ticket holder.now serial hash.now }
{
    holder.fits(serial, hash)
}

// Whether a frame came with another ticket than that of its lane and serial.
fn is_late(gate: &LaneGate, hash: &TicketHash, bytes: &[u8]) -> bool
    ensures { result ≡ is_late gate.now hash.now (whole bytes.now) }
{
    match Received::of(bytes).frame() {
        Ok(frame) => !fits_ticket(&gate.row(frame.lane).holder, frame.serial, hash),
        Err(_) => false,
    }
}

// How the request of a ticket ended, if that is remembered and the frame's lane and serial aren't its own any more.
fn end_at(leases: &LaneLeases, hash: &TicketHash, frame: &[u8]) -> Option<End>
    ensures { result ≡ end_at leases.now hash.now frame.now }
{
    if is_late(leases.gate(), hash, frame) {
        leases.ended(hash)
    } else {
        None
    }
}

fn refused_frame(leases: &LaneLeases, ticket: &Ticket, frame: &[u8]) -> Reply<'static>
    ensures { plain_reply result ≡ refused_frame leases.now ticket.now frame.now }
{
    match end_at(leases, &ticket.hash(), frame) {
        Some(end) => Reply::Ended(end),
        None => Reply::NotYours,
    }
}

/// The answer to an ask that isn't taken: of a frame how the request of its ticket ended, where its lane went to
/// another since, and that is remembered.
pub(crate) fn leader_refused(leases: &LaneLeases, asked: &Option<Asked<'_>>) -> Reply<'static>
    ensures is { plain_reply result ≡ leader_refused leases.now (option_map plain_asked asked.now) }
    ensures short { length (answer_bytes (plain_reply result)) ≤ 2 }
{
    match asked {
        Some(Asked::Request(Request::Frame { ticket, frame })) => {
            refused_frame(leases, ticket, frame)
        }
        Some(Asked::Request(Request::Proof { ticket, frame, .. })) => {
            refused_frame(leases, ticket, frame)
        }
        _ => refused_ask(asked),
    }
}
