//! One question to a server of a pair, at its clients' door.
ghost use Rattle.std.specs.Prelude.{◌≡◌, ◌≤◌, length, true};
ghost use Rattle.express_words.specs.Limits.{IsWidth};
ghost use Rattle.desk_texts.specs.Places.{is_place};
ghost use Rattle.frame_rules.specs.Frames.{plain};
ghost use Rattle.frame_rules.specs.Spelling.{IsFrame};
ghost use Rattle.http_door.specs.Requests as request;
ghost use Rattle.http_door.specs.Requests.{plain_request, request_body};
ghost use Rattle.owner_check.specs.Answers.{Asks, CountBy};
ghost use Rattle.owner_check.specs.Questions.{helper_question, leader_question, width_question};

use crate::found::{Found, found_in};
use crate::questions::{to_helper, to_leader, with_part};
use desk_sheets::OwnersServer;
use door_exchange::{Broken, MESSAGE_MAX, Place, exchange};
use express_words::outside::Net;
use frame_rules::{FRAME_MAX, Frame};
use http_door::Request;
use lane_gate::Ticket;
use wire_frames::encode_into;

/// The bytes of a public part before its last block.
const LEVELS_LEN: usize = 2064;

/// The bytes of a public part of the greatest width.
const PART_MAX: usize = LEVELS_LEN + 4096;

// Where a server is reached.
fn place_of(server: &OwnersServer) -> Place<'_>
    requires { is_place server.now.place ≡ true }
    ensures { result ≡ server.now.place }
{
    match Place::of(server.place.as_str()) {
        Some(place) => place,
        None => unreachable!(),
    }
}

// The frame with the key of its lane.
fn request_of<'a>(key: Ticket, frame: &'a [u8]) -> Request<'a>
    requires { length frame.now ≤ 8213 }
    ensures asked { plain_request result ≡ request.Frame key frame.now }
    ensures sendable { length (request_body (plain_request result)) ≤ 8262 }
{
    Request::Frame { ticket: key, frame }
}

fn ask<N: Net>(net: &mut N, server: &OwnersServer, question: &Frame<'_>) -> Result<Found, Broken>
    requires place { is_place server.now.place ≡ true }
    requires frame { IsFrame (plain question.now) }
    ensures asks { Asks server.now (plain question.now) result (N.seen net.old).calls (N.seen net.new).calls }
    ensures fault { CountBy result (N.seen net.old).faults (N.seen net.new).faults }
    ensures door { (N.seen net.new).doors ≡ (N.seen net.old).doors }
{
    let mut frame = [0u8; FRAME_MAX];
    let mut out = [0u8; MESSAGE_MAX];
    let mut came = [0u8; MESSAGE_MAX];
    let size = encode_into(question, &mut frame);
    let request = request_of(server.key, &frame[..size]);
    let place = place_of(server);
    match exchange(net, &place, &request, &mut out, &mut came) {
        Ok(reply) => Ok(found_in(&reply)),
        Err(why) => Err(why),
    }
}

/// Asks the leader whether the lane is this owner's, and where it stands, by a read of a box that it
/// doesn't have. That changes nothing there, nor at a helper, which says that it is the other server.
pub fn ask_leader<N: Net>(net: &mut N, server: &OwnersServer, lane: u16) -> Result<Found, Broken>
    requires { is_place server.now.place ≡ true }
    ensures asks { Asks server.now (leader_question lane) result
        (N.seen net.old).calls (N.seen net.new).calls }
    ensures fault { CountBy result (N.seen net.old).faults (N.seen net.new).faults }
    ensures door { (N.seen net.new).doors ≡ (N.seen net.old).doors }
{
    ask(net, server, &to_leader(lane))
}

/// Asks the leader whether its messages have this width, by a write of serial 1. That changes nothing there
/// on a lane that stands at 1 or above; on one that had no request it is the lane's first, and nothing
/// follows it.
pub fn ask_width<N: Net>(
    net: &mut N,
    server: &OwnersServer,
    lane: u16,
    width: u32,
) -> Result<Found, Broken>
    requires place { is_place server.now.place ≡ true }
    requires width { IsWidth width }
    ensures asks { Asks server.now (width_question lane width) result
        (N.seen net.old).calls (N.seen net.new).calls }
    ensures fault { CountBy result (N.seen net.old).faults (N.seen net.new).faults }
    ensures door { (N.seen net.new).doors ≡ (N.seen net.old).doors }
{
    let part = [0u8; PART_MAX];
    ask(
        net,
        server,
        &with_part(lane, &part[..LEVELS_LEN + width as usize]),
    )
}

/// Asks the helper whether the lane is this owner's, and where it stands, by a deposit of serial 1. That
/// changes nothing there on a lane that stands at 1 or above; on one that had no request it is the lane's
/// first, and nothing follows it. Of its width it says nothing.
pub fn ask_helper<N: Net>(net: &mut N, server: &OwnersServer, lane: u16) -> Result<Found, Broken>
    requires { is_place server.now.place ≡ true }
    ensures asks { Asks server.now (helper_question lane) result
        (N.seen net.old).calls (N.seen net.new).calls }
    ensures fault { CountBy result (N.seen net.old).faults (N.seen net.new).faults }
    ensures door { (N.seen net.new).doors ≡ (N.seen net.old).doors }
{
    ask(net, server, &to_helper(lane))
}
