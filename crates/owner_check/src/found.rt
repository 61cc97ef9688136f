//! What a server's answer says of it and of a lane.
ghost use Rattle.std.specs.Prelude.{◌≡◌};
ghost use Rattle.frame_rules.specs.Reading.{decoded};
ghost use Rattle.http_door.specs.Replies.{plain_reply};
ghost use Rattle.owner_check.specs.Answers.{found_by, found_for, found_in};
ghost use Rattle.frame_rules.specs.Frames.{plain_body};

use crate::questions::NO_BOX;
use express_words::Refusal;
use frame_rules::Body;
use http_door::Reply;
use wire_frames::decode;

/// What a server says of itself and of an owner's lane.
#[derive(Clone, Copy, Debug, PartialEq, Eq)]
pub enum Found {
    /// The key is the lane's, and the lane stands at this serial; at 0 it had no request yet.
    Stands(u32),
    /// The key is the lane's, and the server's messages have another width.
    OtherWidth,
    /// The key is the lane's, and the server is the other one of its pair.
    OtherServer,
    /// The key isn't the lane's, or the lane no owner's.
    NotYours,
    /// None of these: it is no server of this protocol, or one that doesn't answer as it should.
    Other,
}

// What a refusal says.
fn found_for(refusal: Refusal) -> Found
    ensures { result ≡ found_for refusal }
{
    match refusal {
        Refusal::Stale(serial) => Found::Stands(serial),
        Refusal::NoBox(NO_BOX) => Found::Stands(0),
        Refusal::Malformed(0) => Found::OtherWidth,
        Refusal::Malformed(5) => Found::OtherServer,
        Refusal::Malformed(_) | Refusal::Version(_) | Refusal::Lane(_) => Found::Other,
        Refusal::Again(_) | Refusal::LinkDown(_) => Found::Other,
        _ => Found::Stands(1),
    }
}

fn found_by(body: &Body<'_>) -> Found
    ensures { result ≡ found_by (plain_body body.now) }
{
    match body {
        Body::Refused(refusal) => found_for(*refusal),
        Body::Held { .. } | Body::Challenge { .. } => Found::Stands(1),
        Body::Registered { .. } | Body::Accepted | Body::Message { .. } => Found::Stands(1),
        _ => Found::Other,
    }
}

/// What this answer to a question says.
pub(crate) fn found_in(reply: &Reply<'_>) -> Found
    ensures { result ≡ found_in (plain_reply reply.now) }
{
    match reply {
        Reply::Frame(bytes) => match decode(bytes) {
            Ok((frame, _)) => found_by(&frame.body),
            Err(_) => Found::Other,
        },
        Reply::NotYours => Found::NotYours,
        _ => Found::Other,
    }
}
