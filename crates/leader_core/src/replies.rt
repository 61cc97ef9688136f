//! What a reply of the helper says.
ghost use Rattle.std.specs.Prelude.{◌≡◌, option_map};
ghost use Rattle.frame_rules.specs.Frames.{plain_body};
ghost use Rattle.step_rules.specs.LeaderReplies.{refusal_in, registered_in};
ghost use Rattle.leader_core.specs.Replies.{audited_in, begun_in, masked_in, verdict_in};

use express_words::{Closing, Openings, Refusal};
use frame_rules::{Body, ReplyBody};

pub(crate) fn refusal_in(body: &Body<'_>) -> Option<Refusal>
    ensures { result ≡ refusal_in (plain_body body.now) }
{
    match *body {
        Body::LinkReply(ReplyBody::Refused(refusal)) => Some(refusal),
        _ => None,
    }
}

pub(crate) fn registered_in(body: &Body<'_>) -> Option<u32>
    ensures { result ≡ registered_in (plain_body body.now) }
{
    match *body {
        Body::LinkReply(ReplyBody::Registered(box_number)) => Some(box_number),
        _ => None,
    }
}

/// The helper's count of boxes, and its draw.
pub(crate) fn begun_in(body: &Body<'_>) -> Option<(u32, [u8; 32])>
    ensures { result ≡ begun_in (plain_body body.now) }
{
    match *body {
        Body::LinkBegun { count, draw } => Some((count, draw)),
        _ => None,
    }
}

pub(crate) fn audited_in(body: &Body<'_>) -> Option<(Openings, Closing)>
    ensures { result ≡ audited_in (plain_body body.now) }
{
    match *body {
        Body::LinkReply(ReplyBody::Audited(opened, closed)) => Some((opened, closed)),
        _ => None,
    }
}

/// Whether the helper's judge accepts.
pub(crate) fn verdict_in(body: &Body<'_>) -> Option<bool>
    ensures { result ≡ verdict_in (plain_body body.now) }
{
    match *body {
        Body::LinkReply(ReplyBody::Accepted) => Some(true),
        Body::LinkReply(ReplyBody::Rejected) => Some(false),
        _ => None,
    }
}

/// The helper's masked share.
pub(crate) fn masked_in<'a>(body: &Body<'a>) -> Option<&'a [u8]>
    ensures { option_map (λ share. share.now) result ≡ masked_in (plain_body body.now) }
{
    match *body {
        Body::LinkReply(ReplyBody::Masked(share)) => Some(share),
        _ => None,
    }
}
