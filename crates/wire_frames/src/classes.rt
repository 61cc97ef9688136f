//! Which way a body goes, and whether it has a message's width.
ghost use Rattle.std.specs.Prelude.{◌≡◌};
ghost use Rattle.frame_rules.specs.Frames.{plain_body};
ghost use Rattle.frame_rules.specs.Whole.{is_from_client, is_command, is_reply, has_width};

use express_words::limits::LEVELS_LEN;
use frame_rules::{Body, ReplyBody};

/// Whether a client sends it to a server: kinds 1 to 5 and 16.
pub fn is_from_client(body: &Body<'_>) -> bool
    ensures { result ≡ is_from_client (plain_body body.now) }
{
    match *body {
        Body::Deposit(_)
        | Body::Register { .. }
        | Body::Write { .. }
        | Body::Read { .. }
        | Body::Proof(_)
        | Body::Retire { .. } => true,
        _ => false,
    }
}

/// Whether the leader sends it to the helper: kinds 10 to 14 and 17.
pub fn is_command(body: &Body<'_>) -> bool
    ensures { result ≡ is_command (plain_body body.now) }
{
    match *body {
        Body::LinkRegister { .. }
        | Body::LinkBegin { .. }
        | Body::LinkAudit { .. }
        | Body::LinkSettle(_)
        | Body::LinkRead { .. }
        | Body::LinkRetire { .. } => true,
        _ => false,
    }
}

/// Whether the helper sends it to the leader: kinds 15 and 18.
pub fn is_reply(body: &Body<'_>) -> bool
    ensures { result ≡ is_reply (plain_body body.now) }
{
    match *body {
        Body::LinkReply(_) | Body::LinkBegun { .. } => true,
        _ => false,
    }
}

/// Whether what the body has of a message's width has this one, in bytes.
pub fn has_width(body: &Body<'_>, width: u32) -> bool
    ensures { result ≡ has_width width (plain_body body.now) }
{
    match *body {
        Body::Write { part, .. } | Body::LinkBegin { part, .. } => {
            part.len() == LEVELS_LEN + width as usize
        }
        Body::Message { zero, .. } => zero.len() == width as usize,
        Body::LinkReply(ReplyBody::Masked(share)) => share.len() == width as usize,
        _ => true,
    }
}
