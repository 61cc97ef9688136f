//! Frames that answer a frame, or follow it on the link.
ghost use Rattle.std.specs.Prelude.{◌≡◌};
ghost use Rattle.frame_rules.specs.Frames.{plain, plain_body};
ghost use Rattle.frame_rules.specs.Whole.{refused_bytes, answer, on_link};
ghost use Rattle.wire_frames.specs.Answers.{AnswerIsFrame, LinkedIsFrame};

use express_words::Refusal;
use frame_rules::{Body, Frame};

/// Refuses bytes that are no frame that is taken: lane 0, serial 0.
pub fn refused_bytes(refusal: Refusal) -> Frame<'static>
    ensures { plain result ≡ refused_bytes refusal }
{
    Frame {
        lane: 0,
        serial: 0,
        link: 0,
        body: Body::Refused(refusal),
    }
}

/// Answers a client's frame, with its lane and serial.
pub fn answer<'a>(frame: &Frame<'_>, body: &Body<'a>) -> Frame<'a>
    ensures value { plain result ≡ answer (plain frame.now) (plain_body body.now) }
    ensures is_frame { AnswerIsFrame (plain frame.now) (plain_body body.now) (plain result) }
{
    Frame {
        lane: frame.lane,
        serial: frame.serial,
        link: 0,
        body: *body,
    }
}

/// A command or a reply under this link number, with the lane and serial of the frame that it follows.
pub fn on_link<'a>(frame: &Frame<'_>, number: u64, body: &Body<'a>) -> Frame<'a>
    ensures value { plain result ≡ on_link (plain frame.now) number (plain_body body.now) }
    ensures is_frame { LinkedIsFrame (plain frame.now) number (plain_body body.now) (plain result) }
{
    Frame {
        lane: frame.lane,
        serial: frame.serial,
        link: number,
        body: *body,
    }
}
