//! What a server's answer says of it.
ghost use Rattle.std.specs.Prelude.{◌≡◌};
ghost use Rattle.frame_rules.specs.Reading.{decoded};
ghost use Rattle.pair_check.specs.Answers.{found_in};

use express_words::Refusal;
use frame_rules::Body;
use wire_frames::decode;

/// What a server says of itself.
#[derive(Clone, Copy, Debug, PartialEq, Eq)]
pub enum Found {
    /// It has so many lanes, from 0 on; and the width of the question, where the question has one.
    Lanes(u16),
    /// Its messages have another width.
    OtherWidth,
    /// None of the two: it is no server of this protocol, or one that doesn't answer as it should.
    Other,
}

// What these bytes say, which a server answered to a question.
pub(crate) fn found_in(reply: &[u8]) -> Found
    ensures { result ≡ found_in (decoded reply.now) }
{
    match decode(reply) {
        Ok((frame, _)) => match frame.body {
            Body::Refused(Refusal::Lane(lanes)) => Found::Lanes(lanes),
            Body::Refused(Refusal::Malformed(0)) => Found::OtherWidth,
            _ => Found::Other,
        },
        Err(_) => Found::Other,
    }
}
