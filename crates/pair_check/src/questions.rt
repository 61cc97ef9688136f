//! Frames that each server refuses, and by whose refusal it tells of itself.
ghost use Rattle.std.specs.Prelude.{◌≡◌};
ghost use Rattle.express_words.specs.Limits.{IsPart};
ghost use Rattle.frame_rules.specs.Frames.{plain};
ghost use Rattle.frame_rules.specs.Spelling.{IsFrame};
ghost use Rattle.pair_check.specs.Questions.{helper_question, write_question};

use frame_rules::{Body, DepositBody, Frame};

/// A lane that no server has.
const NO_LANE: u16 = u16::MAX;

// A write with this public part. A leader of another width says so; one of this width says how many lanes it has.
pub(crate) fn to_leader(part: &[u8]) -> Frame<'_>
    requires { IsPart part.now }
    ensures frame { plain result ≡ write_question part.now }
    ensures is_frame { IsFrame (plain result) }
{
    Frame {
        lane: NO_LANE,
        serial: 1,
        link: 0,
        body: Body::Write { root: 0, part },
    }
}

// A deposit for a write. The helper says how many lanes it has.
pub(crate) fn to_helper() -> Frame<'static>
    ensures frame { plain result ≡ helper_question }
    ensures is_frame { IsFrame (plain result) }
{
    Frame {
        lane: NO_LANE,
        serial: 1,
        link: 0,
        body: Body::Deposit(DepositBody::Write(0)),
    }
}
