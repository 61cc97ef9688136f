//! Frames on an owner's lane by whose answers a server tells of itself.
ghost use Rattle.std.specs.Prelude.{◌≡◌};
ghost use Rattle.express_words.specs.Limits.{IsPart};
ghost use Rattle.frame_rules.specs.Frames.{plain};
ghost use Rattle.frame_rules.specs.Spelling.{IsFrame};
ghost use Rattle.owner_check.specs.Questions.{helper_question, leader_question, write_question};

use frame_rules::{Body, DepositBody, Frame};

/// A box that no server has.
pub(crate) const NO_BOX: u32 = u32::MAX;

// A read of a box that isn't there.
pub(crate) fn to_leader(lane: u16) -> Frame<'static>
    ensures frame { plain result ≡ leader_question lane }
    ensures is_frame { IsFrame (plain result) }
{
    Frame {
        lane,
        serial: 1,
        link: 0,
        body: Body::Read {
            box_number: NO_BOX,
            token: 0,
        },
    }
}

// A write with this public part.
pub(crate) fn with_part(lane: u16, part: &[u8]) -> Frame<'_>
    requires { IsPart part.now }
    ensures frame { plain result ≡ write_question lane part.now }
    ensures is_frame { IsFrame (plain result) }
{
    Frame {
        lane,
        serial: 1,
        link: 0,
        body: Body::Write { root: 0, part },
    }
}

// A deposit for a write.
pub(crate) fn to_helper(lane: u16) -> Frame<'static>
    ensures frame { plain result ≡ helper_question lane }
    ensures is_frame { IsFrame (plain result) }
{
    Frame {
        lane,
        serial: 1,
        link: 0,
        body: Body::Deposit(DepositBody::Write(0)),
    }
}
