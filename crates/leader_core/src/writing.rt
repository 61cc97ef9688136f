//! Frames that the leader writes.
ghost use Rattle.std.specs.Prelude.{◌≡◌, ◌+◌, ◌-◌, ◌^◌, ◌<◌, ◌≤◌, ℕ, true, length};
ghost use Rattle.frame_rules.specs.Frames.{plain, plain_body};
ghost use Rattle.frame_rules.specs.Kinds.{is_linked};
ghost use Rattle.frame_rules.specs.Spelling.{kind_of, spelling, IsBody, IsFrame, Spells};
ghost use Rattle.frame_rules.specs.Whole.{is_from_client, on_link};
ghost use Rattle.frame_rules.specs.Room.{HasRoom};
ghost use Rattle.link_order.specs.Link.{IsOutstanding};
ghost use Rattle.step_rules.specs.Leader.{Leader, Reply};
ghost use Rattle.leader_core.specs.Saying.{said_in, IsSaid};
ghost use Rattle.leader_core.specs.Commands.{with_command};
ghost use Rattle.leader_core.specs.Told.{WritesFront, IsTold};

use crate::said::SaidToClient;
use crate::turn::Turn;
use frame_rules::{Body, Frame};
use link_order::Outgoing;
use wire_frames::{answer, encode_into, on_link};

/// Writes a frame, and gives its length.
pub(crate) fn put_frame(frame: &Frame<'_>, out: &mut [u8]) -> usize
    requires is_frame { IsFrame (plain frame.now) }
    requires room { HasRoom out.old }
    ensures length { result ≡ length (spelling (plain frame.now)) }
    ensures front { WritesFront (spelling (plain frame.now)) out.old out.new }
{
    encode_into(frame, out)
}

/// Writes the reply to a client's bytes.
pub(crate) fn reply(reply: &Frame<'_>, out: &mut [u8]) -> Turn
    requires is_frame { IsFrame (plain reply.now) }
    requires room { HasRoom out.old }
    ensures { IsTold (Reply (plain reply.now)) result out.old out.new }
{
    Turn::Reply(put_frame(reply, out))
}

/// Writes what is said to a client's frame.
pub(crate) fn tell(frame: &Frame<'_>, said: &SaidToClient<'_>, out: &mut [u8]) -> Turn
    requires is_frame { IsFrame (plain frame.now) }
    requires class { is_from_client (plain_body frame.now.body) ≡ true }
    requires said { IsSaid said.now }
    requires room { HasRoom out.old }
    ensures { (a : Leader) → IsTold (said_in a (plain frame.now) said.now).answer result out.old out.new }
{
    match said {
        SaidToClient::Reply(body) => reply(&answer(frame, body), out),
        SaidToClient::Waiting(number) => Turn::Waiting(*number),
    }
}
