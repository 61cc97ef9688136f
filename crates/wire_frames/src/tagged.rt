//! The bodies that begin with a tag. Each function is given the `left` bytes that the length leaves, and the
//! bytes behind the header.
ghost use Rattle.std.specs.Prelude.{◌≤◌, ◌-◌};
ghost use Rattle.frame_rules.specs.Frames.{plain_body};
ghost use Rattle.frame_rules.specs.Forms.{Gives, filled, tagged};
ghost use Rattle.frame_rules.specs.Bodies.{deposits, helds, dones, message, audited, replied};

use crate::bodies::{closing_in, openings_in};
use crate::fields::{exactly, first_of, key_of, u32_of, wide, word_in};
use crate::refusals::reply_refused_in;
use frame_rules::{Body, DepositBody, FrameFault, ReplyBody};

/// The offset of a tag.
const TAG: u32 = 20;

/// A deposit: of a register the key, of a write the helper's root, of a read the token.
#[tactic(auto, unfolding(frame_rules::specs::Forms::tagged, frame_rules::specs::Forms::chosen, frame_rules::specs::Forms::filled))]
pub fn deposit_in(left: usize, rest: &[u8]) -> Result<Body<'_>, FrameFault>
    requires { 1 ≤ left }
    ensures { Gives plain_body result (tagged 20 deposits left rest.now) }
{
    let (tag, rest) = first_of(rest)?;
    let deposit = match tag {
        1 => DepositBody::Register(key_of(exactly(32, left - 1, rest)?)),
        2 => DepositBody::Write(word_in(exactly(16, left - 1, rest)?)),
        3 => DepositBody::Read(word_in(exactly(16, left - 1, rest)?)),
        _ => return Err(FrameFault::Malformed(TAG)),
    };
    Ok(Body::Deposit(deposit))
}

/// That a deposit is held, or a share of a proof.
#[tactic(auto, unfolding(frame_rules::specs::Forms::tagged, frame_rules::specs::Forms::chosen, frame_rules::specs::Forms::filled))]
pub fn held_in(left: usize, rest: &[u8]) -> Result<Body<'_>, FrameFault>
    requires { 1 ≤ left }
    ensures { Gives plain_body result (tagged 20 helds left rest.now) }
{
    let (tag, rest) = first_of(rest)?;
    let proof = match tag {
        1 => false,
        2 => true,
        _ => return Err(FrameFault::Malformed(TAG)),
    };
    exactly(0, left - 1, rest)?;
    Ok(Body::Held { proof })
}

#[tactic(auto, unfolding(frame_rules::specs::Forms::filled))]
fn message_in(left: usize, rest: &[u8]) -> Result<Body<'_>, FrameFault>
    ensures { Gives plain_body result (filled message left rest.now) }
{
    let shares = wide(0, 2, left, rest)?;
    let (zero, one) = shares.split_at(shares.len() / 2);
    Ok(Body::Message { zero, one })
}

/// What a request came to.
#[tactic(auto, unfolding(frame_rules::specs::Forms::tagged, frame_rules::specs::Forms::chosen, frame_rules::specs::Forms::filled))]
pub fn done_in(left: usize, rest: &[u8]) -> Result<Body<'_>, FrameFault>
    requires { 1 ≤ left }
    ensures { Gives plain_body result (tagged 20 dones left rest.now) }
{
    let (tag, rest) = first_of(rest)?;
    match tag {
        1 => {
            let box_number = u32_of(exactly(4, left - 1, rest)?);
            Ok(Body::Registered { box_number })
        }
        2 => {
            exactly(0, left - 1, rest)?;
            Ok(Body::Accepted)
        }
        3 => message_in(left - 1, rest),
        _ => Err(FrameFault::Malformed(TAG)),
    }
}

#[tactic(auto, unfolding(frame_rules::specs::Forms::filled))]
fn audited_in(left: usize, rest: &[u8]) -> Result<Body<'_>, FrameFault>
    ensures { Gives plain_body result (filled audited left rest.now) }
{
    let (opened, closing) = exactly(64, left, rest)?.split_at(32);
    let answer = ReplyBody::Audited(openings_in(opened), closing_in(closing));
    Ok(Body::LinkReply(answer))
}

/// A reply of the helper to a command.
#[tactic(auto, unfolding(frame_rules::specs::Bodies::replied, frame_rules::specs::Forms::tagged, frame_rules::specs::Forms::chosen, frame_rules::specs::Forms::filled))]
pub fn reply_in(left: usize, rest: &[u8]) -> Result<Body<'_>, FrameFault>
    requires { 1 ≤ left }
    ensures { Gives plain_body result (replied left rest.now) }
{
    let (tag, rest) = first_of(rest)?;
    match tag {
        1 => {
            let box_number = u32_of(exactly(4, left - 1, rest)?);
            Ok(Body::LinkReply(ReplyBody::Registered(box_number)))
        }
        2 => {
            let count = u32_of(exactly(4, left - 1, rest)?);
            Ok(Body::LinkReply(ReplyBody::Begun(count)))
        }
        3 => audited_in(left - 1, rest),
        4 => {
            exactly(0, left - 1, rest)?;
            Ok(Body::LinkReply(ReplyBody::Accepted))
        }
        5 => {
            exactly(0, left - 1, rest)?;
            Ok(Body::LinkReply(ReplyBody::Rejected))
        }
        6 => {
            let share = wide(0, 1, left - 1, rest)?;
            Ok(Body::LinkReply(ReplyBody::Masked(share)))
        }
        7 => reply_refused_in(left - 1, rest),
        _ => Err(FrameFault::Malformed(TAG)),
    }
}
