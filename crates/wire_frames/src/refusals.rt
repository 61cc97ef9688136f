//! Refusals, by their number.
ghost use Rattle.std.specs.Prelude.{◌≡◌, ◌≤◌, length};
ghost use Rattle.frame_rules.specs.Frames.{plain_body};
ghost use Rattle.frame_rules.specs.Forms.{Gives, tagged};
ghost use Rattle.frame_rules.specs.Bodies.{rejected_of, refusals, addressed, refused, reply_refused};

use crate::fields::{exactly, first_of, u8_of, u16_of, u32_of, u64_of, word_in};
use express_words::Refusal;
use frame_rules::{Body, FrameFault, ReplyBody};

fn rejected_of(bytes: &[u8]) -> Refusal
    requires { length bytes.now ≡ 64 }
    ensures { result ≡ rejected_of bytes.now }
{
    let (o_0, rest) = bytes.split_at(16);
    let (o_1, rest) = rest.split_at(16);
    let (tau_0, tau_1) = rest.split_at(16);
    Refusal::Rejected(word_in(o_0), word_in(o_1), word_in(tau_0), word_in(tau_1))
}

/// The refusal whose number is at `place`.
#[tactic(auto, unfolding(frame_rules::specs::Forms::tagged, frame_rules::specs::Forms::chosen, frame_rules::specs::Forms::filled))]
fn refusal_in(place: u32, left: usize, rest: &[u8]) -> Result<Refusal, FrameFault>
    requires { 1 ≤ left }
    ensures { Gives (λ r. r) result (tagged place refusals left rest.now) }
{
    let (number, rest) = first_of(rest)?;
    let left = left - 1;
    Ok(match number {
        1 => Refusal::Malformed(u32_of(exactly(4, left, rest)?)),
        2 => Refusal::Version(u8_of(exactly(1, left, rest)?)),
        3 => Refusal::Lane(u16_of(exactly(2, left, rest)?)),
        4 => Refusal::Stale(u32_of(exactly(4, left, rest)?)),
        5 => Refusal::Phase(u8_of(exactly(1, left, rest)?)),
        6 => Refusal::Taken(u32_of(exactly(4, left, rest)?)),
        7 => Refusal::Full(u32_of(exactly(4, left, rest)?)),
        8 => Refusal::NoBox(u32_of(exactly(4, left, rest)?)),
        9 => Refusal::BadToken(u32_of(exactly(4, left, rest)?)),
        10 => {
            exactly(0, left, rest)?;
            Refusal::NoDeposit
        }
        11 => {
            exactly(0, left, rest)?;
            Refusal::NotProved
        }
        12 => rejected_of(exactly(64, left, rest)?),
        13 => Refusal::Again(u64_of(exactly(8, left, rest)?)),
        14 => Refusal::LinkDown(u64_of(exactly(8, left, rest)?)),
        _ => return Err(FrameFault::Malformed(place)),
    })
}

/// Judges lane and serial by the refusal's number.
#[tactic(auto, unfolding(frame_rules::specs::Bodies::addressed))]
fn addressed(number: u8, lane: u16, serial: u32) -> Result<(), FrameFault>
    ensures { Gives (λ _. tt) result (addressed number lane serial) }
{
    if number <= 2 {
        if lane != 0 {
            return Err(FrameFault::Malformed(6));
        }
        if serial != 0 {
            return Err(FrameFault::Malformed(8));
        }
    } else if serial == 0 {
        return Err(FrameFault::Malformed(8));
    }
    Ok(())
}

/// A refusal of a lane's serial: a number (1 byte) and what belongs to it.
#[tactic(auto, unfolding(frame_rules::specs::Bodies::refused))]
pub fn refused_in(lane: u16, serial: u32, left: usize, rest: &[u8]) -> Result<Body<'_>, FrameFault>
    requires { 1 ≤ left }
    ensures { Gives plain_body result (refused lane serial left rest.now) }
{
    let (number, _) = first_of(rest)?;
    if number < 1 || number > 14 {
        return Err(FrameFault::Malformed(20));
    }
    addressed(number, lane, serial)?;
    let refusal = refusal_in(20, left, rest)?;
    Ok(Body::Refused(refusal))
}

/// A refusal in a reply, behind its tag.
#[tactic(auto, unfolding(frame_rules::specs::Bodies::reply_refused))]
pub fn reply_refused_in(left: usize, rest: &[u8]) -> Result<Body<'_>, FrameFault>
    ensures { Gives plain_body result (reply_refused left rest.now) }
{
    // A length that ends before the number is the fault, and the number isn't judged.
    if left == 0 {
        return Err(FrameFault::Malformed(0));
    }
    let (number, _) = first_of(rest)?;
    if !(number == 3 || number >= 6 && number <= 11) {
        return Err(FrameFault::Malformed(21));
    }
    let refusal = refusal_in(21, left, rest)?;
    Ok(Body::LinkReply(ReplyBody::Refused(refusal)))
}
