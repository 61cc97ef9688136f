//! Reading the frame that begins some bytes.
ghost use Rattle.std.specs.Prelude.{◌≤◌, ◌<◌, ◌≡◌, ◌≢◌, ℕ, length, take, IfOk, IfErr, Ok, Err};
ghost use Rattle.frame_rules.specs.Frames.{PlainFrame, plain, plain_body};
ghost use Rattle.frame_rules.specs.Spelling.{Spells, spelling};
ghost use Rattle.frame_rules.specs.Forms.{Gives};
ghost use Rattle.frame_rules.specs.Bodies.{body_in};
ghost use Rattle.frame_rules.specs.Reading.{decoded, Reads};
ghost use Rattle.frame_rules.specs.Fields.{fields, FirstWrong};
ghost use Rattle.frame_rules.specs.declared.fault.FrameFault.{FrameFault as Fault};
ghost use Rattle.wire_frames.specs.Fronts.{OnFront};

use crate::FRAME_MAX;
use crate::bodies::{
    challenge_in, link_audit_in, link_begin_in, link_begun_in, link_read_in, link_register_in,
    link_retire_in, link_settle_in, proof_in, read_in, register_in, retire_in, write_in,
};
use crate::header::Header;
use crate::refusals::refused_in;
use crate::tagged::{deposit_in, done_in, held_in, reply_in};
use frame_rules::{Body, Frame, FrameFault, Kind};

fn body_in<'a>(header: &Header, rest: &'a [u8]) -> Result<Body<'a>, FrameFault>
    requires { 1 ≤ header.now.left }
    ensures { Gives plain_body result
        (body_in header.now.kind header.now.lane header.now.serial header.now.left rest.now) }
{
    let left = header.left;
    match header.kind {
        Kind::Deposit => deposit_in(left, rest),
        Kind::Register => register_in(left, rest),
        Kind::Write => write_in(left, rest),
        Kind::Read => read_in(left, rest),
        Kind::Proof => proof_in(left, rest),
        Kind::Held => held_in(left, rest),
        Kind::Challenge => challenge_in(left, rest),
        Kind::Done => done_in(left, rest),
        Kind::Refused => refused_in(header.lane, header.serial, left, rest),
        Kind::LinkRegister => link_register_in(left, rest),
        Kind::LinkBegin => link_begin_in(left, rest),
        Kind::LinkAudit => link_audit_in(left, rest),
        Kind::LinkSettle => link_settle_in(left, rest),
        Kind::LinkRead => link_read_in(left, rest),
        Kind::LinkReply => reply_in(left, rest),
        Kind::Retire => retire_in(left, rest),
        Kind::LinkRetire => link_retire_in(left, rest),
        Kind::LinkBegun => link_begun_in(left, rest),
    }
}

#[tactic(auto, unfolding(frame_rules::specs::Reading::decoded))]
fn frame_in(bytes: &[u8]) -> Result<(Frame<'_>, usize), FrameFault>
    ensures { Reads result (decoded bytes.now) }
{
    let header = Header::of(bytes)?;
    let body = body_in(&header, &bytes[20..])?;
    let frame = Frame {
        lane: header.lane,
        serial: header.serial,
        link: header.link,
        body,
    };
    Ok((frame, 20 + header.left))
}

/// The frame that begins the bytes, and its length in bytes. More bytes may follow it.
pub fn decode(bytes: &[u8]) -> Result<(Frame<'_>, usize), FrameFault>
    // The fields are judged in the order of the format, and a fault is the first wrong one.
    ensures exact { Reads result (decoded bytes.now) }
    // A fault but for Short is the first wrong field's, and the first wrong field's fault is the one that
    // comes.
    ensures wrong { IfErr result (λ fault. fault ≢ FrameFault.Short → FirstWrong fields bytes.now fault) }
    ensures only_wrong { (fault : Fault) → FirstWrong fields bytes.now fault → result ≡ Err fault }
    // What is read is spelled so.
    ensures found { IfOk result (λ x. Spells (plain x.0) (take x.1 bytes.now)) }
    ensures within { IfOk result (λ x. (x.1 ≤ length bytes.now) × (x.1 ≤ FRAME_MAX)) }
    ensures length { IfOk result (λ x. x.1 ≡ length (spelling (plain x.0))) }
    // What is spelled so is read.
    ensures only { (f : PlainFrame) (len : ℕ) → len ≤ length bytes.now → Spells f (take len bytes.now)
        → Reads result (Ok (f, len)) }
    // Bytes that are short are fewer than the longest frame has.
    ensures fewer { result ≡ Err FrameFault.Short → length bytes.now < FRAME_MAX }
    // A front of a frame is short.
    ensures short { OnFront bytes.now (result ≡ Err FrameFault.Short) }
{
    frame_in(bytes)
}
