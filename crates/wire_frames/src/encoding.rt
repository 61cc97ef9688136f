//! Writing a frame. Each function is given the place to write at, and answers the place behind.
ghost use Rattle.std.specs.Prelude.{◌≡◌, ◌+◌, ◌≤◌, ℕ, List, ◌∷◌, ◌++◌, length, take, drop, Ok};
ghost use Rattle.std.specs.Int.{w16, w32, w64, to_be_bytes};
ghost use Rattle.frame_rules.specs.Frames.{plain, plain_body, plain_reply};
ghost use Rattle.frame_rules.specs.Spelling.{word, address, openings, closing, refusal, deposit, reply};
ghost use Rattle.frame_rules.specs.Spelling.{body, header, spelling, IsDeposit, IsBody, IsFrame, Spells};
ghost use Rattle.frame_rules.specs.Reading.{decoded};
ghost use Rattle.wire_frames.specs.Writing.{Writes};

use crate::FRAME_MAX;
use crate::kinds::{kind_number, kind_of, version_of};
use crate::tags::{
    put_tag, put_tag_bytes, put_tag_u8, put_tag_u16, put_tag_u32, put_tag_u64, put_tag_word,
};
use crate::writing::{
    put, put_address, put_closing, put_openings, put_proof_share, put_u16, put_u32, put_u64,
    put_word,
};
use express_words::{Closing, Openings, Refusal};
use frame_rules::{Body, DepositBody, Frame, Kind, ReplyBody};

fn put_rejected(
    out: &mut [u8],
    place: usize,
    o_0: u128,
    o_1: u128,
    tau_0: u128,
    tau_1: u128,
) -> usize
    requires { place + 65 ≤ length out.old }
    ensures { Writes out.old place
        (12 ∷ word o_0 ++ (word o_1 ++ (word tau_0 ++ word tau_1))) out.new result }
{
    let place = put_tag_word(out, place, 12, o_0);
    let place = put_word(out, place, o_1);
    let place = put_word(out, place, tau_0);
    put_word(out, place, tau_1)
}

#[tactic(auto, using(frame_rules::proofs::BodyFields::word_len))]
fn put_refusal(out: &mut [u8], place: usize, refused: &Refusal) -> usize
    requires { place + length (refusal refused.now) ≤ length out.old }
    ensures { Writes out.old place (refusal refused.now) out.new result }
{
    match *refused {
        Refusal::Malformed(at) => put_tag_u32(out, place, 1, at),
        Refusal::Version(version) => put_tag_u8(out, place, 2, version),
        Refusal::Lane(limit) => put_tag_u16(out, place, 3, limit),
        Refusal::Stale(serial) => put_tag_u32(out, place, 4, serial),
        Refusal::Phase(phase) => put_tag_u8(out, place, 5, phase),
        Refusal::Taken(box_number) => put_tag_u32(out, place, 6, box_number),
        Refusal::Full(limit) => put_tag_u32(out, place, 7, limit),
        Refusal::NoBox(box_number) => put_tag_u32(out, place, 8, box_number),
        Refusal::BadToken(box_number) => put_tag_u32(out, place, 9, box_number),
        Refusal::NoDeposit => put_tag(out, place, 10),
        Refusal::NotProved => put_tag(out, place, 11),
        Refusal::Rejected(o_0, o_1, tau_0, tau_1) => {
            put_rejected(out, place, o_0, o_1, tau_0, tau_1)
        }
        Refusal::Again(number) => put_tag_u64(out, place, 13, number),
        Refusal::LinkDown(count) => put_tag_u64(out, place, 14, count),
    }
}

#[tactic(auto, using(frame_rules::proofs::BodyFields::word_len))]
fn put_deposit(out: &mut [u8], place: usize, held: &DepositBody) -> usize
    requires fits { IsDeposit held.now }
    requires room { place + length (deposit held.now) ≤ length out.old }
    ensures { Writes out.old place (deposit held.now) out.new result }
{
    match *held {
        DepositBody::Register(key) => put_tag_bytes(out, place, 1, &key),
        DepositBody::Write(root) => put_tag_word(out, place, 2, root),
        DepositBody::Read(token) => put_tag_word(out, place, 3, token),
    }
}

fn put_audited(out: &mut [u8], place: usize, opened: &Openings, closed: &Closing) -> usize
    requires { place + 65 ≤ length out.old }
    ensures { Writes out.old place (3 ∷ openings opened.now ++ closing closed.now) out.new result }
{
    let place = put_tag(out, place, 3);
    let place = put_openings(out, place, opened);
    put_closing(out, place, closed)
}

fn put_reply_refused(out: &mut [u8], place: usize, refused: &Refusal) -> usize
    requires { place + (1 + length (refusal refused.now)) ≤ length out.old }
    ensures { Writes out.old place (7 ∷ refusal refused.now) out.new result }
{
    let place = put_tag(out, place, 7);
    put_refusal(out, place, refused)
}

fn put_reply(out: &mut [u8], place: usize, answer: &ReplyBody<'_>) -> usize
    requires { place + length (reply (plain_reply answer.now)) ≤ length out.old }
    ensures { Writes out.old place (reply (plain_reply answer.now)) out.new result }
{
    match *answer {
        ReplyBody::Registered(box_number) => put_tag_u32(out, place, 1, box_number),
        ReplyBody::Begun(count) => put_tag_u32(out, place, 2, count),
        ReplyBody::Audited(opened, closed) => put_audited(out, place, &opened, &closed),
        ReplyBody::Accepted => put_tag(out, place, 4),
        ReplyBody::Rejected => put_tag(out, place, 5),
        ReplyBody::Masked(share) => put_tag_bytes(out, place, 6, share),
        ReplyBody::Refused(refused) => put_reply_refused(out, place, &refused),
    }
}

fn put_address_key(out: &mut [u8], place: usize, at: u128, key: &[u8]) -> usize
    requires { place + (16 + length key.now) ≤ length out.old }
    ensures { Writes out.old place (address at ++ key.now) out.new result }
{
    let place = put_address(out, place, at);
    put(out, place, key)
}

fn put_word_bytes(out: &mut [u8], place: usize, first: u128, bytes: &[u8]) -> usize
    requires { place + (16 + length bytes.now) ≤ length out.old }
    ensures { Writes out.old place (word first ++ bytes.now) out.new result }
{
    let place = put_word(out, place, first);
    put(out, place, bytes)
}

fn put_u32_word(out: &mut [u8], place: usize, number: u32, second: u128) -> usize
    requires { place + 20 ≤ length out.old }
    ensures { Writes out.old place (to_be_bytes w32 number ++ word second) out.new result }
{
    let place = put_u32(out, place, number);
    put_word(out, place, second)
}

fn put_u32_bytes(out: &mut [u8], place: usize, number: u32, bytes: &[u8]) -> usize
    requires { place + (4 + length bytes.now) ≤ length out.old }
    ensures { Writes out.old place (to_be_bytes w32 number ++ bytes.now) out.new result }
{
    let place = put_u32(out, place, number);
    put(out, place, bytes)
}

fn put_two(out: &mut [u8], place: usize, first: &[u8], second: &[u8]) -> usize
    requires { place + (length first.now + length second.now) ≤ length out.old }
    ensures { Writes out.old place (first.now ++ second.now) out.new result }
{
    let place = put(out, place, first);
    put(out, place, second)
}

fn put_message(out: &mut [u8], place: usize, zero: &[u8], one: &[u8]) -> usize
    requires { place + (1 + (length zero.now + length one.now)) ≤ length out.old }
    ensures { Writes out.old place (3 ∷ zero.now ++ one.now) out.new result }
{
    let place = put_tag(out, place, 3);
    put_two(out, place, zero, one)
}

fn put_word_openings(out: &mut [u8], place: usize, sigma: u128, opened: &Openings) -> usize
    requires { place + 48 ≤ length out.old }
    ensures { Writes out.old place (word sigma ++ openings opened.now) out.new result }
{
    let place = put_word(out, place, sigma);
    put_openings(out, place, opened)
}

fn put_body(out: &mut [u8], place: usize, says: &Body<'_>) -> usize
    requires fits { IsBody (plain_body says.now) }
    requires room { place + length (body (plain_body says.now)) ≤ length out.old }
    ensures { Writes out.old place (body (plain_body says.now)) out.new result }
{
    match *says {
        Body::Deposit(held) => put_deposit(out, place, &held),
        Body::Register { address, key } => put_address_key(out, place, address, &key),
        Body::Write { root, part } => put_word_bytes(out, place, root, part),
        Body::Read { box_number, token } => put_u32_word(out, place, box_number, token),
        Body::Proof(share) => put_proof_share(out, place, &share),
        Body::Held { proof: false } => put_tag(out, place, 1),
        Body::Held { proof: true } => put_tag(out, place, 2),
        Body::Challenge { ckey } => put(out, place, &ckey),
        Body::Registered { box_number } => put_tag_u32(out, place, 1, box_number),
        Body::Accepted => put_tag(out, place, 2),
        Body::Message { zero, one } => put_message(out, place, zero, one),
        Body::Refused(refused) => put_refusal(out, place, &refused),
        Body::LinkRegister { address } => put_address(out, place, address),
        Body::LinkBegin { ckey, part } => put_two(out, place, &ckey, part),
        Body::LinkAudit { sigma, opened } => put_word_openings(out, place, sigma, &opened),
        Body::LinkSettle(closed) => put_closing(out, place, &closed),
        Body::LinkRead { box_number } => put_u32(out, place, box_number),
        Body::LinkReply(answer) => put_reply(out, place, &answer),
        Body::Retire { box_number, token } => put_u32_word(out, place, box_number, token),
        Body::LinkRetire { box_number } => put_u32(out, place, box_number),
        Body::LinkBegun { count, draw } => put_u32_bytes(out, place, count, &draw),
    }
}

fn put_header(out: &mut [u8], kind: Kind, lane: u16, serial: u32, link: u64, left: usize) -> usize
    requires left { left ≤ 8193 }
    requires room { 20 ≤ length out.old }
    ensures { Writes out.old 0 (header kind lane serial link left) out.new result }
{
    let place = put_u32(out, 0, 16 + left as u32);
    let place = put_tag_u8(out, place, version_of(kind), kind_number(kind));
    let place = put_u16(out, place, lane);
    let place = put_u32(out, place, serial);
    put_u64(out, place, link)
}

fn put_frame(out: &mut [u8], frame: &Frame<'_>) -> usize
    requires is_frame { IsFrame (plain frame.now) }
    requires room { length (spelling (plain frame.now)) ≤ length out.old }
    ensures { Writes out.old 0 (spelling (plain frame.now)) out.new result }
{
    let end = put_body(out, 20, &frame.body);
    let kind = kind_of(&frame.body);
    put_header(out, kind, frame.lane, frame.serial, frame.link, end - 20);
    end
}

/// Writes the one spelling of a frame at the front of `out`, and answers its length in bytes. FRAME_MAX bytes
/// have room for each frame.
pub fn encode_into(frame: &Frame<'_>, out: &mut [u8]) -> usize
    requires is_frame { IsFrame (plain frame.now) }
    requires room { length (spelling (plain frame.now)) ≤ length out.old }
    ensures length { result ≡ length (spelling (plain frame.now)) }
    ensures most { result ≤ FRAME_MAX }
    ensures spelled { Spells (plain frame.now) (take result out.new) }
    ensures rest { drop result out.new ≡ drop result out.old }
    // What was written is read again, whatever follows it.
    ensures again { (rest : List ℕ) → decoded (take result out.new ++ rest) ≡ Ok (plain frame.now, result) }
{
    put_frame(out, frame)
}
