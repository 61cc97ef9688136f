//! The bodies that have no tag. Each function is given the `left` bytes that the length leaves, and the bytes
//! behind the header.
ghost use Rattle.std.specs.Prelude.{◌≡◌, ◌+◌, ◌≤◌, length};
ghost use Rattle.std.specs.Int.{w32};
ghost use Rattle.frame_rules.specs.Frames.{Read, Retire, Challenge, LinkRead, LinkRetire, plain_body};
ghost use Rattle.frame_rules.specs.Forms.{Gives, filled, number, key};
ghost use Rattle.frame_rules.specs.Bodies.{openings_in, closing_in, words_of, proof_share_of};
ghost use Rattle.frame_rules.specs.Bodies.{register, write, boxed, proof};
ghost use Rattle.frame_rules.specs.Bodies.{link_register, link_begin, link_audit, link_settle, link_begun};

use crate::fields::{address_of, exactly, key_of, u32_of, wide, word_in};
use express_words::{Closing, Openings, ProofShare};
use frame_rules::{Body, FrameFault};

/// The register of a client at the leader: an address (16 bytes) and the owner's key (32).
#[tactic(auto, unfolding(frame_rules::specs::Forms::filled))]
pub fn register_in(left: usize, rest: &[u8]) -> Result<Body<'_>, FrameFault>
    ensures { Gives plain_body result (filled register left rest.now) }
{
    let (address, key) = exactly(48, left, rest)?.split_at(16);
    Ok(Body::Register {
        address: address_of(address),
        key: key_of(key),
    })
}

/// The write of a client at the leader: its root (16 bytes) and the public part, as long as it is.
#[tactic(auto, unfolding(frame_rules::specs::Forms::filled))]
pub fn write_in(left: usize, rest: &[u8]) -> Result<Body<'_>, FrameFault>
    ensures { Gives plain_body result (filled write left rest.now) }
{
    let (root, part) = wide(2080, 1, left, rest)?.split_at(16);
    Ok(Body::Write {
        root: word_in(root),
        part,
    })
}

/// The read of a client at the leader: a box (4 bytes) and the token (16).
#[tactic(auto, unfolding(frame_rules::specs::Forms::filled))]
pub fn read_in(left: usize, rest: &[u8]) -> Result<Body<'_>, FrameFault>
    ensures { Gives plain_body result (filled (boxed Read) left rest.now) }
{
    let (box_number, token) = exactly(20, left, rest)?.split_at(4);
    Ok(Body::Read {
        box_number: u32_of(box_number),
        token: word_in(token),
    })
}

/// The retire of a client at the leader: a box (4 bytes) and the token (16).
#[tactic(auto, unfolding(frame_rules::specs::Forms::filled))]
pub fn retire_in(left: usize, rest: &[u8]) -> Result<Body<'_>, FrameFault>
    ensures { Gives plain_body result (filled (boxed Retire) left rest.now) }
{
    let (box_number, token) = exactly(20, left, rest)?.split_at(4);
    Ok(Body::Retire {
        box_number: u32_of(box_number),
        token: word_in(token),
    })
}

/// Openings: d, e, each 16 bytes, little-endian.
pub fn openings_in(bytes: &[u8]) -> Openings
    requires { length bytes.now ≡ 32 }
    ensures { result ≡ openings_in bytes.now }
{
    let (d, e) = bytes.split_at(16);
    Openings {
        d: word_in(d),
        e: word_in(e),
    }
}

/// A closing: o, tau, each 16 bytes, little-endian.
pub fn closing_in(bytes: &[u8]) -> Closing
    requires { length bytes.now ≡ 32 }
    ensures { result ≡ closing_in bytes.now }
{
    let (o, tau) = bytes.split_at(16);
    Closing {
        o: word_in(o),
        tau: word_in(tau),
    }
}

fn five_words_of(bytes: &[u8]) -> [u128; 5]
    requires { length bytes.now ≡ 80 }
    ensures { result ≡ words_of 5 bytes.now }
{
    let (first, rest) = bytes.split_at(16);
    let (second, rest) = rest.split_at(16);
    let (third, rest) = rest.split_at(16);
    let (fourth, rest) = rest.split_at(16);
    let (fifth, _) = rest.split_at(16);
    [
        word_in(first),
        word_in(second),
        word_in(third),
        word_in(fourth),
        word_in(fifth),
    ]
}

fn proof_share_of(bytes: &[u8]) -> ProofShare
    requires { length bytes.now ≡ 160 }
    ensures { result ≡ proof_share_of bytes.now }
{
    let (u, rest) = bytes.split_at(16);
    let (v, rest) = rest.split_at(16);
    let (h, rest) = rest.split_at(80);
    let (a, rest) = rest.split_at(16);
    let (b, c) = rest.split_at(16);
    ProofShare {
        u: word_in(u),
        v: word_in(v),
        h: five_words_of(h),
        a: word_in(a),
        b: word_in(b),
        c: word_in(c),
    }
}

/// A share of a proof, 160 bytes.
#[tactic(auto, unfolding(frame_rules::specs::Forms::filled))]
pub fn proof_in(left: usize, rest: &[u8]) -> Result<Body<'_>, FrameFault>
    ensures { Gives plain_body result (filled proof left rest.now) }
{
    let share = exactly(160, left, rest)?;
    Ok(Body::Proof(proof_share_of(share)))
}

/// The key of the challenges, 32 bytes.
#[tactic(auto, unfolding(frame_rules::specs::Forms::filled))]
pub fn challenge_in(left: usize, rest: &[u8]) -> Result<Body<'_>, FrameFault>
    ensures { Gives plain_body result (filled (key Challenge) left rest.now) }
{
    let ckey = exactly(32, left, rest)?;
    Ok(Body::Challenge { ckey: key_of(ckey) })
}

/// The command to register a box under an address (16 bytes).
#[tactic(auto, unfolding(frame_rules::specs::Forms::filled))]
pub fn link_register_in(left: usize, rest: &[u8]) -> Result<Body<'_>, FrameFault>
    ensures { Gives plain_body result (filled link_register left rest.now) }
{
    let address = exactly(16, left, rest)?;
    Ok(Body::LinkRegister {
        address: address_of(address),
    })
}

/// The command to begin a write: the leader's draw (32 bytes) and the public part.
#[tactic(auto, unfolding(frame_rules::specs::Forms::filled))]
pub fn link_begin_in(left: usize, rest: &[u8]) -> Result<Body<'_>, FrameFault>
    ensures { Gives plain_body result (filled link_begin left rest.now) }
{
    let (ckey, part) = wide(2096, 1, left, rest)?.split_at(32);
    Ok(Body::LinkBegin {
        ckey: key_of(ckey),
        part,
    })
}

/// The command to audit a write: the point (16 bytes) and the leader's openings (32).
#[tactic(auto, unfolding(frame_rules::specs::Forms::filled))]
pub fn link_audit_in(left: usize, rest: &[u8]) -> Result<Body<'_>, FrameFault>
    ensures { Gives plain_body result (filled link_audit left rest.now) }
{
    let (sigma, opened) = exactly(48, left, rest)?.split_at(16);
    Ok(Body::LinkAudit {
        sigma: word_in(sigma),
        opened: openings_in(opened),
    })
}

/// The command to settle a write, with the leader's closing (32 bytes).
#[tactic(auto, unfolding(frame_rules::specs::Forms::filled))]
pub fn link_settle_in(left: usize, rest: &[u8]) -> Result<Body<'_>, FrameFault>
    ensures { Gives plain_body result (filled link_settle left rest.now) }
{
    let closing = exactly(32, left, rest)?;
    Ok(Body::LinkSettle(closing_in(closing)))
}

/// The command to read a box (4 bytes).
#[tactic(auto, unfolding(frame_rules::specs::Forms::filled))]
pub fn link_read_in(left: usize, rest: &[u8]) -> Result<Body<'_>, FrameFault>
    ensures { Gives plain_body result (filled (number w32 LinkRead) left rest.now) }
{
    let box_number = exactly(4, left, rest)?;
    Ok(Body::LinkRead {
        box_number: u32_of(box_number),
    })
}

/// The command to retire a box (4 bytes).
#[tactic(auto, unfolding(frame_rules::specs::Forms::filled))]
pub fn link_retire_in(left: usize, rest: &[u8]) -> Result<Body<'_>, FrameFault>
    ensures { Gives plain_body result (filled (number w32 LinkRetire) left rest.now) }
{
    let box_number = exactly(4, left, rest)?;
    Ok(Body::LinkRetire {
        box_number: u32_of(box_number),
    })
}

/// The reply to a begun write: the count of boxes (4 bytes) and the helper's draw (32).
#[tactic(auto, unfolding(frame_rules::specs::Forms::filled))]
pub fn link_begun_in(left: usize, rest: &[u8]) -> Result<Body<'_>, FrameFault>
    ensures { Gives plain_body result (filled link_begun left rest.now) }
{
    let (count, draw) = exactly(36, left, rest)?.split_at(4);
    Ok(Body::LinkBegun {
        count: u32_of(count),
        draw: key_of(draw),
    })
}
