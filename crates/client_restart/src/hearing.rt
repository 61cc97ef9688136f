//! Which requests and replies are kept.
ghost use Rattle.std.specs.Prelude.{◌≡◌, ◌≤◌, ◌<◌, ◌^◌, ◌↔◌, IsTrue, IsOk, length};
ghost use Rattle.frame_rules.specs.Whole.{whole as whole_of};
ghost use Rattle.client_restart.specs.Hears.{makes_step};
ghost use Rattle.client_restart.specs.Notes.{IsNote, asked_note, plain_note};

use crate::note::Note;
use client_core::{Progress, Request};
use wire_frames::whole;

/// Whether a reply makes a step.
pub(crate) fn makes_step(progress: &Progress) -> bool
    ensures { result ≡ makes_step progress.now }
{
    match progress {
        Progress::Ignored => false,
        Progress::Later(_) => false,
        Progress::Next => true,
        Progress::Finished(_) => true,
    }
}

/// Whether the bytes are exactly one frame.
#[tactic(auto, using(frame_rules::proofs::GrammarLaws::spelling_limit))]
pub(crate) fn is_one_frame(bytes: &[u8]) -> bool
    ensures exact { IsTrue result ↔ IsOk (whole_of bytes.now) }
    ensures few { IsTrue result → length bytes.now ≤ 8213 }
{
    whole(bytes).is_ok()
}

// A number of 128 bits, which is in their range.
fn address_of(number: u128) -> u128
    ensures same { result ≡ number }
    ensures fits { result < 2 ^ 128 }
{
    number
}

// A number of 32 bits, which is in their range.
fn own_of(number: u32) -> u32
    ensures same { result ≡ number }
    ensures fits { result < 2 ^ 32 }
{
    number
}

/// The note that a request was asked.
pub(crate) fn asked_note<'a>(request: &Request<'a>) -> Note<'a>
    ensures note { plain_note result ≡ asked_note request.now }
    ensures is { IsNote (plain_note result) }
{
    match *request {
        Request::Register { address } => Note::Asked(Request::Register {
            address: address_of(address),
        }),
        Request::Write { target, message } => Note::Asked(Request::Write {
            target: address_of(target),
            message,
        }),
        Request::Read { own } => Note::Asked(Request::Read { own: own_of(own) }),
        Request::Retire { own } => Note::Asked(Request::Retire { own: own_of(own) }),
    }
}
