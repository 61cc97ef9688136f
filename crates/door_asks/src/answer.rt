//! What is answered, as bytes.
ghost use Rattle.std.specs.Prelude.{◌≡◌, ◌<◌, ◌∷◌, [], length, option_map, IfSome, IfNone};
ghost use Rattle.http_door.specs.Output.{IsPut};
ghost use Rattle.http_door.specs.Replies.{plain_reply};
ghost use Rattle.door_asks.specs.Answers.{alone, answer_bytes, answer_in, ended_in, refusal_in, reply_at};
ghost use Rattle.door_asks.specs.Answers.{reply_number, reply_rest};
ghost use Rattle.lane_leases.specs.Records.{end_number};

use crate::fault::{fault_byte, fault_of};
use crate::output::put_all;
use http_door::Reply;
use lane_leases::End;

// The number of its kind.
fn kind_of(reply: &Reply<'_>) -> u8
    ensures { result ≡ reply_number (plain_reply reply.now) }
{
    match reply {
        Reply::Frame(_) => 1,
        Reply::Lease { .. } => 2,
        Reply::NotYours => 3,
        Reply::Busy => 4,
        Reply::Preflight => 5,
        Reply::Refused(_) => 6,
        Reply::Ended(_) => 7,
    }
}

fn end_byte(end: End) -> &'static [u8]
    ensures { result.now ≡ end_number end ∷ [] }
{
    match end {
        End::Written => &[1],
        End::NotWritten => &[2],
    }
}

/// Writes an answer from the buffer's start on, and tells how many bytes it is. None: it doesn't fit.
pub fn write_answer(reply: &Reply<'_>, out: &mut [u8]) -> Option<usize>
    ensures written { IfSome result (λ n. IsPut out.old out.new (answer_bytes (plain_reply reply.now)) n) }
    ensures short { IfNone result (length out.old < length (answer_bytes (plain_reply reply.now))) }
{
    let kind = [kind_of(reply)];
    match *reply {
        Reply::Frame(frame) => put_all(out, &[&kind, frame, b""]),
        Reply::Lease { lane, serial } => {
            let lane = lane.to_be_bytes();
            let serial = serial.to_be_bytes();
            put_all(out, &[&kind, &lane, &serial])
        }
        Reply::NotYours | Reply::Busy | Reply::Preflight => put_all(out, &[&kind, b"", b""]),
        Reply::Refused(why) => put_all(out, &[&kind, fault_byte(why), b""]),
        Reply::Ended(end) => put_all(out, &[&kind, end_byte(end), b""]),
    }
}

fn refusal_of(rest: &[u8]) -> Option<Reply<'_>>
    ensures { option_map plain_reply result ≡ refusal_in rest.now }
{
    let [number] = rest else {
        return None;
    };
    Some(Reply::Refused(fault_of(*number)?))
}

fn ended_of(rest: &[u8]) -> Option<Reply<'_>>
    ensures { option_map plain_reply result ≡ ended_in rest.now }
{
    match rest {
        [1] => Some(Reply::Ended(End::Written)),
        [2] => Some(Reply::Ended(End::NotWritten)),
        _ => None,
    }
}

// This answer, where nothing follows.
fn alone<'a>(reply: Reply<'a>, rest: &[u8]) -> Option<Reply<'a>>
    ensures { option_map plain_reply result ≡ alone (plain_reply reply.entry) rest.now }
{
    if rest.is_empty() { Some(reply) } else { None }
}

fn reply_at(kind: u8, rest: &[u8]) -> Option<Reply<'_>>
    ensures { option_map plain_reply result ≡ reply_at kind rest.now }
{
    match kind {
        1 => Some(Reply::Frame(rest)),
        2 => Reply::lease_in(rest),
        3 => alone(Reply::NotYours, rest),
        4 => alone(Reply::Busy, rest),
        5 => alone(Reply::Preflight, rest),
        6 => refusal_of(rest),
        7 => ended_of(rest),
        _ => None,
    }
}

/// The answer that these bytes are.
pub fn read_answer(bytes: &[u8]) -> Option<Reply<'_>>
    ensures { option_map plain_reply result ≡ answer_in bytes.now }
{
    let [kind, rest @ ..] = bytes else {
        return None;
    };
    reply_at(*kind, rest)
}
