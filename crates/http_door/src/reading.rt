//! An answer as a client reads it.
ghost use Rattle.std.specs.Prelude.{◌≡◌, ◌<◌, None, Ok, length, option_map};
ghost use Rattle.httparse.specs.Grammar.{ResponseHead};
ghost use Rattle.httparse.specs.Spans.{IsResponseAt, IsResponseWithin};
ghost use Rattle.http_door.specs.Reading.{IsRead, done_at, ended_in, fault_of_status, plain_read, reply_at};
ghost use Rattle.http_door.specs.Reading.{reply_of, undone_by};
ghost use Rattle.http_door.specs.Replies.{plain_reply};

use crate::fault::DoorFault;
use crate::fields::has_octets;
use crate::limits::FIELDS_MAX;
use crate::reply::{Reply, end_text};
use crate::reply_fault::ReplyFault;
use crate::request::Path;
use crate::response::{find_response, reply_len};
use httparse::spans::{EMPTY_HEADER_SPAN, HeaderSpan, ResponseSpans};
use lane_leases::End;

fn fault_of(status: u16) -> Option<DoorFault>
    ensures { result ≡ fault_of_status status }
{
    match status {
        400 => Some(DoorFault::Malformed),
        404 => Some(DoorFault::NoPath),
        405 => Some(DoorFault::Method),
        411 => Some(DoorFault::NoLength),
        413 => Some(DoorFault::LongBody),
        415 => Some(DoorFault::NotOctets),
        431 => Some(DoorFault::LongHead),
        _ => None,
    }
}

fn undone_by(status: u16) -> Option<Reply<'static>>
    ensures { option_map plain_reply result ≡ undone_by status }
{
    match status {
        409 => Some(Reply::NotYours),
        503 => Some(Reply::Busy),
        204 => Some(Reply::Preflight),
        _ => Some(Reply::Refused(fault_of(status)?)),
    }
}

fn ended_in(body: &[u8]) -> Option<Reply<'static>>
    ensures { option_map plain_reply result ≡ ended_in body.now }
{
    if body == end_text(End::Written) {
        Some(Reply::Ended(End::Written))
    } else if body == end_text(End::NotWritten) {
        Some(Reply::Ended(End::NotWritten))
    } else {
        None
    }
}

fn done_at(path: Path, body: &[u8]) -> Option<Reply<'_>>
    ensures { option_map plain_reply result ≡ done_at path body.now }
{
    match path {
        Path::Frame | Path::Proof => Some(Reply::Frame(body)),
        Path::Lease => Reply::lease_in(body),
    }
}

fn reply_at(path: Path, status: u16, octets: bool, body: &[u8]) -> Option<Reply<'_>>
    ensures { option_map plain_reply result ≡ reply_at path status octets body.now }
{
    match status {
        200 if octets => done_at(path, body),
        200 => None,
        410 => ended_in(body),
        _ => undone_by(status),
    }
}

// What a head with this body answers.
fn reply_of<'a>(
    path: Path,
    held: &[u8],
    spans: &[HeaderSpan],
    at: &ResponseSpans,
    body: &'a [u8],
) -> Option<Reply<'a>>
    requires { IsResponseWithin held.now spans.now at.now }
    ensures { (head : ResponseHead) → IsResponseAt held.now spans.now at.now head
        → option_map plain_reply result ≡ reply_of path head body.now }
{
    let octets = has_octets(held, &spans[..at.headers]);
    reply_at(path, at.code, octets, body)
}

/// The answer that the bytes begin with to what was asked at this path; what follows it changes nothing.
/// None: more must come. That is never so of 12,358 bytes, a head and a body.
pub fn read_reply(path: Path, held: &[u8]) -> Result<Option<Reply<'_>>, ReplyFault>
    ensures read { IsRead path held.now (plain_read result) }
    ensures short { result ≡ Ok None → length held.now < 12358 }
{
    let mut spans = [EMPTY_HEADER_SPAN; FIELDS_MAX];
    let Some(at) = find_response(held, &mut spans)? else {
        return Ok(None);
    };
    let Some(size) = reply_len(held, &spans, &at) else {
        return Err(ReplyFault::Malformed);
    };
    let after = &held[at.len..];
    if after.len() < size {
        return Ok(None);
    }
    match reply_of(path, held, &spans, &at, &after[..size]) {
        Some(reply) => Ok(Some(reply)),
        None => Err(ReplyFault::Foreign(at.code)),
    }
}
