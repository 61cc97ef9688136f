//! What is asked, as bytes.
ghost use Rattle.std.specs.Prelude.{◌≡◌, ◌∷◌, ◌++◌, ◌^◌, ◌≤◌, ◌<◌, length, drop, get_or, option_map, IfSome, IfNone};
ghost use Rattle.http_door.specs.Heads.{body_max};
ghost use Rattle.http_door.specs.Hearing.{plain_asked};
ghost use Rattle.http_door.specs.Output.{IsPut};
ghost use Rattle.http_door.specs.Requests.{plain_request, request_body};
ghost use Rattle.door_asks.specs.Asks.{LacksRoom, ask_bytes, ask_end, asked_body, asked_at, asked_in, kind_number, preflight_in, refused_in, request_in, stated_len};

use crate::fault::{fault_byte, fault_of};
use crate::output::put_all;
use http_door::limits::BODY_MAX;
use http_door::{Asked, Path, Request};

/// The most bytes of an ask: its kind, its length, and a body.
pub const ASK_MAX: usize = 3 + BODY_MAX;

// The number of its kind.
fn kind_of(asked: &Asked<'_>) -> u8
    ensures { result ≡ kind_number (plain_asked asked.now) }
{
    match asked {
        Asked::Request(Request::Frame { .. }) => 1,
        Asked::Request(Request::Proof { .. }) => 2,
        Asked::Request(Request::Lease { .. }) => 3,
        Asked::Preflight => 4,
        Asked::Refused(_) => 5,
    }
}

// The length of a request's body; None: no buffer holds it.
fn request_len(request: &Request<'_>) -> Option<usize>
    ensures len { IfSome result (λ n. n ≡ length (request_body (plain_request request.now))) }
    ensures long { IfNone result (2 ^ 64 ≤ length (request_body (plain_request request.now))) }
{
    match *request {
        Request::Frame { ticket, frame } => ticket.0.as_slice().len().checked_add(frame.len()),
        Request::Proof {
            ticket,
            statement,
            frame,
        } => {
            let behind = statement.0.as_slice().len().checked_add(frame.len())?;
            ticket.0.as_slice().len().checked_add(behind)
        }
        Request::Lease { ticket, helper } => {
            ticket
                .0
                .as_slice()
                .len()
                .checked_add(helper.0.as_slice().len())
        }
    }
}

// The length of the body, where it is one that the door takes.
fn body_len(asked: &Asked<'_>) -> Option<u16>
    ensures len { IfSome result (λ n. n ≡ length (asked_body (plain_asked asked.now))) }
    ensures taken { IfSome result (λ n. length (asked_body (plain_asked asked.now)) ≤ body_max) }
    ensures long { IfNone result (body_max < length (asked_body (plain_asked asked.now))) }
{
    let len = match asked {
        Asked::Request(request) => request_len(request)?,
        Asked::Preflight => 0,
        Asked::Refused(_) => 1,
    };
    if len > BODY_MAX {
        return None;
    }
    Some(len as u16)
}

fn put_four<'a>(
    out: &mut [u8],
    first: &'a [u8],
    second: &'a [u8],
    third: &'a [u8],
    fourth: &'a [u8],
) -> Option<usize>
    ensures put { IfSome result (λ n. IsPut out.old out.new (first.now ++ (second.now ++ (third.now ++ fourth.now))) n) }
    ensures short { IfNone result (length out.old < length (first.now ++ (second.now ++ (third.now ++ fourth.now)))) }
{
    put_all(out, &[first, second, third, fourth])
}

// Puts a head and the body behind it.
fn put_ask(out: &mut [u8], head: &[u8], asked: &Asked<'_>) -> Option<usize>
    ensures put { IfSome result (λ n. IsPut out.old out.new (head.now ++ asked_body (plain_asked asked.now)) n) }
    ensures short { IfNone result (length out.old < length (head.now ++ asked_body (plain_asked asked.now))) }
{
    match *asked {
        Asked::Request(Request::Frame { ticket, frame }) => {
            put_four(out, head, &ticket.0, b"", frame)
        }
        Asked::Request(
            Request::Proof {
                ticket,
                statement,
                frame,
            },
        ) => put_four(out, head, &ticket.0, &statement.0, frame),
        Asked::Request(Request::Lease { ticket, helper }) => {
            put_four(out, head, &ticket.0, &helper.0, b"")
        }
        Asked::Preflight => put_four(out, head, b"", b"", b""),
        Asked::Refused(why) => put_four(out, head, fault_byte(why), b"", b""),
    }
}

/// Writes an ask from the buffer's start on, and tells how many bytes it is. None: it doesn't fit, or its body is longer
/// than the door takes one.
pub fn write_ask(asked: &Asked<'_>, out: &mut [u8]) -> Option<usize>
    ensures written { IfSome result (λ n. IsPut out.old out.new (ask_bytes (plain_asked asked.now)) n) }
    ensures taken { IfSome result (λ n. length (asked_body (plain_asked asked.now)) ≤ body_max) }
    ensures short { IfNone result (LacksRoom (plain_asked asked.now) (length out.old)) }
{
    let len = body_len(asked)?;
    let [high, low] = len.to_be_bytes();
    let end = put_ask(out, &[kind_of(asked), high, low], asked)?;
    Some(end)
}

// What stands first in bytes that begin with an ask: its kind, the length of its body, and what stands behind.
#[derive(Clone, Copy)]
struct Head<'a> {
    kind: u8,
    len: usize,
    behind: &'a [u8],
}

impl Head<'_> {
    fn of(held: &[u8]) -> Option<Head<'_>>
        ensures none { IfNone result (length held.now < 3) }
        ensures some { IfSome result (λ h. 3 ≤ length held.now) }
        ensures kind { IfSome result (λ h. h.kind ≡ get_or held.now 0 0) }
        ensures len { IfSome result (λ h. h.len ≡ stated_len held.now) }
        ensures behind { IfSome result (λ h. h.behind.now ≡ drop 3 held.now) }
    {
        let [kind, high, low, behind @ ..] = held else {
            return None;
        };
        let len = usize::from(u16::from_be_bytes([*high, *low]));
        Some(Head {
            kind: *kind,
            len,
            behind,
        })
    }
}

/// How many bytes the first ask has. None: more must come.
pub fn ask_end(held: &[u8]) -> Option<usize>
    ensures exact { result ≡ ask_end held.now }
    ensures within { IfSome result (λ n. n ≤ length held.now) }
{
    let head = Head::of(held)?;
    if head.behind.len() < head.len {
        return None;
    }
    Some(3 + head.len)
}

fn request_of(path: Path, body: &[u8]) -> Option<Asked<'_>>
    ensures { option_map plain_asked result ≡ request_in path body.now }
{
    Some(Asked::Request(Request::of(path, body)?))
}

fn preflight_of(body: &[u8]) -> Option<Asked<'_>>
    ensures { option_map plain_asked result ≡ preflight_in body.now }
{
    if body.is_empty() {
        Some(Asked::Preflight)
    } else {
        None
    }
}

fn refused_of(body: &[u8]) -> Option<Asked<'_>>
    ensures { option_map plain_asked result ≡ refused_in body.now }
{
    let [number] = body else {
        return None;
    };
    Some(Asked::Refused(fault_of(*number)?))
}

fn asked_at(kind: u8, body: &[u8]) -> Option<Asked<'_>>
    ensures { option_map plain_asked result ≡ asked_at kind body.now }
{
    match kind {
        1 => request_of(Path::Frame, body),
        2 => request_of(Path::Proof, body),
        3 => request_of(Path::Lease, body),
        4 => preflight_of(body),
        5 => refused_of(body),
        _ => None,
    }
}

/// The ask that these bytes are, and nothing behind it.
pub fn read_ask(bytes: &[u8]) -> Option<Asked<'_>>
    ensures { option_map plain_asked result ≡ asked_in bytes.now }
{
    let head = Head::of(bytes)?;
    if head.behind.len() != head.len {
        return None;
    }
    asked_at(head.kind, head.behind)
}
