//! A request as the door reads it.
ghost use Rattle.std.specs.Prelude.{◌≡◌, ℕ, List, length, drop};
ghost use Rattle.httparse.specs.Grammar.{RequestHead};
ghost use Rattle.httparse.specs.Spans.{IsRequestWithin};
ghost use Rattle.http1.specs.declared.framing.Framing.{Framing};
ghost use Rattle.http_door.specs.declared.fault.DoorFault.{DoorFault as Fault};
ghost use Rattle.http_door.specs.declared.fault.DoorFault.TheVariants as fault;
ghost use Rattle.http_door.specs.Heads.{HasNoHead, HoldsRequest, HoldsUnsized, IsHeadAt, IsHeadCause, LacksBody};
ghost use Rattle.http_door.specs.Hearing.{plain_asked, plain_heard, asked_at, asked_of, heard_at, heard_of, closed};

use crate::fault::DoorFault;
use crate::fields::has_octets;
use crate::head::{find_head, keeps, stated_len};
use crate::limits::FIELDS_MAX;
use crate::request::{Path, Request};
use crate::size::POST;
use httparse::spans::{EMPTY_HEADER_SPAN, HeaderSpan, RequestSpans};

/// What is asked at the door.
#[derive(Clone, Copy)]
pub enum Asked<'a> {
    Request(Request<'a>),
    /// By a browser, whether a page of another origin may ask (CORS).
    Preflight,
    Refused(DoorFault),
}

/// What is asked, and whether the connection is kept for the next request.
#[derive(Clone, Copy)]
pub struct Heard<'a> {
    pub asked: Asked<'a>,
    pub keeps: bool,
}

impl Heard<'_> {
    // Refused, and the connection is closed.
    fn closed(why: DoorFault) -> Heard<'static>
        ensures { plain_heard result ≡ closed why }
    {
        Heard {
            asked: Asked::Refused(why),
            keeps: false,
        }
    }
}

// What a body asks at a path.
fn asked_at<'a>(path: Path, method: &[u8], octets: bool, body: &'a [u8]) -> Asked<'a>
    ensures { plain_asked result ≡ asked_at path method.now octets body.now }
{
    if method == b"OPTIONS".as_slice() {
        return Asked::Preflight;
    }
    if method != POST {
        return Asked::Refused(DoorFault::Method);
    }
    if !octets {
        return Asked::Refused(DoorFault::NotOctets);
    }
    match Request::of(path, body) {
        Some(request) => Asked::Request(request),
        None => Asked::Refused(DoorFault::Malformed),
    }
}

// What is asked by a head with this body.
fn asked_of<'a>(
    held: &'a [u8],
    spans: &[HeaderSpan],
    at: &RequestSpans,
    body: &'a [u8],
) -> Asked<'a>
    requires { IsRequestWithin held.now spans.now at.now }
    ensures { (head : RequestHead) (framing : Framing)
        → IsHeadAt held.now spans.now at.now head framing → plain_asked result ≡ asked_of head body.now }
{
    let octets = has_octets(held, &spans[..at.headers]);
    match Path::of(at.path.of(held)) {
        Some(path) => asked_at(path, at.method.of(held), octets, body),
        None => Asked::Refused(DoorFault::NoPath),
    }
}

// What is heard of bytes that begin with a head.
fn heard_at<'a>(held: &'a [u8], spans: &[HeaderSpan], at: &RequestSpans) -> Heard<'a>
    requires { IsRequestWithin held.now spans.now at.now }
    ensures { (head : RequestHead) (framing : Framing)
        → IsHeadAt held.now spans.now at.now head framing
        → plain_heard result ≡ heard_at head framing (drop at.now.len held.now) }
{
    let after = &held[at.len..];
    match stated_len(held, spans, at) {
        Ok(n) if n <= after.len() => Heard {
            asked: asked_of(held, spans, at, &after[..n]),
            keeps: keeps(held, spans, at),
        },
        Ok(_) => Heard::closed(DoorFault::Malformed),
        Err(why) => Heard::closed(why),
    }
}

/// The request that the bytes begin with, which `whole` found; what follows it changes nothing. Bytes that
/// are no request that is taken are refused, and their connection is closed.
pub fn read(held: &[u8]) -> Heard<'_>
    ensures request { (head : RequestHead) (body rest : List ℕ)
        → HoldsRequest held.now head body rest → plain_heard result ≡ heard_of head body }
    ensures bad_length { (why : Fault) → HoldsUnsized held.now why → plain_heard result ≡ closed why }
    ensures cut { LacksBody held.now → plain_heard result ≡ closed fault.Malformed }
    ensures headless { HasNoHead held.now
        → (why : Fault) × (plain_heard result ≡ closed why) × IsHeadCause why held.now }
{
    let mut spans = [EMPTY_HEADER_SPAN; FIELDS_MAX];
    match find_head(held, &mut spans) {
        Ok(Some(at)) => heard_at(held, &spans, &at),
        Ok(None) => Heard::closed(DoorFault::Malformed),
        Err(why) => Heard::closed(why),
    }
}
