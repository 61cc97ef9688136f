//! The head that bytes begin with.
ghost use Rattle.std.specs.Prelude.{◌≡◌, ◌≤◌, length, IfOk, IfErr};
ghost use Rattle.httparse.specs.Grammar.{RequestHead};
ghost use Rattle.httparse.specs.Spans.{IsRequestWithin};
ghost use Rattle.http1.specs.declared.framing.Framing.{Framing};
ghost use Rattle.http1.specs.Fields.{known_fields};
ghost use Rattle.http_door.specs.Fields.{fields_of, keeps};
ghost use Rattle.http_door.specs.Heads.{FindsHead, IsHeadAt, RefusesHead, head_fault, body_len, body_max};

use crate::fault::DoorFault;
use crate::limits::{FIELDS_MAX, HEAD_MAX};
use crate::size::body_len;
use http1::fields::KnownFields;
use http1::framing::{MethodKind, request_framing};
use http1::{Event, Limits, ReadError, Server};
use httparse::spans::{HeaderSpan, RequestSpans};

const LIMITS: Limits = Limits {
    max_head_len: HEAD_MAX,
    max_extensions_len: 0,
    max_trailers_len: 2,
};

// A head that is too long is told apart by its status.
fn fault_of(error: ReadError) -> DoorFault
    ensures { result ≡ head_fault error }
{
    if error.status() == 400 {
        DoorFault::Malformed
    } else {
        DoorFault::LongHead
    }
}

// The head, where it has come whole; its fields' places go into `spans`.
pub(crate) fn find_head(
    held: &[u8],
    spans: &mut [HeaderSpan],
) -> Result<Option<RequestSpans>, DoorFault>
    requires { length spans.old ≡ FIELDS_MAX }
    ensures found { IfOk result (FindsHead held.now spans.new) }
    ensures why { IfErr result (RefusesHead held.now) }
{
    match Server::new(LIMITS).read(held, spans) {
        Ok(read) => match read.event {
            Event::Head(head) => Ok(Some(head)),
            _ => Ok(None),
        },
        Err(error) => Err(fault_of(error)),
    }
}

// What the head's fields say of the message.
fn known_fields(held: &[u8], spans: &[HeaderSpan], at: &RequestSpans) -> KnownFields
    requires { IsRequestWithin held.now spans.now at.now }
    ensures { (head : RequestHead) (framing : Framing)
        → IsHeadAt held.now spans.now at.now head framing → result ≡ known_fields (fields_of head) }
{
    KnownFields::from_spans(held, &spans[..at.headers])
}

// The length of the body, where the head states one that is taken.
pub(crate) fn stated_len(
    held: &[u8],
    spans: &[HeaderSpan],
    at: &RequestSpans,
) -> Result<usize, DoorFault>
    requires { IsRequestWithin held.now spans.now at.now }
    ensures len { (head : RequestHead) (framing : Framing)
        → IsHeadAt held.now spans.now at.now head framing → result ≡ body_len head.method framing }
    ensures short { IfOk result (λ n. n ≤ body_max) }
{
    let method = at.method.of(held);
    let known = known_fields(held, spans, at);
    match request_framing(MethodKind::of(method), at.version, &known) {
        Ok(framing) => body_len(method, framing),
        Err(_) => Err(DoorFault::Malformed),
    }
}

// Whether the connection is kept.
pub(crate) fn keeps(held: &[u8], spans: &[HeaderSpan], at: &RequestSpans) -> bool
    requires { IsRequestWithin held.now spans.now at.now }
    ensures { (head : RequestHead) (framing : Framing)
        → IsHeadAt held.now spans.now at.now head framing → result ≡ keeps head }
{
    let known = known_fields(held, spans, at);
    at.version == 1 && !known.close
}
