//! The head of a response that bytes begin with, and how long its body is.
ghost use Rattle.std.specs.Prelude.{◌≡◌, ◌≤◌, IfErr, IfOk, IfSome, length};
ghost use Rattle.httparse.specs.Grammar.{ResponseHead};
ghost use Rattle.httparse.specs.Spans.{IsResponseAt, IsResponseWithin};
ghost use Rattle.http1.specs.Text.{lf_follows_cr};
ghost use Rattle.http_door.specs.Heads.{body_max};
ghost use Rattle.http_door.specs.Responses.{FindsResponse, NeverTakesResponse, framed_len, reply_len};

use crate::limits::{BODY_MAX, FIELDS_MAX, HEAD_MAX};
use crate::reply_fault::ReplyFault;
use http1::fields::KnownFields;
use http1::framing::{Framing, FramingError, MethodKind, response_framing};
use httparse::Status;
use httparse::spans::{HeaderSpan, ResponseSpans, parse_response};

// Whether each line feed has a carriage return before it.
fn has_no_bare_lf(bytes: &[u8]) -> bool
    ensures { result ≡ lf_follows_cr 0 bytes.now }
{
    let mut before = 0;
    for byte in bytes {
        if *byte == b'\n' && before != b'\r' {
            return false;
        }
        before = *byte;
    }
    true
}

/// The head, where it has come whole; its fields' places go into `spans`.
pub(crate) fn find_response(
    held: &[u8],
    spans: &mut [HeaderSpan],
) -> Result<Option<ResponseSpans>, ReplyFault>
    requires { length spans.old ≡ FIELDS_MAX }
    ensures found { IfOk result (FindsResponse held.now spans.new) }
    ensures never { IfErr result (λ why. (why ≡ ReplyFault.Malformed) × NeverTakesResponse held.now) }
{
    match parse_response(held, spans) {
        Ok(Status::Partial) if held.len() >= HEAD_MAX => Err(ReplyFault::Malformed),
        Ok(Status::Partial) => Ok(None),
        Ok(Status::Complete(head)) if head.len > HEAD_MAX => Err(ReplyFault::Malformed),
        Ok(Status::Complete(head)) if !has_no_bare_lf(&held[..head.len]) => Err(
            ReplyFault::Malformed,
        ),
        Ok(Status::Complete(head)) => Ok(Some(head)),
        Err(_) => Err(ReplyFault::Malformed),
    }
}

// The length of a body of this framing, where it has one that is taken.
fn framed_len(framing: Result<Framing, FramingError>) -> Option<usize>
    ensures len { result ≡ framed_len framing }
    ensures short { IfSome result (λ n. n ≤ body_max) }
{
    match framing {
        Ok(Framing::NoBody) => Some(0),
        Ok(Framing::Length(n)) if n <= BODY_MAX as u64 => Some(n as usize),
        Ok(_) | Err(_) => None,
    }
}

/// The length of the body, where the head gives one that is taken.
pub(crate) fn reply_len(held: &[u8], spans: &[HeaderSpan], at: &ResponseSpans) -> Option<usize>
    requires { IsResponseWithin held.now spans.now at.now }
    ensures len { (head : ResponseHead) → IsResponseAt held.now spans.now at.now head
        → result ≡ reply_len head }
    ensures short { IfSome result (λ n. n ≤ body_max) }
{
    let known = KnownFields::from_spans(held, &spans[..at.headers]);
    framed_len(response_framing(MethodKind::Other, at.code, at.version, &known))
}
