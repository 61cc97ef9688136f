//! A request as the bytes that a client sends.
ghost use Rattle.std.specs.Prelude.{◌≡◌, ◌≤◌, ◌+◌, ◌<◌, [], ◌++◌, ◌^◌, length, IfSome, IfNone};
ghost use Rattle.http1.specs.Text.{concat_slices};
ghost use Rattle.http_door.specs.Output.{IsPut, IsPutAt};
ghost use Rattle.http_door.specs.Requests.{plain_request, request_body};
ghost use Rattle.http_door.specs.Sending.{sent_head, sent_text};

use crate::output::put_all;
use crate::request::Request;
use crate::value::HeaderValue;
use itoa::Buffer;

// The length of its body; None: no buffer holds it.
fn body_len(request: &Request<'_>) -> Option<usize>
    ensures len { IfSome result (λ n. n ≡ length (request_body (plain_request request.now))) }
    ensures long { IfNone result (2 ^ 64 ≤ length (request_body (plain_request request.now))) }
{
    match *request {
        Request::Frame { ticket, frame } => ticket.0.as_slice().len().checked_add(frame.len()),
        Request::Proof {
            ticket,
            statement,
            frame,
        } => {
            let behind = statement.0.as_slice().len().checked_add(frame.len())?;
            ticket.0.as_slice().len().checked_add(behind)
        }
        Request::Lease { ticket, helper } => {
            ticket
                .0
                .as_slice()
                .len()
                .checked_add(helper.0.as_slice().len())
        }
    }
}

fn head_parts<'a>(path: &'a [u8], host: &'a [u8], digits: &'a [u8]) -> [&'a [u8]; 7]
    ensures { concat_slices result ≡ sent_head path.now host.now digits.now }
{
    [
        b"POST ",
        path,
        b" HTTP/1.1\r\nHost: ",
        host,
        b"\r\nContent-Type: application/octet-stream\r\nContent-Length: ",
        digits,
        b"\r\n\r\n",
    ]
}

fn put_three<'a>(
    out: &mut [u8],
    at: usize,
    first: &'a [u8],
    second: &'a [u8],
    third: &'a [u8],
) -> Option<usize>
    requires { at ≤ length out.old }
    ensures put { IfSome result (λ n. IsPutAt out.old out.new at (first.now ++ (second.now ++ (third.now ++ []))) n) }
    ensures short { IfNone result (length out.old < at + length (first.now ++ (second.now ++ (third.now ++ [])))) }
{
    put_all(out, at, &[first, second, third])
}

fn put_body(out: &mut [u8], at: usize, request: &Request<'_>) -> Option<usize>
    requires { at ≤ length out.old }
    ensures put { IfSome result (λ n. IsPutAt out.old out.new at (request_body (plain_request request.now)) n) }
    ensures short { IfNone result (length out.old < at + length (request_body (plain_request request.now))) }
{
    match *request {
        Request::Frame { ticket, frame } => put_three(out, at, &ticket.0, b"", frame),
        Request::Proof {
            ticket,
            statement,
            frame,
        } => put_three(out, at, &ticket.0, &statement.0, frame),
        Request::Lease { ticket, helper } => put_three(out, at, &ticket.0, &helper.0, b""),
    }
}

/// Writes a request to this host from the buffer's start on, and tells how many bytes it is. None: it
/// doesn't fit.
pub fn write_request(request: &Request<'_>, host: &HeaderValue<'_>, out: &mut [u8]) -> Option<usize>
    ensures written { IfSome result (λ n. IsPut out.old out.new (sent_text (plain_request request.now) host.now) n) }
    ensures short { IfNone result (length out.old < length (sent_text (plain_request request.now) host.now)) }
{
    let mut buffer = Buffer::new();
    let n = body_len(request)?;
    let digits = buffer.format(n).as_bytes();
    let head = head_parts(request.path().text(), host.bytes(), digits);
    let started = put_all(out, 0, &head)?;
    put_body(out, started, request)
}
