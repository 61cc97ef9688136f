//! An answer as the bytes that are sent.
ghost use Rattle.std.specs.Prelude.{◌≡◌, ◌+◌, ◌%◌, ◌<◌, ◌≤◌, length, IfSome, IfNone, decimal};
ghost use Rattle.http1.specs.Text.{concat_slices};
ghost use Rattle.http1.specs.Head.{print_headers, status_digits};
ghost use Rattle.http_door.specs.Output.{IsPut, IsPutAt};
ghost use Rattle.http_door.specs.Replies.{origin_value, plain_reply, length_fields, close_fields, reply_body, reply_text, start_text, origin_text};

use crate::output::{put_all, put_at};
use crate::reply::{Reply, body_len, end_text, lease_body, own_field};
use crate::value::HeaderValue;
use itoa::Buffer;

fn start_parts<'a>(status: &'a [u8; 3], reason: &'a [u8], own: &'a [u8]) -> [&'a [u8]; 6]
    ensures { concat_slices result ≡ start_text status.now reason.now own.now }
{
    [
        b"HTTP/1.1 ",
        status,
        b" ",
        reason,
        b"\r\nCache-Control: no-store\r\n",
        own,
    ]
}

fn length_parts<'a>(reply: &Reply<'_>, digits: &'a [u8]) -> [&'a [u8]; 3]
    requires { digits.now ≡ decimal (length (reply_body (plain_reply reply.now))) }
    ensures { concat_slices result ≡ print_headers (length_fields (plain_reply reply.now)) }
{
    match reply {
        Reply::Preflight => [b"", b"", b""],
        _ => [b"Content-Length: ", digits, b"\r\n"],
    }
}

// Puts the fields by which pages of an origin may read the answer.
fn put_origin(out: &mut [u8], at: usize, origin: Option<&HeaderValue<'_>>) -> Option<usize>
    requires { at ≤ length out.old }
    ensures put { IfSome result (λ n. IsPutAt out.old out.new at (origin_text (origin_value origin.entry)) n) }
    ensures short { IfNone result (length out.old < at + length (origin_text (origin_value origin.entry))) }
{
    match origin {
        Some(value) => put_all(
            out,
            at,
            &[
                b"Access-Control-Allow-Origin: ",
                value.bytes(),
                b"\r\nVary: Origin\r\n",
            ],
        ),
        None => Some(at),
    }
}

fn close_text(keeps: bool) -> &'static [u8]
    ensures { result.now ≡ print_headers (close_fields keeps) }
{
    if keeps { b"" } else { b"Connection: close\r\n" }
}

fn put_body(out: &mut [u8], at: usize, reply: &Reply<'_>) -> Option<usize>
    requires { at ≤ length out.old }
    ensures put { IfSome result (λ n. IsPutAt out.old out.new at (reply_body (plain_reply reply.now)) n) }
    ensures short { IfNone result (length out.old < at + length (reply_body (plain_reply reply.now))) }
{
    match *reply {
        Reply::Frame(frame) => put_at(out, at, frame),
        Reply::Lease { lane, serial } => put_at(out, at, &lease_body(lane, serial)),
        Reply::NotYours => put_at(out, at, b"not yours"),
        Reply::Ended(end) => put_at(out, at, end_text(end)),
        Reply::Busy | Reply::Preflight | Reply::Refused(_) => put_at(out, at, b""),
    }
}

fn last_digit(n: u16) -> u8
    ensures { result ≡ 48 + n % 10 }
{
    b'0' + (n % 10) as u8
}

fn status_digits(status: u16) -> [u8; 3]
    ensures { result ≡ status_digits status }
{
    let hundreds = last_digit(status / 100);
    let tens = last_digit(status / 10);
    [hundreds, tens, last_digit(status)]
}

/// Writes an answer from the buffer's start on, and tells how many bytes it is. A page of the origin may
/// read it, and of no other; `keeps` is what `read` told. None: it doesn't fit.
pub fn write(
    reply: &Reply<'_>,
    origin: Option<&HeaderValue<'_>>,
    keeps: bool,
    out: &mut [u8],
) -> Option<usize>
    ensures written { IfSome result (λ n. IsPut out.old out.new (reply_text (plain_reply reply.now) (origin_value origin.entry) keeps) n) }
    ensures short { IfNone result (length out.old < length (reply_text (plain_reply reply.now) (origin_value origin.entry) keeps)) }
{
    let mut buffer = Buffer::new();
    let digits = buffer.format(body_len(reply)).as_bytes();
    let status = status_digits(reply.status());
    let start = start_parts(&status, reply.reason(), own_field(reply));
    let started = put_all(out, 0, &start)?;
    let sized = put_all(out, started, &length_parts(reply, digits))?;
    let allowed = put_origin(out, sized, origin)?;
    let ended = put_all(out, allowed, &[close_text(keeps), b"\r\n"])?;
    put_body(out, ended, reply)
}
