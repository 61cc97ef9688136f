//! What the door answers.
ghost use Rattle.std.specs.Prelude.{◌≡◌, length, option_map};
ghost use Rattle.http_door.specs.Replies.{plain_reply, reply_status, reply_reason, own_fields, end_text};
ghost use Rattle.http_door.specs.Replies.{fault_fields, lease_body, lease_in, reply_body};
ghost use Rattle.http1.specs.Head.{print_headers};

use crate::fault::DoorFault;
use lane_leases::End;

const PREFLIGHT: &[u8] =
    b"Access-Control-Allow-Methods: POST\r\nAccess-Control-Allow-Headers: Content-Type\r\n";

/// An answer to a request at the door.
#[derive(Clone, Copy)]
pub enum Reply<'a> {
    /// 200: the server's frame.
    Frame(&'a [u8]),
    /// 200: a lane was leased, for this serial.
    Lease { lane: u16, serial: u32 },
    /// 409: the ticket isn't that of the frame's lane and serial, or the statement isn't the lane's.
    NotYours,
    /// 410: how the ticket's request ended, whose lane was leased to another since.
    Ended(End),
    /// 503: nothing was done, and the same may be asked again after a second.
    Busy,
    /// 204: which methods and fields a page may ask with.
    Preflight,
    /// The status of the fault: nothing was done.
    Refused(DoorFault),
}

/// The body of a lease: its lane and its serial, as a frame's header has them.
pub(crate) fn lease_body(lane: u16, serial: u32) -> [u8; 6]
    ensures { result ≡ lease_body lane serial }
{
    let [a, b] = lane.to_be_bytes();
    let [c, d, e, f] = serial.to_be_bytes();
    [a, b, c, d, e, f]
}

/// The body that tells an end.
pub(crate) fn end_text(end: End) -> &'static [u8]
    ensures { result.now ≡ end_text end }
{
    match end {
        End::Written => b"written",
        End::NotWritten => b"not written",
    }
}

pub(crate) fn body_len(reply: &Reply<'_>) -> usize
    ensures { result ≡ length (reply_body (plain_reply reply.now)) }
{
    match *reply {
        Reply::Frame(frame) => frame.len(),
        Reply::Lease { .. } => 6,
        Reply::NotYours => 9,
        Reply::Ended(end) => end_text(end).len(),
        Reply::Busy | Reply::Preflight | Reply::Refused(_) => 0,
    }
}

impl Reply<'_> {
    /// The lease that a body of 6 bytes is: its lane and its serial, as a frame's header has them.
    pub fn lease_in(body: &[u8]) -> Option<Reply<'static>>
        ensures { option_map plain_reply result ≡ lease_in body.now }
    {
        let (lane, behind) = body.split_first_chunk::<2>()?;
        let (serial, []) = behind.split_first_chunk::<4>()? else {
            return None;
        };
        Some(Reply::Lease {
            lane: u16::from_be_bytes(*lane),
            serial: u32::from_be_bytes(*serial),
        })
    }

    /// The status code.
    pub fn status(&self) -> u16
        ensures { result ≡ reply_status (plain_reply self.now) }
    {
        match *self {
            Reply::Frame(_) | Reply::Lease { .. } => 200,
            Reply::NotYours => 409,
            Reply::Ended(_) => 410,
            Reply::Busy => 503,
            Reply::Preflight => 204,
            Reply::Refused(fault) => fault.status(),
        }
    }

    // The reason phrase.
    pub(crate) fn reason(&self) -> &'static [u8]
        ensures { result.now ≡ reply_reason (plain_reply self.now) }
    {
        match *self {
            Reply::Frame(_) | Reply::Lease { .. } => b"OK",
            Reply::NotYours => b"Conflict",
            Reply::Ended(_) => b"Gone",
            Reply::Busy => b"Service Unavailable",
            Reply::Preflight => b"No Content",
            Reply::Refused(fault) => fault.text().as_bytes(),
        }
    }
}

fn fault_field(fault: DoorFault) -> &'static [u8]
    ensures { result.now ≡ print_headers (fault_fields fault) }
{
    match fault {
        DoorFault::Method => b"Allow: POST, OPTIONS\r\n",
        _ => b"",
    }
}

/// The fields that only answers of this kind have.
pub(crate) fn own_field(reply: &Reply<'_>) -> &'static [u8]
    ensures { result.now ≡ print_headers (own_fields (plain_reply reply.now)) }
{
    match *reply {
        Reply::Frame(_) | Reply::Lease { .. } => b"Content-Type: application/octet-stream\r\n",
        Reply::NotYours | Reply::Ended(_) => b"Content-Type: text/plain\r\n",
        Reply::Busy => b"Retry-After: 1\r\n",
        Reply::Preflight => PREFLIGHT,
        Reply::Refused(fault) => fault_field(fault),
    }
}
