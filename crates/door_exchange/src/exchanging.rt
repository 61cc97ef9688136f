//! A request goes to a place, and its answer comes back.
ghost use Rattle.std.specs.Prelude.{◌≡◌, ℕ, ◌≤◌, length, Err, Ok, Some};
ghost use Rattle.http_door.specs.Heads.{body_max};
ghost use Rattle.http_door.specs.Reading.{IsRead};
ghost use Rattle.http_door.specs.Replies.{PlainReply, plain_reply};
ghost use Rattle.http_door.specs.Requests.{plain_request, request_body};
ghost use Rattle.http_door.specs.Sending.{sent_text};
ghost use Rattle.node_exchange.specs.Exchanging.{ClosedAtEnd};
ghost use Rattle.door_exchange.specs.Exchanging.{CountBy, ExchangeOn, broken_text, plain_answer};

use crate::place::Place;
use crate::reading::{Reading, read_answer};
use express_words::outside::{Net, Sink};
use http_door::{Path, Reply, ReplyFault, Request, read_reply, write_request};
use std::fmt;

/// Why an exchange gave no answer of the door's.
#[derive(Clone, Copy, Debug, PartialEq, Eq)]
pub enum Broken {
    /// The net or its connection failed; the net's count of faults.
    Fault(u64),
    /// The connection ended after so many bytes, before an answer was whole.
    Early(u32),
    /// What came is no answer of the door's.
    Wrong(ReplyFault),
}

impl fmt::Display for Broken {
    ghost output = { λ broken. Some (broken_text broken) };

    fn fmt<W: fmt::Write>(&self, f: &mut fmt::Formatter<W>) -> fmt::Result {
        match *self {
            Broken::Fault(count) => write!(f, "the net has had {count} faults"),
            Broken::Early(count) => write!(f, "the answer ended after {count} bytes"),
            Broken::Wrong(fault) => write!(f, "the answer isn't the door's: {fault}"),
        }
    }
}

// The request's text in the buffer's front.
fn request_text<'a>(request: &Request<'_>, place: &Place<'_>, out: &'a mut [u8]) -> &'a [u8]
    requires sendable { length (request_body (plain_request request.now)) ≤ body_max }
    requires room { 12358 ≤ length out.old }
    ensures { result.now ≡ sent_text (plain_request request.now) place.now }
{
    match write_request(request, &place.host(), out) {
        Some(n) => &out[..n],
        None => unreachable!(),
    }
}

// The answer that the bytes begin with.
fn answer_in(path: Path, came: &[u8]) -> Reply<'_>
    requires { (reply : PlainReply) × IsRead path came.now (Ok (Some reply)) }
    ensures { IsRead path came.now (Ok (Some (plain_reply result))) }
{
    match read_reply(path, came) {
        Ok(Some(reply)) => reply,
        Ok(None) => unreachable!(),
        Err(_) => unreachable!(),
    }
}

/// Dials the place, sends it a request, takes its answer into the front of `came`, and closes the
/// connection. What is sent is written to `out` before. No more is taken than a head and a body, and nothing
/// behind the answer but what came with its last bytes.
pub fn exchange<'a, N: Net>(
    net: &mut N,
    place: &Place<'_>,
    request: &Request<'_>,
    out: &mut [u8],
    came: &'a mut [u8],
) -> Result<Reply<'a>, Broken>
    requires sendable { length (request_body (plain_request request.now)) ≤ body_max }
    // Each buffer has `MESSAGE_MAX` bytes.
    requires out { 12358 ≤ length out.old }
    requires came { 12358 ≤ length came.old }
    // One dial, and where it succeeded one close of its connection, after what that took and gave.
    ensures calls { ExchangeOn place.now
        (record { asked = plain_request request.now; answer = plain_answer result })
        (N.seen net.old).calls (N.seen net.new).calls }
    ensures early { (n : ℕ) → result ≡ Err (Broken.Early n) → (conn : N.Conn)
        × ClosedAtEnd (N.seen net.new).calls (N.Conn.seen conn) }
    ensures fault { CountBy (plain_answer result) (N.seen net.old).faults (N.seen net.new).faults }
    ensures door { (N.seen net.new).doors ≡ (N.seen net.old).doors }
{
    let mut conn = match net.dial(place.text()) {
        Ok(conn) => conn,
        Err(_) => return Err(Broken::Fault(net.faults())),
    };
    if conn.put(request_text(request, place, out)).is_err() {
        net.close(conn);
        return Err(Broken::Fault(net.faults()));
    }
    let path = request.path();
    let (count, reading) = read_answer(&mut conn, path, came);
    net.close(conn);
    match reading {
        Reading::Whole => Ok(answer_in(path, &came[..count])),
        Reading::Wrong(fault) => Err(Broken::Wrong(fault)),
        Reading::Ended => Err(Broken::Early(count as u32)),
        Reading::Failed => Err(Broken::Fault(net.faults())),
    }
}
