//! HTTP below a server of many: requests that come in pieces, and their answers.
ghost use Rattle.std.specs.Prelude.{◌≡◌, ℕ, List, length, Option, None};

use door_asks::{read_ask, write_answer};
use http_door::{Asked, DoorFault, HeaderValue, Reply, Request};
use http_wires::HttpWires;
use many_wires::Wires;
use many_words::{Door, Taken};
use std::alloc::{AllocError, Global};

const LEASE: &[u8] =
    b"POST /lease HTTP/1.1\r\nHost: a\r\nContent-Type: application/octet-stream\r\n\
Content-Length: 48\r\n\r\ntttttttttttttttthhhhhhhhhhhhhhhhhhhhhhhhhhhhhhhh";

const TWO: &[u8] =
    b"OPTIONS /frame HTTP/1.1\r\nHost: a\r\n\r\nOPTIONS /lease HTTP/1.1\r\nHost: a\r\nConnection: close\r\n\r\nmore";

const BAD: &[u8] = b"POST /frame\r\n\r\nmore";

const LONG: &[u8] = b"POST /frame HTTP/1.1\r\nHost: a\r\nContent-Length: 8263\r\n\r\nmore";

// One connection, of which so many bytes come at a time, and what was sent to it last.
#[derive(Drop)]
struct Line {
    coming: &'static [u8],
    pace: usize,
    sent: [u8; 512],
    count: usize,
}

impl Line {
    fn sent(&self) -> &[u8] {
        self.sent.get(..self.count).unwrap_or(b"")
    }
}

impl Wires for Line {
    ghost told = { λ line. None };

    fn wait(&mut self) -> u64 {
        0
    }

    fn open(&mut self, _: usize, _: Door) -> bool {
        true
    }

    fn take(&mut self, _: usize, _: Door, buf: &mut [u8]) -> Taken {
        if self.coming.is_empty() {
            return Taken::Over;
        }
        let count = self.coming.len().min(self.pace).min(buf.len());
        let (front, behind) = self.coming.split_at(count);
        buf[..count].copy_from_slice(front);
        self.coming = behind;
        Taken::Bytes(count)
    }

    fn close(&mut self, _: usize) {}

    fn knocks(&mut self, _: Door) -> bool {
        false
    }

    fn drop_for_another(&mut self, _: usize) {}

    fn leave(&mut self, _: usize) {}

    fn send(&mut self, _: usize, bytes: &[u8]) {
        let count = bytes.len().min(512);
        self.sent[..count].copy_from_slice(&bytes[..count]);
        self.count = count;
    }

    fn send_again(&mut self, place: usize, bytes: &[u8]) {
        self.send(place, bytes);
    }
}

// Wires with one place, and a connection there of which these bytes come.
fn opened(
    alloc: Global,
    door: Door,
    coming: &'static [u8],
    pace: usize,
    origin: Option<&HeaderValue<'_>>,
) -> Result<HttpWires<Line>, AllocError> {
    let line = Line {
        coming,
        pace,
        sent: [0; 512],
        count: 0,
    };
    let mut wires = HttpWires::open(alloc, line, 1, origin)?;
    wires.open(0, door);
    Ok(wires)
}

// How many bytes the next ask has that comes within some takes, in the buffer's front.
fn next_ask(wires: &mut HttpWires<Line>, buf: &mut [u8]) -> usize {
    for _ in 0..64 {
        match wires.take(0, Door::Clients, buf) {
            Taken::Bytes(0) | Taken::Pending => {}
            Taken::Bytes(count) => return count,
            Taken::Over => return 0,
        }
    }
    0
}

// Whether an answer goes out as this text.
fn goes_out(wires: &mut HttpWires<Line>, reply: Reply<'_>, text: &[u8]) -> bool {
    let mut out = [0; 64];
    let Some(count) = write_answer(&reply, &mut out) else {
        return false;
    };
    wires.send(0, &out[..count]);
    wires.below().sent() == text
}

fn is_refused(coming: &'static [u8], alloc: Global, fault: DoorFault) -> Result<bool, AllocError> {
    let mut wires = opened(alloc, Door::Clients, coming, 9, None)?;
    let mut buf = [0; 64];
    let count = next_ask(&mut wires, &mut buf);
    let asked = match read_ask(&buf[..count.min(64)]) {
        Some(Asked::Refused(why)) => why == fault,
        _ => false,
    };
    let mut out = [0; 8];
    let count = write_answer(&Reply::Refused(fault), &mut out).unwrap_or(0);
    wires.send(0, &out[..count.min(8)]);
    let over = matches!(wires.take(0, Door::Clients, &mut buf), Taken::Over);
    Ok(asked && over)
}

#[test]
fn a_request_in_pieces_is_asked_once_it_is_whole(rt: HostRuntime) -> Result<(), AllocError> {
    let mut wires = opened(rt.alloc(), Door::Clients, LEASE, 7, None)?;
    let mut buf = [0; 128];
    let count = next_ask(&mut wires, &mut buf);
    assert!(rt; count == 51);
    let ask = buf.get(..count).unwrap_or(b"");
    let Some(Asked::Request(Request::Lease { ticket, helper })) = read_ask(ask) else {
        assert!(rt; false);
        return Ok(());
    };
    assert!(rt; ticket.0 == [b't'; 16]);
    assert!(rt; helper.0 == [b'h'; 32]);
    Ok(())
}

#[test]
fn the_second_request_is_asked_once_the_first_is_answered(
    rt: HostRuntime,
) -> Result<(), AllocError> {
    let mut wires = opened(rt.alloc(), Door::Clients, TWO, 512, None)?;
    let mut buf = [0; 64];
    assert!(rt; matches!(wires.take(0, Door::Clients, &mut buf), Taken::Bytes(3)));
    assert!(rt; matches!(read_ask(&buf[..3]), Some(Asked::Preflight)));
    assert!(rt; matches!(wires.take(0, Door::Clients, &mut buf), Taken::Bytes(0)));
    assert!(rt;
        goes_out(
            &mut wires,
            Reply::Busy,
            b"HTTP/1.1 503 Service Unavailable\r\nCache-Control: no-store\r\n\
Retry-After: 1\r\nContent-Length: 0\r\n\r\n"
        )
    );
    assert!(rt; matches!(wires.take(0, Door::Clients, &mut buf), Taken::Bytes(3)));
    assert!(rt;
        goes_out(
            &mut wires,
            Reply::Busy,
            b"HTTP/1.1 503 Service Unavailable\r\nCache-Control: no-store\r\n\
Retry-After: 1\r\nContent-Length: 0\r\nConnection: close\r\n\r\n"
        )
    );
    assert!(rt; matches!(wires.take(0, Door::Clients, &mut buf), Taken::Over));
    Ok(())
}

#[test]
fn what_is_no_request_is_refused_and_nothing_follows(rt: HostRuntime) -> Result<(), AllocError> {
    assert!(rt; is_refused(BAD, rt.alloc(), DoorFault::Malformed)?);
    assert!(rt; is_refused(LONG, rt.alloc(), DoorFault::LongBody)?);
    Ok(())
}

#[test]
fn pages_of_the_origin_may_read_answers(rt: HostRuntime) -> Result<(), AllocError> {
    let origin = HeaderValue::of(b"https://page.example");
    let mut wires = opened(rt.alloc(), Door::Clients, LEASE, 512, origin.as_ref())?;
    let mut buf = [0; 64];
    assert!(rt; next_ask(&mut wires, &mut buf) == 51);
    let lease = Reply::Lease {
        lane: 0x4142,
        serial: 0x61626364,
    };
    assert!(rt;
        goes_out(
            &mut wires,
            lease,
            b"HTTP/1.1 200 OK\r\nCache-Control: no-store\r\n\
Content-Type: application/octet-stream\r\nContent-Length: 6\r\nAccess-Control-Allow-Origin: https://page.example\r\n\
Vary: Origin\r\n\r\nABabcd"
        )
    );
    Ok(())
}

#[test]
fn bytes_of_the_link_pass_as_they_are(rt: HostRuntime) -> Result<(), AllocError> {
    let mut wires = opened(rt.alloc(), Door::Link, LEASE, 512, None)?;
    let mut buf = [0; 4];
    assert!(rt; matches!(wires.take(0, Door::Link, &mut buf), Taken::Bytes(4)));
    assert!(rt; buf == *b"POST");
    wires.send(0, b"as it is");
    assert!(rt; wires.below().sent() == b"as it is".as_slice());
    Ok(())
}
