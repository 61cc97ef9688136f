//! Answers as they are printed.
use http_door::{DoorFault, HeaderValue, Reply, write};

// Whether this answer is printed so, with this origin.
fn is_printed(reply: Reply<'_>, origin: &[u8], keeps: bool, text: &[u8]) -> bool {
    let mut out = [0; 512];
    let value = HeaderValue::of(origin);
    match write(&reply, value.as_ref(), keeps, &mut out) {
        Some(n) => &out[..n] == text,
        None => false,
    }
}

#[test]
fn a_frame_and_a_lease_are_octets(rt: HostRuntime) {
    assert!(rt;
        is_printed(
            Reply::Frame(b"FRAM"),
            b"",
            true,
            b"HTTP/1.1 200 OK\r\nCache-Control: no-store\r\n\
Content-Type: application/octet-stream\r\nContent-Length: 4\r\n\r\nFRAM"
        )
    );
    let lease = Reply::Lease {
        lane: 0x4142,
        serial: 0x61626364,
    };
    assert!(rt;
        is_printed(
            lease,
            b"https://page.example",
            false,
            b"HTTP/1.1 200 OK\r\nCache-Control: no-store\r\n\
Content-Type: application/octet-stream\r\nContent-Length: 6\r\nAccess-Control-Allow-Origin: https://page.example\r\n\
Vary: Origin\r\nConnection: close\r\n\r\nABabcd"
        )
    );
}

#[test]
fn what_is_refused_is_told_by_its_status(rt: HostRuntime) {
    assert!(rt;
        is_printed(
            Reply::NotYours,
            b"",
            true,
            b"HTTP/1.1 409 Conflict\r\nCache-Control: no-store\r\n\
Content-Type: text/plain\r\nContent-Length: 9\r\n\r\nnot yours"
        )
    );
    assert!(rt;
        is_printed(
            Reply::Busy,
            b"",
            true,
            b"HTTP/1.1 503 Service Unavailable\r\nCache-Control: no-store\r\n\
Retry-After: 1\r\nContent-Length: 0\r\n\r\n"
        )
    );
    assert!(rt;
        is_printed(
            Reply::Refused(DoorFault::Method),
            b"",
            true,
            b"HTTP/1.1 405 Method Not Allowed\r\n\
Cache-Control: no-store\r\nAllow: POST, OPTIONS\r\nContent-Length: 0\r\n\r\n"
        )
    );
    assert!(rt;
        is_printed(
            Reply::Refused(DoorFault::LongHead),
            b"",
            false,
            b"HTTP/1.1 431 Request Header Fields Too Large\r\n\
Cache-Control: no-store\r\nContent-Length: 0\r\nConnection: close\r\n\r\n"
        )
    );
}

#[test]
fn a_preflight_has_no_body(rt: HostRuntime) {
    assert!(rt;
        is_printed(
            Reply::Preflight,
            b"https://page.example",
            true,
            b"HTTP/1.1 204 No Content\r\n\
Cache-Control: no-store\r\nAccess-Control-Allow-Methods: POST\r\nAccess-Control-Allow-Headers: Content-Type\r\n\
Access-Control-Allow-Origin: https://page.example\r\nVary: Origin\r\n\r\n"
        )
    );
}

#[test]
fn an_answer_that_does_not_fit_is_not_told_as_written(rt: HostRuntime) {
    let mut out = [0; 86];
    assert!(rt; write(&Reply::Preflight, None, true, &mut out).is_none());
}

#[test]
fn odd_origins_are_no_values(rt: HostRuntime) {
    assert!(rt; HeaderValue::of(b"").is_none());
    assert!(rt; HeaderValue::of(b"https://a\r\nSet-Cookie: b").is_none());
    assert!(rt; HeaderValue::of(b"https://a b").is_none());
    assert!(rt; HeaderValue::of(&[b'a'; 256]).is_none());
    assert!(rt; HeaderValue::of(&[b'a'; 255]).is_some());
}
