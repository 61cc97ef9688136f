//! Answers as a client reads them.
use http_door::{DoorFault, Path, Reply, ReplyFault, read_reply};
use lane_leases::End;

const FRAME: &[u8] = b"HTTP/1.1 200 OK\r\nServer: a\r\nContent-Type: Application/Octet-Stream\r\n\
Content-Length: 4\r\nConnection: close\r\n\r\nFRAMmore";

const LEASE: &[u8] =
    b"HTTP/1.1 200 OK\r\nContent-Type: application/octet-stream\r\nContent-Length: 6\r\n\r\nABabcd";

const ENDED: &[u8] =
    b"HTTP/1.1 410 Gone\r\nContent-Type: text/plain\r\nContent-Length: 11\r\n\r\nnot written";

const CHUNKED: &[u8] =
    b"HTTP/1.1 200 OK\r\nContent-Type: application/octet-stream\r\nTransfer-Encoding: chunked\r\n\r\n";

// The status of a response that isn't the door's.
fn foreign(path: Path, held: &[u8]) -> u16 {
    match read_reply(path, held) {
        Err(ReplyFault::Foreign(status)) => status,
        _ => 0,
    }
}

fn is_malformed(held: &[u8]) -> bool {
    matches!(read_reply(Path::Frame, held), Err(ReplyFault::Malformed))
}

#[test]
fn a_frame_is_read_once_it_is_whole(rt: HostRuntime) {
    let whole = FRAME.len() - 4;
    assert!(rt;
        matches!(
            read_reply(Path::Frame, FRAME),
            Ok(Some(Reply::Frame(b"FRAM")))
        )
    );
    assert!(rt;
        matches!(
            read_reply(Path::Proof, &FRAME[..whole]),
            Ok(Some(Reply::Frame(b"FRAM")))
        )
    );
    assert!(rt; matches!(read_reply(Path::Frame, &FRAME[..whole - 1]), Ok(None)));
    assert!(rt; matches!(read_reply(Path::Frame, &FRAME[..20]), Ok(None)));
    assert!(rt; matches!(read_reply(Path::Frame, b""), Ok(None)));
}

#[test]
fn what_is_answered_goes_by_what_was_asked(rt: HostRuntime) {
    let Ok(Some(Reply::Lease { lane, serial })) = read_reply(Path::Lease, LEASE) else {
        return assert!(rt; false);
    };
    assert!(rt; lane == 0x4142 && serial == 0x61626364);
    assert!(rt;
        matches!(
            read_reply(Path::Frame, LEASE),
            Ok(Some(Reply::Frame(b"ABabcd")))
        )
    );
    assert!(rt; foreign(Path::Lease, FRAME) == 200);
}

#[test]
fn what_was_not_done_is_told_by_the_status(rt: HostRuntime) {
    assert!(rt;
        matches!(
            read_reply(Path::Frame, ENDED),
            Ok(Some(Reply::Ended(End::NotWritten)))
        )
    );
    assert!(rt;
        foreign(
            Path::Frame,
            b"HTTP/1.1 410 Gone\r\nContent-Length: 0\r\n\r\n"
        ) == 410
    );
    let busy = b"HTTP/1.0 503 Service Unavailable\r\nContent-Length: 0\r\n\r\n".as_slice();
    assert!(rt; matches!(read_reply(Path::Lease, busy), Ok(Some(Reply::Busy))));
    let long = b"HTTP/1.1 413 Content Too Large\r\nContent-Length: 0\r\n\r\n".as_slice();
    assert!(rt;
        matches!(
            read_reply(Path::Proof, long),
            Ok(Some(Reply::Refused(DoorFault::LongBody)))
        )
    );
    assert!(rt;
        foreign(
            Path::Proof,
            b"HTTP/1.1 502 Bad Gateway\r\nContent-Length: 0\r\n\r\n"
        ) == 502
    );
}

#[test]
fn other_bytes_are_no_answer(rt: HostRuntime) {
    assert!(rt; is_malformed(b"SSH-2.0-a\r\n"));
    assert!(rt; is_malformed(CHUNKED));
    assert!(rt; is_malformed(b"HTTP/1.1 200 OK\nContent-Length: 0\r\n\r\n"));
    assert!(rt; is_malformed(b"HTTP/1.1 200 OK\r\nContent-Length: 8263\r\n\r\n"));
    assert!(rt; is_malformed(&[b'\n'; 4096]));
}
