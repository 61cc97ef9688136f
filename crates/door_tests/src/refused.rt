//! What is refused, by which status, and whether the connection is kept.
use http_door::{Asked, DoorFault, read, whole};

// The fault, where the request is refused.
fn fault_of(held: &[u8]) -> Option<DoorFault> {
    match read(held).asked {
        Asked::Refused(fault) => Some(fault),
        _ => None,
    }
}

// Refused for this, and the connection is closed behind all that came.
fn is_closed(held: &[u8], fault: DoorFault) -> bool {
    fault_of(held) == Some(fault) && !read(held).keeps && whole(held) == Some(held.len())
}

// Refused for this, and the connection is kept.
fn is_kept(held: &[u8], fault: DoorFault) -> bool {
    fault_of(held) == Some(fault) && read(held).keeps && whole(held) == Some(held.len())
}

#[test]
fn heads_that_two_parsers_may_read_in_two_ways_are_refused(rt: HostRuntime) {
    assert!(rt;
        is_closed(
            b"POST /frame HTTP/1.1\r\nHost: a\r\nContent-Length: 16\r\nContent-Length: 17\r\n\r\n",
            DoorFault::Malformed
        )
    );
    assert!(rt;
        is_closed(
            b"POST /frame HTTP/1.1\r\nHost: a\r\nContent-Length: 16, 16\r\n\r\n",
            DoorFault::Malformed
        )
    );
    assert!(rt;
        is_closed(
            b"POST /frame HTTP/1.1\r\nHost: a\r\nContent-Length: +16\r\n\r\n",
            DoorFault::Malformed
        )
    );
    assert!(rt;
        is_closed(
            b"POST /frame HTTP/1.1\r\nHost: a\r\nContent-Length : 16\r\n\r\n",
            DoorFault::Malformed
        )
    );
    assert!(rt;
        is_closed(
            b"POST /frame HTTP/1.1\r\nHost: a\r\nContent-Length: 16\r\nTransfer-Encoding: chunked\r\n\r\n",
            DoorFault::Malformed
        )
    );
    assert!(rt;
        is_closed(
            b"POST /frame HTTP/1.1\nHost: a\nContent-Length: 16\n\n",
            DoorFault::Malformed
        )
    );
    assert!(rt;
        is_closed(
            b"POST /frame HTTP/1.1\r\nHost: a\r\nHost: b\r\nContent-Length: 16\r\n\r\n",
            DoorFault::Malformed
        )
    );
    assert!(rt;
        is_closed(
            b"POST /frame HTTP/1.1\r\nContent-Length: 16\r\n\r\n",
            DoorFault::Malformed
        )
    );
    assert!(rt;
        is_closed(
            b"POST /frame HTTP/2.0\r\nHost: a\r\n\r\n",
            DoorFault::Malformed
        )
    );
}

#[test]
fn bodies_without_a_length_that_is_taken_are_refused(rt: HostRuntime) {
    assert!(rt;
        is_closed(
            b"POST /frame HTTP/1.1\r\nHost: a\r\n\r\n",
            DoorFault::NoLength
        )
    );
    assert!(rt;
        is_closed(
            b"POST /frame HTTP/1.1\r\nHost: a\r\nTransfer-Encoding: chunked\r\n\r\n0\r\n\r\n",
            DoorFault::NoLength
        )
    );
    assert!(rt;
        is_closed(
            b"POST /frame HTTP/1.1\r\nHost: a\r\nContent-Length: 8263\r\n\r\n",
            DoorFault::LongBody
        )
    );
    assert!(rt;
        whole(b"POST /frame HTTP/1.1\r\nHost: a\r\nContent-Length: 8262\r\n\r\n").is_none()
    );
}

#[test]
fn long_heads_are_refused(rt: HostRuntime) {
    let name = [b'a'; 4_096];
    assert!(rt; is_closed(&name, DoorFault::LongHead));
    assert!(rt; whole(&name[..4_095]).is_none());
}

#[test]
fn other_paths_and_methods_leave_the_connection(rt: HostRuntime) {
    assert!(rt; is_kept(b"GET / HTTP/1.1\r\nHost: a\r\n\r\n", DoorFault::NoPath));
    assert!(rt;
        is_kept(
            b"POST /frames HTTP/1.1\r\nHost: a\r\nContent-Length: 0\r\n\r\n",
            DoorFault::NoPath
        )
    );
    assert!(rt;
        is_kept(
            b"GET /frame?a HTTP/1.1\r\nHost: a\r\n\r\n",
            DoorFault::NoPath
        )
    );
    assert!(rt; is_kept(b"GET /frame HTTP/1.1\r\nHost: a\r\n\r\n", DoorFault::Method));
    assert!(rt;
        is_kept(
            b"HEAD /lease HTTP/1.1\r\nHost: a\r\n\r\n",
            DoorFault::Method
        )
    );
    assert!(rt;
        is_kept(
            b"post /lease HTTP/1.1\r\nHost: a\r\n\r\n",
            DoorFault::Method
        )
    );
}

#[test]
fn bodies_that_are_none_of_their_path_are_refused(rt: HostRuntime) {
    assert!(rt;
        is_kept(
            b"POST /frame HTTP/1.1\r\nHost: a\r\nContent-Length: 1\r\n\r\nx",
            DoorFault::NotOctets
        )
    );
    assert!(rt;
        is_kept(
            b"POST /frame HTTP/1.1\r\nHost: a\r\nContent-Type: text/plain\r\nContent-Length: 1\r\n\r\nx",
            DoorFault::NotOctets
        )
    );
    assert!(rt;
        is_kept(
            b"POST /frame HTTP/1.1\r\nHost: a\r\nContent-Type: application/octet-stream\r\nContent-Length: 15\r\n\r\nttttttttttttttt",
            DoorFault::Malformed
        )
    );
}
