//! Requests as curl and a browser send them.
use http_door::{Asked, Request, read, whole};

// As curl 7.88.1 sent it, of 16 bytes t and 32 bytes h.
const CURL: &[u8] = b"POST /lease HTTP/1.1\r\nHost: 127.0.0.1:18099\r\nUser-Agent: curl/7.88.1\r\n\
Accept: */*\r\nContent-Type: application/octet-stream\r\nContent-Length: 48\r\n\r\n\
tttttttttttttttthhhhhhhhhhhhhhhhhhhhhhhhhhhhhhhh";

// With the fields that a browser's fetch has.
const FETCH: &[u8] = b"POST /frame HTTP/1.1\r\nHost: mail.example\r\nConnection: keep-alive\r\n\
Content-Length: 20\r\nsec-ch-ua-platform: \"Linux\"\r\nUser-Agent: Mozilla/5.0 (X11; Linux x86_64)\r\n\
sec-ch-ua-mobile: ?0\r\ncontent-type: Application/Octet-Stream\r\nAccept: */*\r\n\
Origin: https://page.example\r\nSec-Fetch-Site: cross-site\r\nSec-Fetch-Mode: cors\r\n\
Sec-Fetch-Dest: empty\r\nReferer: https://page.example/\r\nAccept-Encoding: gzip, deflate, br\r\n\
Accept-Language: en-US,en;q=0.9\r\n\r\nttttttttttttttttFRAM";

const PROOF: &[u8] =
    b"POST /proof HTTP/1.0\r\ncontent-type:application/octet-stream\r\ncontent-length:52\r\n\r\n\
ttttttttttttttttssssssssssssssssssssssssssssssssFRAM";

const PREFLIGHT: &[u8] = b"OPTIONS /frame HTTP/1.1\r\nHost: mail.example\r\nAccept: */*\r\n\
Access-Control-Request-Method: POST\r\nAccess-Control-Request-Headers: content-type\r\n\
Origin: https://page.example\r\nConnection: close\r\n\r\n";

#[test]
fn curl_asks_for_a_lease(rt: HostRuntime) {
    let heard = read(CURL);
    let Asked::Request(Request::Lease { ticket, helper }) = heard.asked else {
        return assert!(rt; false);
    };
    assert!(rt; whole(CURL) == Some(CURL.len()));
    assert!(rt; heard.keeps);
    assert!(rt; ticket.0 == [b't'; 16]);
    assert!(rt; helper.0 == [b'h'; 32]);
}

#[test]
fn a_browser_sends_a_frame(rt: HostRuntime) {
    let heard = read(FETCH);
    let Asked::Request(Request::Frame { ticket, frame }) = heard.asked else {
        return assert!(rt; false);
    };
    assert!(rt; whole(FETCH) == Some(FETCH.len()));
    assert!(rt; heard.keeps);
    assert!(rt; ticket.0 == [b't'; 16]);
    assert!(rt; frame == b"FRAM".as_slice());
}

#[test]
fn a_proof_comes_over_http_1_0(rt: HostRuntime) {
    let heard = read(PROOF);
    let Asked::Request(
        Request::Proof {
            ticket,
            statement,
            frame,
        },
    ) = heard.asked
    else {
        return assert!(rt; false);
    };
    assert!(rt; whole(PROOF) == Some(PROOF.len()));
    assert!(rt; !heard.keeps);
    assert!(rt; ticket.0 == [b't'; 16]);
    assert!(rt; statement.0 == [b's'; 32]);
    assert!(rt; frame == b"FRAM".as_slice());
}

#[test]
fn a_browser_asks_first(rt: HostRuntime) {
    let heard = read(PREFLIGHT);
    assert!(rt; whole(PREFLIGHT) == Some(PREFLIGHT.len()));
    assert!(rt; matches!(heard.asked, Asked::Preflight));
    assert!(rt; !heard.keeps);
}

#[test]
fn a_request_is_waited_for_to_its_last_byte(rt: HostRuntime) {
    for n in 0..CURL.len() {
        assert!(rt; whole(&CURL[..n]).is_none());
    }
}

#[test]
fn the_first_of_two_is_read_alone(rt: HostRuntime) {
    let mut both = [b'x'; 512];
    let end = CURL.len() + PREFLIGHT.len();
    both[..CURL.len()].copy_from_slice(CURL);
    both[CURL.len()..end].copy_from_slice(PREFLIGHT);
    let rest = &both[CURL.len()..end];
    assert!(rt; whole(&both[..end]) == Some(CURL.len()));
    assert!(rt;
        matches!(
            read(&both[..end]).asked,
            Asked::Request(Request::Lease { .. })
        )
    );
    assert!(rt; whole(rest) == Some(PREFLIGHT.len()));
    assert!(rt; matches!(read(rest).asked, Asked::Preflight));
}
