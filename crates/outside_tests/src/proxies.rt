//! Dials through a proxy in memory.
use express_words::NoMemory;
use express_words::outside::{Counted, MemoryConn, MemoryNet, Net, Sink, Source};
use socks_proxy::{ProxiedNet, Proxy, ProxyFault};
use std::alloc::Global;
use std::test::Fail;

const PLACE: &str = "aaaaaaaabbbbbbbbccccccccddddddddeeeeeeee2222222233333333.onion:7000";

const DRAWN: [u8; 16] = *b"sixteen of chaos";

/// A yes, as Tor answers it, and then a byte of the server's.
const YES: &[u8] = b"\x05\x02\x01\x00\x05\x00\x00\x01\x00\x00\x00\x00\x00\x00!";

/// What is said for the first dial of a net, up to the host, and behind that, with two bytes of the program's.
const SAID: &[u8] =
    b"\x05\x01\x02\x01\x18sixteen of chaos\0\0\0\0\0\0\0\0\x07express\x05\x01\x00\x03\x3e";

// A net below whose one connection gives these bytes.
fn net_of<'a>(
    alloc: Global,
    answer: &[u8],
    proxy: Proxy<'a>,
) -> Result<ProxiedNet<'a, MemoryNet>, NoMemory> {
    let mut conns = Vec::new(alloc);
    conns.push(MemoryConn::new(alloc, answer, 200, &[])?)?;
    let below = MemoryNet::new(alloc, conns, 8, 400, &[])?;
    Ok(ProxiedNet::new(alloc, below, proxy, &DRAWN))
}

// Whether two bytes go through a connection to the place, and one comes.
fn goes_through(net: &mut ProxiedNet<'_, MemoryNet>) -> bool {
    let mut buf = [0u8; 4];
    match net.dial(PLACE) {
        Ok(conn) => {
            let mut conn = conn;
            let put = conn.put(b"hi").is_ok();
            let taken = matches!(conn.take(&mut buf), Ok(1)) && buf[0] == b'!';
            net.close(conn);
            put && taken
        }
        Err(_) => false,
    }
}

// Whether the first closed connection took what is said to a proxy, and then the two bytes.
fn took_all(net: &ProxiedNet<'_, MemoryNet>) -> bool {
    match net.below.closed() {
        [conn] => {
            let written = conn.written();
            written.starts_with(SAID) && written.ends_with(b".onion\x1b\x58hi")
        }
        _ => false,
    }
}

#[test]
fn a_dial_goes_through_the_proxy(rt: HostRuntime) -> Result<(), Fail> {
    let mut net = net_of(rt.alloc(), YES, Proxy::Tor)?;
    let told = [goes_through(&mut net), took_all(&net), net.why().is_none()];
    assert!(rt; told == [true; 3]);
    Ok(())
}

// Why a dial of this place fails, where the connection below gives this answer; and whether the proxy is dialled once.
fn refusal(alloc: Global, answer: &[u8], place: &str) -> Result<Option<ProxyFault>, NoMemory> {
    let mut net = net_of(alloc, answer, Proxy::Named("localhost:1"))?;
    match net.dial(place) {
        Ok(conn) => {
            net.close(conn);
            Ok(None)
        }
        Err(_) => Ok(net.why()),
    }
}

#[test]
fn each_refusal_has_its_cause(rt: HostRuntime) -> Result<(), Fail> {
    let alloc = rt.alloc();
    let told = [
        refusal(alloc, b"HTTP/1.1 400", PLACE)?,
        refusal(alloc, b"\x05\xff", PLACE)?,
        refusal(alloc, b"\x05\x02\x01\x01", PLACE)?,
        refusal(alloc, b"\x05\x02\x01\x00\x05\x04\x00\x01\x00\x00", PLACE)?,
        refusal(
            alloc,
            b"\x05\x02\x01\x00\x05\x00\x00\x01\x00\x00\x00\x00\x00",
            PLACE,
        )?,
        refusal(alloc, YES, "short.onion:7000")?,
    ];
    let wanted = [
        Some(ProxyFault::NotSocks),
        Some(ProxyFault::NoNames),
        Some(ProxyFault::NeedsPassword),
        Some(ProxyFault::Refused(4)),
        Some(ProxyFault::Ended),
        Some(ProxyFault::Place),
    ];
    assert!(rt; told == wanted);
    Ok(())
}
