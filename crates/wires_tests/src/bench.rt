//! Wires over loopback, and calls on them that are made again for a while.
use many_wires::Wires;
use many_words::{Door, Taken};
use mio_wires::{MioWires, OtherServer, WiresFault, WiresSettings};
use std::io;
use std::net::{Ipv4Addr, SocketAddr, TcpStream};
use std::test::Fail;
use std::time::Duration;

/// So many waits are made at most until something has come: many seconds.
const WAITS: u32 = 400;

/// Any port of this machine.
pub fn any_port() -> SocketAddr {
    SocketAddr::from((Ipv4Addr::LOCALHOST, 0))
}

/// A server with three places, of which the first one is the other server's.
pub fn opened(rt: &HostRuntime, other: OtherServer) -> Result<MioWires<HostRuntime>, WiresFault> {
    let settings = WiresSettings {
        clients: any_port(),
        status: Some(any_port()),
        other,
        places: 3,
        outstanding: 2,
    };
    MioWires::open(rt.alloc(), *rt, &settings)
}

/// A connection to a door, whose reads end after a while.
pub fn reach(
    rt: &HostRuntime,
    wires: &mut MioWires<HostRuntime>,
    door: Door,
) -> Result<TcpStream, Fail> {
    let Some(at) = wires.address(door) else {
        return Err("there is no such door")?;
    };
    let stream = TcpStream::connect(rt, at)?;
    stream.set_read_timeout(Some(Duration::from_secs(20)))?;
    Ok(stream)
}

/// Waits until a connection is opened at a place.
pub fn opens<W: Wires>(wires: &mut W, place: usize, door: Door) -> bool {
    for _ in 0..WAITS {
        wires.wait();
        if wires.open(place, door) {
            return true;
        }
    }
    false
}

/// Waits until a place gives something other than no bytes.
pub fn gives<W: Wires>(wires: &mut W, place: usize, door: Door, buf: &mut [u8]) -> Taken {
    for _ in 0..WAITS {
        wires.wait();
        let taken = wires.take(place, door, buf);
        if taken != Taken::Bytes(0) {
            return taken;
        }
    }
    Taken::Bytes(0)
}

/// Whether the next bytes of a place are these, in whatever pieces they come.
pub fn brings<W: Wires>(wires: &mut W, place: usize, wanted: &[u8]) -> bool {
    for byte in wanted {
        let mut buf = [0u8; 1];
        if gives(wires, place, Door::Clients, &mut buf) != Taken::Bytes(1) || buf[0] != *byte {
            return false;
        }
    }
    true
}

/// Whether a stream's next three bytes are these.
pub fn hears(stream: &TcpStream, wanted: &[u8; 3]) -> bool {
    let mut buf = [0u8; 3];
    read_whole(stream, &mut buf).is_ok() && buf == *wanted
}

fn read_whole(mut stream: &TcpStream, buf: &mut [u8]) -> io::Result<()> {
    io::Read::read_exact(&mut stream, buf)
}
