//! A net over loopback.
use express_outside::{Adapter, TcpNet, TcpPorts, TcpSocket, Timed};
use express_words::outside::{Conn, Counted, Net, Sink, Source};
use std::net::{Shutdown, TcpListener, TcpStream};
use std::test::Fail;
use std::time::Instant;

type Loopback = TcpNet<TcpPorts<HostRuntime>>;

// Whether the next bytes of a source, of which no more are asked, are these.
fn gives<S: Source>(from: &mut S, wanted: &[u8; 3]) -> bool {
    let mut buf = [0u8; 3];
    matches!(from.take(&mut buf), Ok(3)) && buf == *wanted
}

fn has_ended<S: Source>(from: &mut S) -> bool {
    matches!(from.take(&mut [0; 3]), Ok(0))
}

// Whether what the one end puts, the other takes, and after it the end.
fn talk<N: Net>(net: &mut N, near: &mut N::Conn, far: N::Conn) -> bool {
    let mut far = far;
    let asked = near.put(b"tothem").is_ok() && gives(&mut far, b"tot") && gives(&mut far, b"hem");
    let answered = far.put(b"you").is_ok();
    net.close(far);
    asked && answered && gives(near, b"you") && has_ended(near)
}

// Whether a connection can't be written to any more, and nobody answers to it.
fn is_mute<C: Conn>(conn: &mut C) -> bool {
    conn.put(b"more").is_err() && conn.take(&mut [0; 3]).is_err() && conn.faults() == 2
}

fn has_counted(net: &Loopback, faults: u64, doors: u64) -> bool {
    net.faults() == faults && net.door_faults() == doors
}

fn accepts(net: &mut Loopback) -> bool {
    net.accept().is_ok()
}

fn listens(net: &mut Loopback, at: &str) -> bool {
    net.listen(at).is_ok()
}

fn dials(net: &mut Loopback, peer: &str) -> bool {
    net.dial(peer).is_ok()
}

/// An address of this machine at which nothing listens: the system chose its port just now.
pub fn free_address(rt: &HostRuntime) -> Result<String, Fail> {
    let door = TcpListener::bind(rt, "127.0.0.1:0")?;
    Ok(format!(in rt.alloc(); "{}", door.local_addr()?)?)
}

// Where the net listens from now on.
fn listening(rt: &HostRuntime, net: &mut Loopback) -> Result<String, Fail> {
    let at = free_address(rt)?;
    if !listens(net, at.as_str()) {
        Err("it can't listen")?;
    }
    Ok(at)
}

// Whether bytes go both ways between the net and itself.
fn talks<N: Net>(net: &mut N, at: &str) -> bool
where
    N::Conn: Drop,
{
    let (Ok(mut near), Ok(far)) = (net.dial(at), net.accept()) else {
        return false;
    };
    let talked = talk(net, &mut near, far);
    net.close(near);
    talked
}

// Whether a connection that was shut at this end, and to which nobody answers, fails in both directions.
fn fails(rt: &HostRuntime, net: &mut Loopback, at: &str) -> Result<bool, Fail> {
    let stream = TcpStream::connect(rt, at)?;
    stream.shutdown(Shutdown::Write)?;
    let mut mute = Adapter::new(Timed::lasting(TcpSocket::new(*rt, stream), Instant::now(rt)?, 1));
    let failed = is_mute(&mut mute);
    net.close(mute);
    Ok(failed)
}

// Nothing listens yet, and the texts lack a port.
fn unheard(net: &mut Loopback) -> [bool; 4] {
    [
        !accepts(net),
        !listens(net, "no address"),
        !dials(net, "127.0.0.1"),
        has_counted(net, 3, 2),
    ]
}

// Bytes go both ways, and a connection that is shut fails.
fn heard(rt: &HostRuntime, net: &mut Loopback) -> Result<[bool; 4], Fail> {
    let at = listening(rt, net)?;
    let (talked, none) = (talks(net, at.as_str()), has_counted(net, 3, 2));
    let failed = fails(rt, net, at.as_str())?;
    Ok([talked, none, failed, has_counted(net, 4, 2)])
}

#[test]
fn bytes_go_both_ways_and_each_fault_of_a_net_is_counted(rt: HostRuntime) -> Result<(), Fail> {
    let mut net = TcpNet::new(TcpPorts::new(rt));
    let unheard = unheard(&mut net);
    let heard = heard(&rt, &mut net)?;
    assert!(rt; unheard == [true; 4] && heard == [true; 4]);
    Ok(())
}
