//! Peers that drip, are silent, or take nothing, over loopback and with one second in place of ten.
use crate::net::free_address;
use express_outside::{Adapter, Ports, TcpPorts, TcpSocket, Timed};
use express_words::outside::{Counted, Sink, Source};
use std::io::Write;
use std::net::TcpStream;
use std::test::Fail;
use std::thread;
use std::time::{Duration, Instant};

type Near = Adapter<Timed<TcpSocket<HostRuntime>>>;

// A connection with a second for its reads and one for its writes, and its peer.
fn pair(rt: &HostRuntime, ports: &mut TcpPorts<HostRuntime>) -> Result<(Near, TcpStream), Fail> {
    let at = free_address(rt)?;
    if ports.listen(at.as_str()).is_err() {
        Err("it can't listen")?;
    }
    let peer = TcpStream::connect(rt, at.as_str())?;
    let Ok(made) = ports.accept() else {
        return Err(Fail::from("it can't accept"));
    };
    Ok((
        Adapter::new(Timed::accepted_for(made.socket, made.at, 1)),
        peer,
    ))
}

// Whether a byte that the peer sends is read, and then a part of the second is over.
fn takes_a_byte(rt: &HostRuntime, near: &mut Near, peer: &mut TcpStream) -> Result<bool, Fail> {
    peer.write_all(b"d")?;
    let is_taken = matches!(near.take(&mut [0; 8]), Ok(1));
    thread::sleep(rt, Duration::from_millis(600));
    Ok(is_taken)
}

fn replies(near: &mut Near) -> bool {
    near.put(b"reply").is_ok()
}

fn has_failed_once(near: &Near) -> bool {
    near.faults() == 1
}

// Two bytes are taken and the third is not, which may still be answered, but not a second later.
fn dripped(rt: &HostRuntime, near: &mut Near, peer: &mut TcpStream) -> Result<[bool; 6], Fail> {
    let first = takes_a_byte(rt, near, peer)?;
    let second = takes_a_byte(rt, near, peer)?;
    let third = takes_a_byte(rt, near, peer)?;
    let (failed, answered) = (has_failed_once(near), replies(near));
    thread::sleep(rt, Duration::from_millis(1100));
    Ok([first, second, third, failed, answered, replies(near)])
}

#[test]
fn a_peer_that_drips_is_cut_and_may_still_be_answered(rt: HostRuntime) -> Result<(), Fail> {
    let mut ports = TcpPorts::new(rt);
    let (mut near, mut peer) = pair(&rt, &mut ports)?;
    let told = dripped(&rt, &mut near, &mut peer)?;
    assert!(rt; told == [true, true, false, true, true, false]);
    Ok(())
}

// Whether a call takes about the second that it is given.
fn lasts_a_second(rt: &HostRuntime, start: Instant) -> Result<bool, Fail> {
    let elapsed = start.elapsed(rt)?;
    Ok(elapsed >= Duration::from_millis(900) && elapsed < Duration::from_secs(5))
}

// Whether a take fails after a second.
fn waits(rt: &HostRuntime, near: &mut Near) -> Result<bool, Fail> {
    let start = Instant::now(rt)?;
    let failed = near.take(&mut [0; 8]).is_err();
    Ok(lasts_a_second(rt, start)? && failed)
}

#[test]
fn a_silent_peer_is_cut(rt: HostRuntime) -> Result<(), Fail> {
    let mut ports = TcpPorts::new(rt);
    let (mut near, _peer) = pair(&rt, &mut ports)?;
    let waited = waits(&rt, &mut near)?;
    assert!(rt; waited);
    Ok(())
}

// Whether a put of more than a peer takes by itself fails after a second.
fn pushes(rt: &HostRuntime, near: &mut Near) -> Result<bool, Fail> {
    let bytes = vec![in rt.alloc(); 0u8; 1 << 26]?;
    let start = Instant::now(rt)?;
    let failed = near.put(&bytes).is_err();
    Ok(lasts_a_second(rt, start)? && failed)
}

#[test]
fn a_peer_that_takes_nothing_is_cut(rt: HostRuntime) -> Result<(), Fail> {
    let mut ports = TcpPorts::new(rt);
    let (mut near, _peer) = pair(&rt, &mut ports)?;
    let pushed = pushes(&rt, &mut near)?;
    assert!(rt; pushed);
    Ok(())
}
