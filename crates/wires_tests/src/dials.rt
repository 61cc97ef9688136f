//! The other server's connections.
use crate::bench::{any_port, hears, opened, opens, reach};
use many_wires::Wires;
use many_words::{Door, Taken};
use mio_wires::OtherServer;
use std::net::{SocketAddr, TcpListener};
use std::test::Fail;

// An address of this machine at which nothing listens: the system chose its port just now.
fn free_address(rt: &HostRuntime) -> Result<SocketAddr, Fail> {
    Ok(TcpListener::bind(rt, any_port())?.local_addr()?)
}

#[test]
fn a_listener_that_comes_later_is_dialled_again(rt: HostRuntime) -> Result<(), Fail> {
    let at = free_address(&rt)?;
    let mut wires = opened(&rt, OtherServer::Dial(at))?;
    wires.wait();
    let none = [wires.open(0, Door::Dialled), wires.open(0, Door::Link)];
    let listener = TcpListener::bind(&rt, at)?;
    let stands = opens(&mut wires, 0, Door::Dialled);
    let (stream, _) = listener.accept()?;
    wires.send(0, b"you");
    assert!(rt; none == [false, false] && stands && hears(&stream, b"you"));
    Ok(())
}

#[test]
fn the_next_link_takes_the_place_of_the_first(rt: HostRuntime) -> Result<(), Fail> {
    let mut wires = opened(&rt, OtherServer::Listen(any_port()))?;
    let first = reach(&rt, &mut wires, Door::Link)?;
    let came = opens(&mut wires, 0, Door::Link);
    let second = reach(&rt, &mut wires, Door::Link)?;
    let both = came && opens(&mut wires, 0, Door::Link);
    wires.send_again(0, b"two");
    let idle = wires.take(0, Door::Link, &mut [0; 9]);
    assert!(rt;
        both && hears(&second, b"two") && !hears(&first, b"two") && idle == Taken::Bytes(0)
    );
    Ok(())
}
