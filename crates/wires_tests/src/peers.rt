//! What clients send, and what they get.
use crate::bench::{any_port, brings, gives, hears, opened, opens, reach};
use many_wires::Wires;
use many_words::{Door, Taken};
use mio_wires::OtherServer;
use std::io::Write;
use std::net::Shutdown;
use std::test::Fail;

/// So many answers are sent to a client that doesn't read: far more than a system holds for it.
const ANSWERS: u32 = 4000;

#[test]
fn bytes_come_in_order_in_whatever_pieces(rt: HostRuntime) -> Result<(), Fail> {
    let mut wires = opened(&rt, OtherServer::Listen(any_port()))?;
    let mut client = reach(&rt, &mut wires, Door::Clients)?;
    let came = opens(&mut wires, 1, Door::Clients);
    client.write_all(b"one")?;
    let first = brings(&mut wires, 1, b"one");
    client.write_all(b"two")?;
    client.shutdown(Shutdown::Write)?;
    let second = brings(&mut wires, 1, b"two");
    let over = gives(&mut wires, 1, Door::Clients, &mut [0; 9]);
    assert!(rt; came && first && second && over == Taken::Over);
    Ok(())
}

#[test]
fn each_of_two_clients_has_its_own_place(rt: HostRuntime) -> Result<(), Fail> {
    let mut wires = opened(&rt, OtherServer::Listen(any_port()))?;
    let mut first = reach(&rt, &mut wires, Door::Clients)?;
    let came = opens(&mut wires, 1, Door::Clients);
    let mut second = reach(&rt, &mut wires, Door::Clients)?;
    let both = came && opens(&mut wires, 2, Door::Clients);
    second.write_all(b"two")?;
    first.write_all(b"one")?;
    let brought = brings(&mut wires, 1, b"one") && brings(&mut wires, 2, b"two");
    wires.send(2, b"for");
    wires.send(1, b"not");
    let heard = hears(&first, b"not") && hears(&second, b"for");
    wires.close(1);
    let closed = wires.take(1, Door::Clients, &mut [0; 9]) == Taken::Over;
    assert!(rt; both && brought && heard && closed);
    Ok(())
}

// What a take says once output is pending, and once it has no room.
fn stalled<W: Wires>(wires: &mut W) -> [Taken; 2] {
    let mut first = Taken::Bytes(0);
    for _ in 0..ANSWERS {
        wires.send(1, &[7; 16384]);
        let taken = wires.take(1, Door::Clients, &mut [0; 9]);
        if first == Taken::Bytes(0) {
            first = taken;
        } else if taken != first {
            return [first, taken];
        }
    }
    [first, first]
}

#[test]
fn one_that_does_not_read_is_cut_off(rt: HostRuntime) -> Result<(), Fail> {
    let mut wires = opened(&rt, OtherServer::Listen(any_port()))?;
    let client = reach(&rt, &mut wires, Door::Clients)?;
    let came = opens(&mut wires, 1, Door::Clients);
    let stalled = stalled(&mut wires);
    drop(client);
    assert!(rt; came && stalled == [Taken::Pending, Taken::Over]);
    Ok(())
}
