//! Doors at which nobody waits, or that can't be had.
use crate::bench::{any_port, hears, opened, opens, reach};
use many_wires::Wires;
use many_words::{Door, Taken};
use mio_wires::{MioWires, OtherServer, WiresFault, WiresSettings};
use std::net::TcpListener;
use std::test::Fail;

#[test]
fn a_door_where_nobody_waits_has_none(rt: HostRuntime) -> Result<(), Fail> {
    let mut wires = opened(&rt, OtherServer::Listen(any_port()))?;
    let before = wires.wait();
    for door in [Door::Clients, Door::Status, Door::Link, Door::Dialled] {
        let none = [wires.knocks(door), wires.open(1, door), wires.open(3, door)];
        assert!(rt; none == [false; 3]);
    }
    let taken = [
        wires.take(1, Door::Clients, &mut [0; 9]),
        wires.take(3, Door::Clients, &mut [0; 9]),
    ];
    assert!(rt; before <= wires.wait() && taken == [Taken::Over; 2]);
    Ok(())
}

#[test]
fn each_door_has_its_own_connections(rt: HostRuntime) -> Result<(), Fail> {
    let mut wires = opened(&rt, OtherServer::Listen(any_port()))?;
    let operator = reach(&rt, &mut wires, Door::Status)?;
    let came = opens(&mut wires, 1, Door::Status);
    wires.send(1, b"all");
    let others = [
        wires.knocks(Door::Clients),
        wires.open(2, Door::Clients),
        wires.open(0, Door::Link),
    ];
    assert!(rt; came && hears(&operator, b"all") && others == [false; 3]);
    Ok(())
}

#[test]
fn an_address_in_use_is_named(rt: HostRuntime) -> Result<(), Fail> {
    let other = TcpListener::bind(&rt, any_port())?;
    let at = other.local_addr()?;
    let settings = WiresSettings {
        clients: any_port(),
        status: Some(at),
        other: OtherServer::Listen(any_port()),
        places: 3,
        outstanding: 2,
    };
    let fault = MioWires::open(rt.alloc(), rt, &settings).err();
    let told = format!(in rt.alloc(); "{}", fault.unwrap_or(WiresFault::OutOfMemory))?;
    let wanted = format!(in rt.alloc(); "can't listen at {at} for operators: address in use")?;
    assert!(rt; told == wanted);
    Ok(())
}
