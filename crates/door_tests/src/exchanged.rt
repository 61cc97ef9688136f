//! Round trips to a door over a net in memory.
use door_exchange::{Broken, MESSAGE_MAX, Place, exchange};
use express_words::NoMemory;
use express_words::outside::{MemoryConn, MemoryNet};
use http_door::{Reply, Request};
use lane_gate::{Ticket, TicketHash};
use std::alloc::Global;
use std::test::Fail;

const LEASE: &[u8] =
    b"HTTP/1.1 200 OK\r\nContent-Type: application/octet-stream\r\nContent-Length: 6\r\n\r\nABabcd";

const ASKED: &[u8] =
    b"POST /lease HTTP/1.1\r\nHost: leader.example:80\r\nContent-Type: application/octet-stream\r\n\
Content-Length: 48\r\n\r\ntttttttttttttttthhhhhhhhhhhhhhhhhhhhhhhhhhhhhhhh";

// A net whose one connection gives these bytes, and whose call of this number fails, 0 for none.
fn net_of(alloc: Global, answer: &[u8], failing: u64) -> Result<MemoryNet, NoMemory> {
    let mut conns = Vec::new(alloc);
    conns.push(MemoryConn::new(alloc, answer, 400, &[])?)?;
    MemoryNet::new(alloc, conns, 8, 99, &[failing])
}

// The lane and serial that a leader leases, or why there is no answer of it.
fn lease(net: &mut MemoryNet) -> Result<(u16, u32), Option<Broken>> {
    let Some(place) = Place::of("leader.example:80") else {
        return Err(None);
    };
    let asked = Request::Lease {
        ticket: Ticket([b't'; 16]),
        helper: TicketHash([b'h'; 32]),
    };
    let mut out = [0; MESSAGE_MAX];
    let mut came = [0; MESSAGE_MAX];
    match exchange(net, &place, &asked, &mut out, &mut came) {
        Ok(Reply::Lease { lane, serial }) => Ok((lane, serial)),
        Ok(_) => Err(None),
        Err(broken) => Err(Some(broken)),
    }
}

#[test]
fn a_lease_is_asked_and_told(rt: HostRuntime) -> Result<(), Fail> {
    let mut net = net_of(rt.alloc(), LEASE, 0)?;
    assert!(rt; lease(&mut net) == Ok((0x4142, 0x61626364)));
    let [conn] = net.closed() else {
        assert!(rt; false);
        return Ok(());
    };
    assert!(rt; conn.written() == ASKED);
    Ok(())
}

#[test]
fn what_is_no_answer_is_told_with_its_cause(rt: HostRuntime) -> Result<(), Fail> {
    let short = LEASE.len() - 1;
    let mut early = net_of(rt.alloc(), &LEASE[..short], 0)?;
    assert!(rt; lease(&mut early) == Err(Some(Broken::Early(83))));
    let mut closed = net_of(rt.alloc(), LEASE, 1)?;
    assert!(rt; lease(&mut closed) == Err(Some(Broken::Fault(1))));
    let mut other = net_of(rt.alloc(), b"SSH-2.0-a\r\n", 0)?;
    assert!(rt; matches!(lease(&mut other), Err(Some(Broken::Wrong(_)))));
    assert!(rt; Place::of("leader example").is_none());
    Ok(())
}
