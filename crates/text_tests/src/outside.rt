//! Each form of the outside in memory through a few calls, among them one that is listed to fail, and one that
//! finds no room.
use crate::told::is_told;
use express_words::NoMemory;
use express_words::outside::{
    Counted, Failed, MemoryConn, MemoryNet, MemorySink, MemorySource, Net, Sink, Source,
};
use std::alloc::{AllocError, Global};
use std::test::Fail;

// The answers of calls. Their callers learn nothing of what the calls do, which keeps their proofs small.
fn taken(source: &mut impl Source, buf: &mut [u8; 2]) -> Result<usize, Failed> {
    source.take(buf)
}

fn put(sink: &mut impl Sink, bytes: &[u8]) -> Result<(), Failed> {
    sink.put(bytes)
}

fn faults(object: &impl Counted) -> u64 {
    object.faults()
}

// Each tells the answer, and the count of faults by then; a take also what is in the buffer.
fn take(source: &mut impl Source, buf: &mut [u8; 2], told: &mut String) -> Result<(), AllocError> {
    let answer = taken(source, buf);
    write!(told, "{answer:?} {buf:?} {}\n", faults(source))
}

fn put_all(sink: &mut impl Sink, texts: &[&[u8]], told: &mut String) -> Result<(), AllocError> {
    for text in texts {
        let answer = put(sink, text);
        write!(told, "{answer:?} {}\n", faults(sink))?;
    }
    Ok(())
}

fn source(alloc: Global) -> Result<MemorySource, Fail> {
    Ok(MemorySource::new(alloc, b"abc", &[2])?)
}

fn sink(alloc: Global) -> Result<MemorySink, Fail> {
    Ok(MemorySink::new(alloc, 3, &[2])?)
}

fn conn(alloc: Global, given: &[u8], room: usize, failing: &[u64]) -> Result<MemoryConn, NoMemory> {
    MemoryConn::new(alloc, given, room, failing)
}

fn source_told(alloc: Global) -> Result<String, Fail> {
    let mut source = source(alloc)?;
    let mut buf = [0u8; 2];
    let mut told = String::new(alloc);
    for _ in 0..4u8 {
        take(&mut source, &mut buf, &mut told)?;
    }
    Ok(told)
}

fn sink_told(alloc: Global, texts: &[&[u8]]) -> Result<String, Fail> {
    let mut sink = sink(alloc)?;
    let mut told = String::new(alloc);
    put_all(&mut sink, texts, &mut told)?;
    write!(told, "{:?}\n", sink.written())?;
    Ok(told)
}

#[test]
fn source_and_sink_in_memory(rt: HostRuntime) -> Result<(), Fail> {
    let takes = "Ok(2) [97, 98] 0\nErr(Failed) [97, 98] 1\nOk(1) [99, 98] 1\nOk(0) [99, 98] 1\n";
    is_told(source_told(rt.alloc()), takes)?;
    let puts = "Ok(()) 0\nErr(Failed) 1\nErr(Failed) 2\nOk(()) 2\n[97, 98, 99]\n";
    is_told(sink_told(rt.alloc(), &[b"ab", b"cd", b"cd", b"c"]), puts)
}

// Whether the connection gave and took these bytes.
fn has_passed(conn: &MemoryConn, given: &[u8], written: &[u8]) -> bool {
    conn.given() == given && conn.written() == written
}

fn conn_calls_told(conn: &mut MemoryConn, told: &mut String) -> Result<(), AllocError> {
    let mut buf = [0u8; 2];
    put_all(conn, &[b"x", b"x"], told)?;
    take(conn, &mut buf, told)?;
    take(conn, &mut buf, told)?;
    put_all(conn, &[b"yz"], told)
}

fn conn_told(alloc: Global) -> Result<String, Fail> {
    let mut conn = conn(alloc, b"abc", 2, &[1, 3])?;
    let mut told = String::new(alloc);
    conn_calls_told(&mut conn, &mut told)?;
    write!(told, "{}\n", has_passed(&conn, b"ab", b"x"))?;
    Ok(told)
}

#[test]
fn connection_in_memory(rt: HostRuntime) -> Result<(), Fail> {
    let calls =
        "Err(Failed) 1\nOk(()) 1\nErr(Failed) [0, 0] 2\nOk(2) [97, 98] 2\nErr(Failed) 3\ntrue\n";
    is_told(conn_told(rt.alloc()), calls)
}

fn listen(net: &mut MemoryNet, at: &str) -> Result<(), Failed> {
    net.listen(at)
}

fn accept(net: &mut MemoryNet) -> Result<MemoryConn, Failed> {
    net.accept()
}

fn dial(net: &mut MemoryNet, peer: &str) -> Result<MemoryConn, Failed> {
    net.dial(peer)
}

// Closes a connection, or says that there is none.
fn close(net: &mut MemoryNet, conn: Result<MemoryConn, Failed>) -> bool {
    match conn {
        Ok(conn) => {
            net.close(conn);
            false
        }
        Err(Failed) => true,
    }
}

fn two_conns(alloc: Global) -> Result<Vec<MemoryConn>, NoMemory> {
    let mut conns = Vec::new(alloc);
    for byte in [b"a", b"b"] {
        conns.push(conn(alloc, byte, 1, &[])?)?;
    }
    Ok(conns)
}

fn net_of(
    alloc: Global,
    conns: Vec<MemoryConn>,
    room: (usize, usize),
    failing: &[u64],
) -> Result<MemoryNet, Fail> {
    Ok(MemoryNet::new(alloc, conns, room.0, room.1, failing)?)
}

// Listens, accepts, dials and closes, with at most one failing call, and says which calls failed, how many faults
// the net has, and how many connections were closed.
fn calls(alloc: Global, failing: &[u64]) -> Result<([bool; 4], u64, usize), Fail> {
    let conns = two_conns(alloc)?;
    let mut net = net_of(alloc, conns, (6, 8), failing)?;
    let listened = listen(&mut net, "here").is_err();
    let accepted = accept(&mut net);
    let dialled = dial(&mut net, "them");
    let last = dial(&mut net, "").is_err();
    let accepted = close(&mut net, accepted);
    let dialled = close(&mut net, dialled);
    Ok((
        [listened, accepted, dialled, last],
        faults(&net),
        net.closed().len(),
    ))
}

fn calls_told(alloc: Global, lists: &[&[u64]]) -> Result<String, Fail> {
    let mut told = String::new(alloc);
    for failing in lists {
        let (failed, faults, closed) = calls(alloc, failing)?;
        write!(told, "{failed:?} {faults} {closed}\n")?;
    }
    Ok(told)
}

const CALLS: &str = "[false, false, false, true] 1 2\n[true, false, false, true] 2 2\n\
    [false, true, false, false] 1 1\n[false, false, true, false] 1 1\n[false, false, false, true] 1 2\n";

#[test]
fn net_in_memory(rt: HostRuntime) -> Result<(), Fail> {
    is_told(
        calls_told(rt.alloc(), &[&[], &[1], &[2], &[3], &[4]]),
        CALLS,
    )
}

// A net with room for 4 calls.
fn small_net(alloc: Global) -> Result<MemoryNet, Fail> {
    let mut conns = Vec::new(alloc);
    conns.push(conn(alloc, b"abc", 1, &[3, 4])?)?;
    net_of(alloc, conns, (4, 4), &[2])
}

// Two calls, and two that fail.
fn is_broken_by_calls(conn: &mut MemoryConn) -> bool {
    let mut buf = [0u8; 2];
    taken(conn, &mut buf) == Ok(2)
        && put(conn, b"x") == Ok(())
        && put(conn, b"") == Err(Failed)
        && taken(conn, &mut buf) == Err(Failed)
}

fn has_closed(net: &MemoryNet, given: &[u8], written: &[u8]) -> bool {
    match net.closed() {
        [conn] => has_passed(conn, given, written),
        _ => false,
    }
}

// The net's count rises once for a connection with two faults, and the next call is numbered as before.
fn counted(net: &mut MemoryNet) -> [bool; 4] {
    [
        faults(net) == 1,
        has_closed(net, b"ab", b"x"),
        listen(net, "") == Err(Failed),
        faults(net) == 2,
    ]
}

#[test]
fn connection_from_a_net(rt: HostRuntime) -> Result<(), Fail> {
    let mut net = small_net(rt.alloc())?;
    let mut conn = dial(&mut net, "them")?;
    let broken = is_broken_by_calls(&mut conn);
    close(&mut net, Ok(conn));
    assert!(rt; broken && counted(&mut net) == [true; 4]);
    Ok(())
}
