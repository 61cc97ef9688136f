//! Runs over a net in memory that gives recorded answers.
use crate::hidden::Hidden;
use crate::nets::{HiddenNet, net_of};
use crate::told::is_told;
use client_run::{Ran, Untold, run_carry, run_client};
use express_words::outside::{MemoryConn, MemorySink};
use settings_text::{read_carry, read_client};
use std::alloc::{AllocError, Global};
use std::test::Fail;

const SERVERS: &str = "lane = 0\nleader = 'leader'\nhelper = 'helper'\nboxes = 4\n";

const SEED: &str = "seed = 'ef3fdfd6c61578fbf5cf35bd3dd33b8009631634d21e42ac33960bd138e50d32'\n";

// Registers a box at address 0, writes to it, and reads it and a box that isn't there.
const CLIENT: [&str; 5] = [
    "width = 16\nserial = 1\n",
    "request = [{ kind = 'register', address = '00000000000000000000000000000000' },\n",
    "{ kind = 'write', address = '00000000000000000000000000000000',\n",
    "message = 'ffffffffffffffffffffffffffffffff' },\n",
    "{ kind = 'read', own = 0 }, { kind = 'read', own = 1 }]\n",
];

const SEND: [&str; 2] = [
    "width = 32\nserial = 2\nmode = 'send'\nid = 7\nfile = '000102'\n",
    "addresses = ['00000000000000000000000000000000']\n",
];

const FETCH: [&str; 2] = [
    "width = 32\nserial = 3\nmode = 'fetch'\n",
    "owned = [{ box = 0, serial = 1 }]\n",
];

const FETCH_TWO: [&str; 2] = [
    "width = 32\nserial = 3\nmode = 'fetch'\n",
    "owned = [{ box = 0, serial = 1 }, { box = 9, serial = 2 }]\n",
];

// The answers of an independent program to the client.
const ANSWERS: [&str; 8] = [
    "000000110106000000000001000000000000000001",
    "00000015010800000000000100000000000000000100000000",
    "000000110106000000000002000000000000000001",
    "00000030010700000000000200000000000000002207dd24764a1e08c1b72088db60435968dc1dc96c2844bc339ba7042646af16",
    "000000110106000000000002000000000000000002",
    "000000110108000000000002000000000000000002",
    "000000110106000000000003000000000000000001",
    "00000031010800000000000300000000000000000323ea3d83a3769e9362fd7047e721c92311440b55eb480931e524bb98d8ecf36d",
];

// The first two frames that this program sends.
const FRAMES: &str =
    "000000310101000000000001000000000000000001cf323ab90f22f9f0d536e2b50d47830f798663b944f225a3381755501a62a218\n\
    0000004001020000000000010000000000000000000000000000000000000000000000001ae9902a1c493fa84a8ad2034a502d2caa003c7f1f4e485911b807342e02ec09\n";

// The first bytes of the first answer.
const EARLY: &str = "000000110106000000";

const AGAIN: &str = "00000019010900000000000100000000000000000d0000000000000001";

// A part of a file, in two shares that were masked by another program, and then a refusal.
const FETCHED: [&str; 4] = [
    "000000110106000000000003000000000000000001",
    "000000510108000000000003000000000000000003d73a4fc62e817e0a17458877b2348d4ab8bf6293d2aca90e74b34e01fcbbfb121a6b86ef994016506f63bc56720548fb3b28c115847cabad989fc674e0b583f5",
    "000000110106000000000004000000000000000001",
    "00000015010900000000000400000000000000000800000009",
];

fn text_of(alloc: Global, lines: &[&str]) -> Result<String, AllocError> {
    let mut text = String::new(alloc);
    text.push_str(SERVERS)?;
    text.push_str(SEED)?;
    for line in lines {
        text.push_str(line)?;
    }
    Ok(text)
}

/// The net of a run, and what takes its lines.
#[derive(Drop)]
struct Ends {
    net: HiddenNet,
    out: Hidden<MemorySink>,
}

fn sink(alloc: Global, failing: u64) -> Result<Hidden<MemorySink>, Fail> {
    let inside = MemorySink::new(alloc, 400, &[failing])?;
    Ok(Hidden { inside })
}

// The net's call and the put with these numbers fail, 0 for none.
fn ends_of(alloc: Global, answers: &[&str], call: u64, put: u64) -> Result<Ends, Fail> {
    Ok(Ends {
        net: net_of(alloc, answers, call)?,
        out: sink(alloc, put)?,
    })
}

// The run of the client, or of the carrier, of these settings. Callers learn nothing of what they promise, which
// keeps their proofs small.
fn client_runs(alloc: Global, text: &[u8], ends: &mut Ends) -> Result<Result<Ran, Untold>, Fail> {
    let settings = read_client(alloc, text)?;
    Ok(run_client(
        alloc,
        &settings,
        &[7; 32],
        &mut ends.out.inside,
        &mut ends.net.inside,
    ))
}

fn carrier_runs(alloc: Global, text: &[u8], ends: &mut Ends) -> Result<Result<Ran, Untold>, Fail> {
    let settings = read_carry(alloc, text)?;
    Ok(run_carry(
        alloc,
        &settings,
        &[7; 32],
        &mut ends.out.inside,
        &mut ends.net.inside,
    ))
}

fn lines_told(out: &Hidden<MemorySink>, told: &mut String) -> Result<(), Fail> {
    let lines = std::str::from_utf8(out.inside.written())?;
    Ok(told.push_str(lines)?)
}

// The last text of a run and how it ended, or why the text isn't told.
fn last_told(ran: &Result<Ran, Untold>, told: &mut String) -> Result<(), AllocError> {
    match ran {
        Ok(ran) => write!(told, "{}{:?}", ran.text.as_str(), ran.end),
        Err(untold) => write!(told, "{untold}"),
    }
}

fn closed_by(ends: &Ends) -> usize {
    ends.net.inside.closed().len()
}

// What a run put, its last text, how it ended, and how many connections it closed.
fn told_of(alloc: Global, ran: &Result<Ran, Untold>, ends: &Ends) -> Result<String, Fail> {
    let mut told = String::new(alloc);
    lines_told(&ends.out, &mut told)?;
    last_told(ran, &mut told)?;
    write!(told, " {}\n", closed_by(ends))?;
    Ok(told)
}

fn client_told(alloc: Global, answers: &[&str], call: u64, put: u64) -> Result<String, Fail> {
    let text = text_of(alloc, &CLIENT)?;
    let mut ends = ends_of(alloc, answers, call, put)?;
    let ran = client_runs(alloc, text.as_bytes(), &mut ends)?;
    told_of(alloc, &ran, &ends)
}

/// What is told of a carrier's run.
pub(crate) fn carrier_told(
    alloc: Global,
    lines: &[&str],
    answers: &[&str],
) -> Result<String, Fail> {
    let text = text_of(alloc, lines)?;
    let mut ends = ends_of(alloc, answers, 0, 0)?;
    let ran = carrier_runs(alloc, text.as_bytes(), &mut ends)?;
    told_of(alloc, &ran, &ends)
}

const OUTCOMES: &str = "outcome 0 registered 0\noutcome 1 accepted\n\
    outcome 2 message ffffffffffffffffffffffffffffffff\noutcome 3 no box 1\nend\nDone 8\n";

#[test]
fn client_runs_to_its_end(rt: HostRuntime) -> Result<(), Fail> {
    let alloc = rt.alloc();
    is_told(client_told(alloc, &ANSWERS, 0, 0), OUTCOMES)?;
    let again = client_told(alloc, &[ANSWERS[0], AGAIN], 0, 0);
    is_told(again, "stopped again 1\nDone 2\n")?;
    let early = client_told(alloc, &[ANSWERS[0], EARLY], 0, 0);
    is_told(early, "stopped answer\nDone 2\n")?;
    let fault = client_told(alloc, &ANSWERS, 5, 0);
    is_told(fault, "outcome 0 registered 0\nnet fault\nNetFault 4\n")
}

fn frame_told(alloc: Global, conn: &MemoryConn, told: &mut String) -> Result<(), Fail> {
    let digits = hex::encode(alloc, conn.written())?;
    write!(told, "{digits}\n")?;
    Ok(())
}

fn two_told(alloc: Global, ends: &Ends, told: &mut String) -> Result<(), Fail> {
    let [first, second, ..] = ends.net.inside.closed() else {
        return Err(Fail::new("fewer connections were closed"));
    };
    frame_told(alloc, first, told)?;
    frame_told(alloc, second, told)
}

// The first two frames that a run sends.
fn frames_told(alloc: Global) -> Result<String, Fail> {
    let text = text_of(alloc, &CLIENT)?;
    let mut ends = ends_of(alloc, &ANSWERS, 0, 0)?;
    client_runs(alloc, text.as_bytes(), &mut ends)??;
    let mut told = String::new(alloc);
    two_told(alloc, &ends, &mut told)?;
    Ok(told)
}

#[test]
fn frames_are_sent(rt: HostRuntime) -> Result<(), Fail> {
    is_told(frames_told(rt.alloc()), FRAMES)
}

#[test]
fn sends_and_fetches(rt: HostRuntime) -> Result<(), Fail> {
    let alloc = rt.alloc();
    let sent = carrier_told(alloc, &SEND, &ANSWERS[2..6]);
    is_told(sent, "outcome 0 accepted\nsent 1\nend\nDone 4\n")?;
    let fetched = carrier_told(alloc, &FETCH, &FETCHED[..2]);
    is_told(fetched, "file 000102\nend\nDone 2\n")?;
    let broken = "outcome 1 refused nobox 9\n\
        box 0 0000000000000007000000010003000000010200000000000000000000000000\nstopped outcome\nDone 4\n";
    is_told(carrier_told(alloc, &FETCH_TWO, &FETCHED), broken)
}

// A register takes two exchanges, a write four and a read two; a line that can't be put ends the run.
#[test]
fn tells_each_before_the_next(rt: HostRuntime) -> Result<(), Fail> {
    let alloc = rt.alloc();
    is_told(client_told(alloc, &ANSWERS, 0, 1), "write fault 2\n")?;
    let one = client_told(alloc, &ANSWERS, 0, 2);
    is_told(one, "outcome 0 registered 0\nwrite fault 6\n")?;
    let two = client_told(alloc, &ANSWERS, 0, 3);
    is_told(
        two,
        "outcome 0 registered 0\noutcome 1 accepted\nwrite fault 8\n",
    )
}
