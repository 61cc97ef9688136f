//! A helper at its door, over a net in memory. The deposit and its answer are those of an independent
//! program.
use crate::hidden::Hidden;
use crate::nets::{HiddenNet, net_of};
use crate::told::is_told;
use express_words::{NoMemory, Role, Settings, Text};
use node_restart::KeepFault;
use node_serve::{Halt, Never, Node, Stop, Tally, host, open_node};
use settings_text::ServeSettings;
use std::alloc::{AllocError, Global};
use std::test::Fail;
use wire_frames::Gather;

const DEPOSIT: &str =
    "000000310101000000000001000000000000000001cf323ab90f22f9f0d536e2b50d47830f798663b944f225a3381755501a62a218";

const SETTINGS: Settings = Settings {
    width: 16,
    boxes: 5,
    lanes: 1,
    window: 1,
};

fn helper(alloc: Global) -> Result<Hidden<Node>, NoMemory> {
    let settings = ServeSettings {
        role: Role::Helper,
        listen: Text::from_string(String::new(alloc)),
        peer: Text::from_string(String::new(alloc)),
        settings: SETTINGS,
        connections: 3,
    };
    let inside = open_node(alloc, &settings, &[7; 32])?;
    Ok(Hidden { inside })
}

fn gather(alloc: Global) -> Result<Hidden<Gather>, NoMemory> {
    let inside = Gather::open(alloc)?;
    Ok(Hidden { inside })
}

// Serves three connections. Its callers learn nothing of what the host promises.
fn served(
    node: &mut Hidden<Node>,
    gather: &mut Hidden<Gather>,
    net: &mut HiddenNet,
) -> Result<Tally, Stop<Never>> {
    host(&mut node.inside, "", &mut gather.inside, 3, &mut net.inside)
}

// A helper serves three connections of this net.
fn hosted(alloc: Global, net: &mut HiddenNet) -> Result<Result<Tally, Stop<Never>>, NoMemory> {
    let mut gather = gather(alloc)?;
    let mut node = helper(alloc)?;
    Ok(served(&mut node, &mut gather, net))
}

fn tally_told(tally: Result<Tally, Stop<Never>>, told: &mut String) -> Result<(), AllocError> {
    match tally {
        Ok(tally) => write!(told, "{tally}\n"),
        Err(Stop { halt, tally }) => match halt {
            Halt::Door => write!(told, "an accept failed, {tally}\n"),
            Halt::Log(never) => match never {},
        },
    }
}

// How many connections were closed, and in hex what was written to the first of them.
fn closed_told(alloc: Global, net: &HiddenNet, told: &mut String) -> Result<(), Fail> {
    let closed = net.inside.closed();
    let [first, ..] = closed else {
        return Err(Fail::new("no connection was closed"));
    };
    let digits = hex::encode(alloc, first.written())?;
    write!(told, "closed {} {digits}\n", closed.len())?;
    Ok(())
}

fn connections_told(alloc: Global, texts: &[&str; 3], failing: u64) -> Result<String, Fail> {
    let mut net = net_of(alloc, texts, failing)?;
    let tally = hosted(alloc, &mut net)?;
    let mut told = String::new(alloc);
    tally_told(tally, &mut told)?;
    closed_told(alloc, &net, &mut told)?;
    Ok(told)
}

const THREE: &str = "served 3 answered 2 ended 1 connfaults 0 linkfaults 0 linkbad 0\n\
    closed 3 000000110106000000000001000000000000000001\n";

const ONE: &str =
    "an accept failed, served 1 answered 1 ended 0 connfaults 0 linkfaults 0 linkbad 0\n\
    closed 1 000000110106000000000001000000000000000001\n";

// Three connections are served; and where the second accept fails, one.
#[test]
fn connections(rt: HostRuntime) -> Result<(), Fail> {
    let early = [DEPOSIT, "00000031", "00000000"];
    is_told(connections_told(rt.alloc(), &early, 0), THREE)?;
    is_told(connections_told(rt.alloc(), &[DEPOSIT; 3], 2), ONE)
}

fn stop_told(halt: Halt<KeepFault>, told: &mut String) -> Result<(), AllocError> {
    let tally = Tally::new();
    write!(told, "{}\n", Stop { halt, tally })
}

fn stops_told(alloc: Global) -> Result<String, Fail> {
    let mut told = String::new(alloc);
    stop_told(Halt::Log(KeepFault::NoMemory), &mut told)?;
    stop_told(Halt::Door, &mut told)?;
    Ok(told)
}

// What is said of a server that ended early, with and without a fault of its journal.
#[test]
fn stops(rt: HostRuntime) -> Result<(), Fail> {
    let wanted = "out of memory, served 0 answered 0 ended 0 connfaults 0 linkfaults 0 linkbad 0\n\
        an accept failed, served 0 answered 0 ended 0 connfaults 0 linkfaults 0 linkbad 0\n";
    is_told(stops_told(rt.alloc()), wanted)
}
