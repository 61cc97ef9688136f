//! A server runs.
ghost use Rattle.std.specs.Prelude.{◌≡◌, IfOk};
ghost use Rattle.kept_machine.specs.Kept.{Holds};
ghost use Rattle.logged_hub.specs.State.{IsReady};
ghost use Rattle.many_conns.specs.Hall.{IsSettled};

use crate::logs::{LogDisk, disk_at, open_helper, open_leader, opening_of, path_of};
use crate::status_door::{StatusDoor, socket_of};
use crate::watch::Watch;
use express_words::Role;
use gated_runs::{run_helper, run_leader};
use http_door::HeaderValue;
use http_wires::HttpWires;
use logged_hub::{LoggedHub, batch_of};
use many_conns::{Answering, Bounds, Doors, Hall, Patience};
use many_servers::{HelperServer, LeaderServer};
use many_wires::RecordLog;
use mio_wires::{MioWires, OtherServer, WiresFault, WiresSettings};
use node_journal::{Disk, Journal};
use server_settings::{Key, ServerSettings};
use server_status::CountingWires;
use server_words::{Start, Stop};

/// So many frames a round takes at most.
const FRAMES: usize = 128;

/// So many of them may be proofs.
const PROOFS: usize = 8;

/// So many milliseconds a client is waited for.
const FRAME_PATIENCE: u64 = 10_000;

/// So many milliseconds a client waits for the other server's answer.
const ANSWER_PATIENCE: u64 = 60_000;

/// So many rounds are run at once.
const ROUNDS: u64 = 1 << 32;

/// What a hub is opened with.
#[derive(Drop)]
struct Log<'a> {
    journal: Journal,
    disk: LogDisk<'a>,
    held: RecordLog,
    count: u64,
}

/// The connections of a server: sockets, and HTTP at the clients' door; and what they do is counted.
type ServerWires = CountingWires<HttpWires<MioWires<HostRuntime>>>;

fn stop_of(fault: WiresFault) -> Stop {
    match fault {
        WiresFault::Door(door, _, _) if door.is_client() => Stop::Address(Key::Clients),
        WiresFault::Door(..) => Stop::Address(Key::Link),
        WiresFault::System(_) => Stop::Unopened,
        WiresFault::OutOfMemory => Stop::NoMemory,
    }
}

// The addresses and places of a server's connections.
fn wires_settings(rt: &HostRuntime, settings: &ServerSettings) -> Result<WiresSettings, Stop> {
    let link = socket_of(rt, Key::Link, &settings.doors.link)?;
    Ok(WiresSettings {
        clients: socket_of(rt, Key::Clients, &settings.doors.clients)?,
        status: None,
        other: match settings.role {
            Role::Leader => OtherServer::Dial(link),
            Role::Helper => OtherServer::Listen(link),
        },
        places: settings.places as usize,
        outstanding: usize::from(settings.sizes.settings.window) + FRAMES,
    })
}

fn open_wires(rt: &HostRuntime, settings: &ServerSettings) -> Result<ServerWires, Stop> {
    let places = settings.places as usize;
    let wires = MioWires::open(rt.alloc(), *rt, &wires_settings(rt, settings)?).map_err(stop_of)?;
    let origin = match &settings.origin {
        Some(origin) => HeaderValue::of(origin.as_str().as_bytes()),
        None => None,
    };
    match HttpWires::open(rt.alloc(), wires, places, origin.as_ref()) {
        Ok(wires) => Ok(CountingWires::new(wires)),
        Err(_) => Err(Stop::NoMemory),
    }
}

// The loop of a server, before its first round.
fn open_hall<S: Answering + Drop>(
    rt: &HostRuntime,
    settings: &ServerSettings,
    server: S,
) -> Result<Hall<S>, Stop>
    ensures { IfOk result (IsSettled S.rules) }
{
    let doors = Doors {
        role: match settings.role {
            Role::Leader => many_conns::Role::Leader,
            Role::Helper => many_conns::Role::Helper,
        },
        status: 0,
        clients: (settings.places as usize).saturating_sub(1),
    };
    let bounds = Bounds {
        patience: Patience {
            frame: FRAME_PATIENCE,
            answer: ANSWER_PATIENCE,
        },
        frames: FRAMES,
        dear: PROOFS,
    };
    Hall::open(rt.alloc(), server, doors, bounds).map_err(|_| Stop::NoMemory)
}

// A server's connections and its log.
type ServerHub<'a> = LoggedHub<ServerWires, LogDisk<'a>>;

// All that a server runs with; its operator is told that it begins.
fn begin<'a, S: Answering + Drop>(
    rt: &'a HostRuntime,
    settings: &ServerSettings,
    server: S,
    log: Log<'a>,
) -> Result<(Hall<S>, ServerHub<'a>, Watch<'a>), Stop>
    requires ready { IsReady log.journal (⟦<LogDisk<'a> as Disk>⟧.disk log.disk) }
    requires held { Holds log.held (⟦<LogDisk<'a> as Disk>⟧.disk log.disk).reads }
    ensures settled { IfOk result (λ parts. IsSettled S.rules parts.0) }
{
    let Log {
        journal,
        disk,
        held,
        count,
    } = log;
    let start = Start {
        settings,
        bytes: journal.end(),
        records: count,
    };
    let hall = open_hall(rt, settings, server)?;
    let wires = open_wires(rt, settings)?;
    let batch = batch_of(rt.alloc(), FRAMES)?;
    let mut watch = Watch::open(rt, StatusDoor::of(rt, settings)?)?;
    let hub = LoggedHub::open(wires, journal, disk, held, batch);
    watch.begin(&start);
    Ok((hall, hub, watch))
}

// Serves until the log fails.
fn serve_helper(rt: &HostRuntime, settings: &ServerSettings) -> Result<(), Stop> {
    let path = path_of(rt, settings)?;
    let opening = opening_of(rt, settings)?;
    let log = open_helper(rt, &opening, disk_at(rt, &path))?;
    let server = HelperServer { gated: log.machine };
    let log = Log {
        journal: log.journal,
        disk: log.disk,
        held: log.held,
        count: log.count,
    };
    let (mut hall, mut hub, mut watch) = begin(rt, settings, server, log)?;
    run_helper(&mut hall, &mut hub, &mut watch, ROUNDS).map_err(|_| Stop::LogFailed)
}

fn serve_leader(rt: &HostRuntime, settings: &ServerSettings) -> Result<(), Stop> {
    let path = path_of(rt, settings)?;
    let opening = opening_of(rt, settings)?;
    let log = open_leader(rt, &opening, disk_at(rt, &path))?;
    let server = LeaderServer { gated: log.machine };
    let log = Log {
        journal: log.journal,
        disk: log.disk,
        held: log.held,
        count: log.count,
    };
    let (mut hall, mut hub, mut watch) = begin(rt, settings, server, log)?;
    run_leader(&mut hall, &mut hub, &mut watch, ROUNDS).map_err(|_| Stop::LogFailed)
}

/// Runs the server of the settings.
pub fn run(rt: &HostRuntime, settings: &ServerSettings) -> Result<(), Stop> {
    match settings.role {
        Role::Helper => serve_helper(rt, settings),
        Role::Leader => serve_leader(rt, settings),
    }
}
