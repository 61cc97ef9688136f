//! The log of a server, in its folder.
ghost use Rattle.std.specs.Prelude.{IfOk};
ghost use Rattle.kept_machine.specs.Kept.{Holds};
ghost use Rattle.logged_hub.specs.State.{IsReady};
ghost use Rattle.node_journal.specs.Records.{IsSized};

use express_outside::{FileDisk, JournalFile, Place, random_seed};
use gated_servers::{GATED_OPENING_LEN, GatedHelper, GatedLeader, GatedOpening};
use kept_machine::{KeepFault, Machine};
use node_journal::Disk;
use node_restart::Opening;
use server_run::{OpenLog, open_log};
use server_settings::ServerSettings;
use server_words::Stop;

/// The name of a server's log in its folder.
const LOG: &str = "express-server.log";

/// The disk of a log in a file.
pub type LogDisk<'a> = FileDisk<JournalFile<'a>>;

/// The paths of a log and of its folder.
#[derive(Drop)]
pub struct LogPath {
    folder: String,
    file: String,
}

/// The log's path in the settings' folder.
pub fn path_of(rt: &HostRuntime, settings: &ServerSettings) -> Result<LogPath, Stop> {
    let folder = settings.folder.as_str();
    let file = format!(in rt.alloc(); "{folder}/{LOG}").map_err(|_| Stop::NoMemory)?;
    let folder = String::from_str(rt.alloc(), folder).map_err(|_| Stop::NoMemory)?;
    Ok(LogPath { folder, file })
}

/// The opening of a new server of these settings, with a seed that is drawn now.
pub fn opening_of(rt: &HostRuntime, settings: &ServerSettings) -> Result<GatedOpening, Stop> {
    let seed = random_seed(rt).map_err(|_| Stop::Unopened)?;
    Ok(GatedOpening {
        server: Opening {
            role: settings.role,
            settings: settings.sizes.settings,
            seed,
        },
        gate: settings.sizes.gate,
    })
}

// Whether a server was opened as these settings say, with whatever seed.
fn is_same(opening: &GatedOpening, wanted: &GatedOpening) -> bool {
    let seed = opening.server.seed;
    let server = Opening {
        seed,
        ..wanted.server
    };
    *opening
        == GatedOpening {
            server,
            gate: wanted.gate,
        }
}

/// The log of a path, which isn't touched yet.
pub fn disk_at<'a>(rt: &'a HostRuntime, path: &'a LogPath) -> LogDisk<'a> {
    let file = path.file.as_str();
    FileDisk::new(JournalFile::at(
        rt,
        Place {
            folder: path.folder.as_str(),
            path: file,
            moved: file,
        },
    ))
}

fn stop_of(fault: KeepFault) -> Stop {
    match fault {
        KeepFault::NoMemory => Stop::NoMemory,
        _ => Stop::Unopened,
    }
}

// The machine of a log, or of a new one that begins with this opening's record, if it is one of this machine.
fn open_machine<'a, M: Machine + Drop>(
    rt: &HostRuntime,
    opening: &GatedOpening,
    disk: LogDisk<'a>,
) -> Result<OpenLog<M, LogDisk<'a>>, Stop>
    ensures ready { IfOk result (λ log. IsReady log.journal (⟦<LogDisk<'a> as Disk>⟧.disk log.disk)) }
    ensures held { IfOk result (λ log. Holds log.held (⟦<LogDisk<'a> as Disk>⟧.disk log.disk).reads) }
{
    let record: [u8; GATED_OPENING_LEN] = opening.record();
    if !M::is_opening(&record) {
        return Err(Stop::Unopened);
    }
    open_log(rt.alloc(), &record, disk).map_err(stop_of)
}

/// The helper of a log, or a new one, where the log's is of these settings.
pub fn open_helper<'a>(
    rt: &HostRuntime,
    opening: &GatedOpening,
    disk: LogDisk<'a>,
) -> Result<OpenLog<GatedHelper, LogDisk<'a>>, Stop>
    ensures ready { IfOk result (λ log. IsReady log.journal (⟦<LogDisk<'a> as Disk>⟧.disk log.disk)) }
    ensures held { IfOk result (λ log. Holds log.held (⟦<LogDisk<'a> as Disk>⟧.disk log.disk).reads) }
{
    let log = open_machine::<GatedHelper>(rt, opening, disk)?;
    if !is_same(&log.machine.opening, opening) {
        return Err(Stop::Unopened);
    }
    Ok(log)
}

/// The leader of a log, likewise.
pub fn open_leader<'a>(
    rt: &HostRuntime,
    opening: &GatedOpening,
    disk: LogDisk<'a>,
) -> Result<OpenLog<GatedLeader, LogDisk<'a>>, Stop>
    ensures ready { IfOk result (λ log. IsReady log.journal (⟦<LogDisk<'a> as Disk>⟧.disk log.disk)) }
    ensures held { IfOk result (λ log. Holds log.held (⟦<LogDisk<'a> as Disk>⟧.disk log.disk).reads) }
{
    let log = open_machine::<GatedLeader>(rt, opening, disk)?;
    if !is_same(&log.machine.opening, opening) {
        return Err(Stop::Unopened);
    }
    Ok(log)
}
