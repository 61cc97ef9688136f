//! What each command does.
use crate::keys::give;
use crate::logs::{opening_of, path_of};
use crate::running::run;
use crate::status_door::ask;
use express_outside::{FileDisk, JournalFile, Place, random_seed};
use express_words::Text;
use lane_gate::{Note, Ticket};
use logged_hub::read_records;
use server_run::LOG_LIMIT;
use server_settings::{ServerSettings, read_settings};
use server_words::{HELP, OwnerLine, ServerTask, Stop, VERSION};
use std::fs;
use std::fs::File;

fn print(rt: &HostRuntime, text: &str) -> Result<(), Stop> {
    let _told = print!(rt; "{text}");
    Ok(())
}

// The settings of the file at this path.
fn settings_at(rt: &HostRuntime, path: &Text) -> Result<ServerSettings, Stop> {
    let text = fs::read(rt, path.as_str()).map_err(|_| Stop::Unopened)?;
    let settings = read_settings(rt.alloc(), &text)?;
    Ok(settings)
}

// Sixteen bytes for a key.
fn drawn_ticket(rt: &HostRuntime) -> Result<Ticket, Stop> {
    let seed = random_seed(rt).map_err(|_| Stop::Unopened)?;
    let mut bytes = [0; 16];
    bytes.copy_from_slice(&seed[..16]);
    Ok(Ticket(bytes))
}

// Gives the owner of a lane a new key: its hash goes to the log, and its line for the owner's pair file is printed.
fn give_key(rt: &HostRuntime, settings: &ServerSettings, lane: u16) -> Result<(), Stop> {
    if lane >= settings.sizes.gate.owners {
        let _told = println!(rt; "lane {lane} is no owner's lane of these settings");
        return Err(Stop::Words);
    }
    let key = drawn_ticket(rt)?;
    let note = Note::Key {
        lane,
        hash: key.hash(),
    };
    let path = path_of(rt, settings)?;
    give(rt, &opening_of(rt, settings)?, &path, &note)?;
    let line = OwnerLine::of(rt.alloc(), lane, &key)?;
    let _told = println!(rt; "{line}");
    Ok(())
}

// Reads a log to its end, and says whether it is whole.
fn check(rt: &HostRuntime, path: &Text) -> Result<(), Stop> {
    // A file that isn't there would be made.
    File::open(rt, path.as_str()).map_err(|_| Stop::Unopened)?;
    let name = path.as_str();
    let place = Place {
        folder: ".",
        path: name,
        moved: name,
    };
    let mut disk = FileDisk::new(JournalFile::at(rt, place));
    match read_records(&mut disk, LOG_LIMIT) {
        Ok(held) => {
            let _told = println!(rt; "{name} is whole, {} records", held.count);
            Ok(())
        }
        Err(fault) => {
            let _told = println!(rt; "{name}: {fault}");
            Err(Stop::Unopened)
        }
    }
}

/// Does a task.
pub fn do_task(rt: &HostRuntime, task: &ServerTask) -> Result<(), Stop> {
    match task {
        ServerTask::Run(path) => run(rt, &settings_at(rt, path)?),
        ServerTask::Owner(path, lane) => give_key(rt, &settings_at(rt, path)?, *lane),
        ServerTask::Help => print(rt, HELP),
        ServerTask::Version => print(rt, VERSION),
        ServerTask::Check(path) => check(rt, path),
        ServerTask::Status(path) => ask(rt, &settings_at(rt, path)?),
    }
}
