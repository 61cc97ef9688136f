//! A key's hash goes to a server's log.
ghost use Rattle.std.specs.Prelude.{◌≡◌, false, true};
ghost use Rattle.logged_hub.specs.State.{IsReady};
ghost use Rattle.node_journal.specs.Journal.{IsInPlace};
ghost use Rattle.lane_leases.specs.Leases.{IsOfRow};

use crate::logs::{LogPath, disk_at, open_helper, open_leader};
use express_words::Role;
use gated_servers::GatedOpening;
use lane_gate::Note;
use node_journal::{Disk, Journal};
use server_run::OpenLog;
use server_words::Stop;

// Writes the note behind what the log has.
fn append<D: Disk + Drop>(journal: &mut Journal, disk: &mut D, note: &Note) -> Result<(), Stop>
    requires ready { IsReady journal.old (D.disk disk.old) }
{
    journal
        .append(disk, &note.record())
        .map_err(|_| Stop::LogFailed)
}

fn give_helper<'x>(
    rt: &'x HostRuntime,
    opening: &GatedOpening,
    path: &'x LogPath,
    note: &Note,
) -> Result<(), Stop> {
    let OpenLog {
        mut machine,
        mut journal,
        mut disk,
        ..
    } = open_helper(rt, opening, disk_at(rt, path))?;
    machine.note(note).map_err(|_| Stop::Words)?;
    append(&mut journal, &mut disk, note)
}

fn give_leader<'x>(
    rt: &'x HostRuntime,
    opening: &GatedOpening,
    path: &'x LogPath,
    note: &Note,
) -> Result<(), Stop>
    requires { IsOfRow note.now }
{
    let OpenLog {
        mut machine,
        mut journal,
        mut disk,
        ..
    } = open_leader(rt, opening, disk_at(rt, path))?;
    machine.note(note).map_err(|_| Stop::Words)?;
    append(&mut journal, &mut disk, note)
}

/// Gives a lane the key of a note, if its gate takes it.
pub fn give<'x>(
    rt: &'x HostRuntime,
    opening: &GatedOpening,
    path: &'x LogPath,
    note: &Note,
) -> Result<(), Stop>
    requires { IsOfRow note.now }
{
    match opening.server.role {
        Role::Helper => give_helper(rt, opening, path, note),
        Role::Leader => give_leader(rt, opening, path, note),
    }
}
