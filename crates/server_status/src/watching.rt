//! A server runs while somebody watches.
ghost use Rattle.std.specs.Prelude.{◌≡◌, OnOk, OnErr};
ghost use Rattle.many_conns.specs.Ends.{BreaksOff};
ghost use Rattle.many_conns.specs.Hall.{IsSettled, Leads, RoundsOf};
ghost use Rattle.logged_hub.specs.Runs.{CallByCall, Fails, Proceeds};
ghost use Rattle.logged_hub.specs.State.{IsKept, records_in, told_of};
ghost use Rattle.server_status.specs.Statuses.{link_of, status_in};
ghost use Rattle.server_status.specs.Tallies.{tallied};
ghost use Rattle.server_status.specs.Views.{calls_of};

use crate::counting::CountingWires;
use crate::figures::{Figured, Figures};
use crate::status::{ClientCounts, LinkTurn, Status};
use crate::tally::Tally;
use logged_hub::LoggedHub;
use many_conns::{Answering, Hall, Stop};
use many_wires::Wires;
use node_journal::Disk;
use server_run::run_server;

/// Who is told how a server stands behind each round.
pub trait Viewer {
    /// The server stands so now.
    fn view(&mut self, status: &Status);
}

fn link_of(linked: bool) -> LinkTurn
    ensures { result ≡ link_of linked }
{
    if linked { LinkTurn::Up } else { LinkTurn::Down }
}

fn status_in(tally: &Tally, bytes: u64, figures: Figures) -> Status
    ensures { result ≡ status_in tally.now bytes figures }
{
    Status {
        seconds: tally.moment / 1000,
        link: link_of(tally.linked),
        links: tally.links,
        clients: ClientCounts {
            present: tally
                .came
                .saturating_sub(tally.dropped)
                .saturating_sub(tally.closed),
            dropped: tally.dropped,
            closed: tally.closed,
        },
        work: tally.work,
        bytes,
        figures,
    }
}

/// How a server stands: by the calls on its connections, its log, and its own state.
pub fn status_of<S: Answering + Figured, W: Wires, D: Disk>(
    hall: &Hall<S>,
    hub: &LoggedHub<CountingWires<W>, D>,
) -> Status
    ensures { result ≡ status_in (tallied hub.now.wires.calls) hub.now.journal.end (S.figures_in hall.entry.now.server) }
{
    status_in(&hub.wires().tally(), hub.log_end(), hall.server().figures())
}

/// Runs a server for so many rounds, as [`run_server`] does, and tells the viewer behind each round how it
/// stands.
pub fn run_viewed<S: Answering + Figured, W: Wires, D: Disk, V: Viewer>(
    hall: &mut Hall<S>,
    hub: &mut LoggedHub<CountingWires<W>, D>,
    viewer: &mut V,
    rounds: u64,
) -> Result<(), Stop>
    requires settled { IsSettled S.rules hall.old }
    ensures leads { Leads S.rules (told_of hub.old) (told_of hub.new) hall.old hall.new }
    ensures settled { OnOk result (IsSettled S.rules hall.new) }
    ensures kept { IsKept (D.disk hub.new.disk) hub.new.journal hub.new.batch.records (records_in hub.new) hub.new.fault }
    ensures any_moment { CallByCall calls_of D.disk hub.old hub.new }
    ensures rounds { OnOk result (RoundsOf S.rules rounds (told_of hub.old) (told_of hub.new) hall.old hall.new) }
    ensures whole { OnOk result (hub.new.fault ≡ hub.old.fault) }
    ensures ends { OnErr result (BreaksOff (Proceeds calls_of D.disk) (Fails calls_of D.disk) hub.old hub.new) }
{
    for _ in 0..rounds {
        run_server(hall, hub, 1)?;
        viewer.view(&status_of(hall, hub));
    }
    let _why = hub.fault();
    Ok(())
}
