//! A server of a pair runs while somebody watches.
ghost use Rattle.std.specs.Prelude.{◌≡◌, OnOk, OnErr};
ghost use Rattle.many_conns.specs.Ends.{BreaksOff};
ghost use Rattle.many_conns.specs.Hall.{IsSettled, Leads, RoundsOf};
ghost use Rattle.logged_hub.specs.Runs.{CallByCall, Fails, Proceeds};
ghost use Rattle.logged_hub.specs.State.{IsKept, records_in, told_of};
ghost use Rattle.server_status.specs.Views.{calls_of};
ghost use Rattle.many_servers.specs.Helpers.{helper_answers};
ghost use Rattle.many_servers.specs.Leaders.{leader_answers};
ghost use Rattle.gated_runs.specs.Tickets.{HelperLogsCarry, LeaderLogsCarry, Since};
ghost use Rattle.gated_runs.specs.Logs.{HelperTakes, LeaderTakes, HelperLeasesOnce, LeaderLeasesOnce};

use crate::laws::{
    a_lane_and_serial_is_leased_once, logged_frames_carry_their_tickets, servers_take_their_logs,
};
use logged_hub::LoggedHub;
use many_conns::{Hall, Stop};
use many_servers::{HelperServer, LeaderServer};
use many_wires::Wires;
use node_journal::Disk;
use server_status::{CountingWires, Viewer, run_viewed};

/// Runs a helper for so many rounds, as [`run_viewed`] does.
pub fn run_helper<W: Wires, D: Disk, V: Viewer>(
    hall: &mut Hall<HelperServer>,
    hub: &mut LoggedHub<CountingWires<W>, D>,
    viewer: &mut V,
    rounds: u64,
) -> Result<(), Stop>
    requires settled { IsSettled helper_answers hall.old }
    // What it takes is what is logged, and its core takes a part of the frames of that, in their order.
    ensures takes { Since hub.old.calls hub.new.calls
        (λ events. HelperTakes hall.old.server.gated events hall.new.owed hall.new.server.gated) }
    // Each client's frame that is logged carries the ticket of its lane and serial.
    ensures gated { Since hub.old.calls hub.new.calls (HelperLogsCarry hall.old.server.gated) }
    // No two leases of the log have one lane and serial.
    ensures leases { HelperLeasesOnce (records_in hub.new) }
    ensures leads { Leads helper_answers (told_of hub.old) (told_of hub.new) hall.old hall.new }
    ensures settled { OnOk result (IsSettled helper_answers hall.new) }
    ensures kept { IsKept (D.disk hub.new.disk) hub.new.journal hub.new.batch.records
        (records_in hub.new) hub.new.fault }
    ensures any_moment { CallByCall calls_of D.disk hub.old hub.new }
    ensures rounds { OnOk result
        (RoundsOf helper_answers rounds (told_of hub.old) (told_of hub.new) hall.old hall.new) }
    ensures whole { OnOk result (hub.new.fault ≡ hub.old.fault) }
    ensures ends { OnErr result
        (BreaksOff (Proceeds calls_of D.disk) (Fails calls_of D.disk) hub.old hub.new) }
{
    logged_frames_carry_their_tickets();
    a_lane_and_serial_is_leased_once();
    servers_take_their_logs();
    run_viewed(hall, hub, viewer, rounds)
}

/// Runs a leader for so many rounds, likewise.
pub fn run_leader<W: Wires, D: Disk, V: Viewer>(
    hall: &mut Hall<LeaderServer>,
    hub: &mut LoggedHub<CountingWires<W>, D>,
    viewer: &mut V,
    rounds: u64,
) -> Result<(), Stop>
    requires settled { IsSettled leader_answers hall.old }
    ensures takes { Since hub.old.calls hub.new.calls
        (λ events. LeaderTakes hall.old.server.gated events hall.new.owed hall.new.server.gated) }
    ensures gated { Since hub.old.calls hub.new.calls (LeaderLogsCarry hall.old.server.gated) }
    ensures leases { LeaderLeasesOnce (records_in hub.new) }
    ensures leads { Leads leader_answers (told_of hub.old) (told_of hub.new) hall.old hall.new }
    ensures settled { OnOk result (IsSettled leader_answers hall.new) }
    ensures kept { IsKept (D.disk hub.new.disk) hub.new.journal hub.new.batch.records
        (records_in hub.new) hub.new.fault }
    ensures any_moment { CallByCall calls_of D.disk hub.old hub.new }
    ensures rounds { OnOk result
        (RoundsOf leader_answers rounds (told_of hub.old) (told_of hub.new) hall.old hall.new) }
    ensures whole { OnOk result (hub.new.fault ≡ hub.old.fault) }
    ensures ends { OnErr result
        (BreaksOff (Proceeds calls_of D.disk) (Fails calls_of D.disk) hub.old hub.new) }
{
    logged_frames_carry_their_tickets();
    a_lane_and_serial_is_leased_once();
    servers_take_their_logs();
    run_viewed(hall, hub, viewer, rounds)
}
