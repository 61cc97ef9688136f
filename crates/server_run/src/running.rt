//! A server for many runs.
ghost use Rattle.std.specs.Prelude.{◌≡◌, OnOk, OnErr};
ghost use Rattle.many_conns.specs.Ends.{BreaksOff};
ghost use Rattle.many_conns.specs.Hall.{IsSettled, Leads, RoundsOf};
ghost use Rattle.logged_hub.specs.Runs.{CallByCall, Fails, Proceeds};
ghost use Rattle.logged_hub.specs.State.{IsKept, records_in, told_of};

use logged_hub::LoggedHub;
use many_conns::{Answering, Hall, Stop};
use many_wires::Wires;
use node_journal::Disk;

/// Runs a server for so many rounds: waits, looks at each connection, writes the records of all whole frames to the log
/// together, and only then answers them, in that order. It ends early where the log failed; what it told until then is
/// right as well.
pub fn run_server<S: Answering, W: Wires, D: Disk>(
    hall: &mut Hall<S>,
    hub: &mut LoggedHub<W, D>,
    rounds: u64,
) -> Result<(), Stop>
    requires settled { IsSettled S.rules hall.old }
    // All its calls are right, in their order.
    ensures leads { Leads S.rules (told_of hub.old) (told_of hub.new) hall.old hall.new }
    ensures settled { OnOk result (IsSettled S.rules hall.new) }
    // The disk has the records of all that it told to be logged; where the log failed, a crash leaves all or none of the
    // last batch.
    ensures kept { IsKept (D.disk hub.new.disk) hub.new.journal hub.new.batch.records (records_in hub.new) hub.new.fault }
    // At any moment a crash leaves what was logged until then, and of a batch that is being written all or nothing.
    ensures any_moment { CallByCall W.told D.disk hub.old hub.new }
    // It ends well where all rounds were made, and no call of the log failed in them.
    ensures rounds { OnOk result (RoundsOf S.rules rounds (told_of hub.old) (told_of hub.new) hall.old hall.new) }
    ensures whole { OnOk result (hub.new.fault ≡ hub.old.fault) }
    // It ends early only where a call of the log failed, which is the last call; the hub's fault tells why.
    ensures ends { OnErr result (BreaksOff (Proceeds W.told D.disk) (Fails W.told D.disk) hub.old hub.new) }
{
    let ended = hall.serve(hub, rounds);
    let _why = hub.fault();
    ended
}
