//! What follows of every run of calls. Each function is empty: its contract is the law.
ghost use Rattle.std.specs.Prelude.{◌≡◌, IfSome, None};
ghost use Rattle.logged_hub.specs.Calls.{written};
ghost use Rattle.logged_hub.specs.Runs.{CallByCall, GoesOn, HasAtLeast, IsHubKept};
ghost use Rattle.node_journal.specs.Disk.{LeavesOnly};
ghost use Rattle.logged_hub.specs.State.{HubState, records_in, told_of};

use many_wires::Wires;
use node_journal::Disk;

/// The records of the log are those of all `Logged` events that are told, in their order.
pub fn the_log_is_what_is_told<W: Wires, D: Disk>()
    ensures { (hub : HubState W D) → IfSome (told_of hub) (λ events. written events ≡ records_in hub) }
{}

/// A run behind another is one with it.
pub fn a_run_goes_on<W: Wires, D: Disk>()
    ensures { (old mid new : HubState W D) → GoesOn W.told D.disk old mid → GoesOn W.told D.disk mid new
        → GoesOn W.told D.disk old new }
{}

/// Calls one after another are a run.
pub fn calls_are_a_run<W: Wires, D: Disk>()
    ensures { (old new : HubState W D) → CallByCall W.told D.disk old new → GoesOn W.told D.disk old new }
{}

/// What the log has before some calls a crash at any moment of them leaves.
pub fn what_was_logged_stays<W: Wires, D: Disk>()
    ensures { (old new : HubState W D) → CallByCall W.told D.disk old new → IsHubKept D.disk old → old.fault ≡ None
        → LeavesOnly (D.disk old.disk) (D.disk new.disk) (HasAtLeast old.journal.limit (records_in old)) }
{}
