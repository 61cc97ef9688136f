//! A ledger, worked off at its pair's doors.
ghost use Rattle.std.specs.Prelude.{◌≡◌, Some, IfOk, OnOk, string_bytes, false};
ghost use Rattle.kept_machine.specs.Keeps.{IsDurable, sight};
ghost use Rattle.door_work.specs.Asking.{Rest};
ghost use Rattle.door_work.specs.Steps.{DiskFaultBy, NetFaultBy};
ghost use Rattle.kept_ledger.specs.Asking.{ledger_wants};
ghost use Rattle.kept_ledger.specs.Machines.{ledger_rules};
ghost use Rattle.kept_ledger.specs.Worked.{ArePairsPlaces, HearsOnly, LedgerWorked, unworked_text, work_of};

use crate::machine::KeptLedger;
use door_exchange::Place;
use door_work::{Halt, Places, role_text, work};
use express_words::outside::Net;
use express_words::{NoMemory, Role, Text};
use kept_machine::Kept;
use node_journal::Disk;
use std::alloc::Global;
use std::fmt;

/// Why a ledger that doesn't rest isn't worked off.
#[derive(Clone, Copy, Debug, PartialEq, Eq)]
pub enum Unworked {
    /// What its pair says of this server is no door's place.
    NoPlace(Role),
    /// No memory was found for the places.
    NoMemory,
    /// The work halted, and may be gone on with.
    Halted(Halt),
}

impl fmt::Display for Unworked {
    ghost output = { λ unworked. Some (unworked_text unworked) };

    fn fmt<W: fmt::Write>(&self, f: &mut fmt::Formatter<W>) -> fmt::Result {
        match *self {
            Unworked::NoPlace(server) => {
                write!(f, "the pair's place of {} is no door's", role_text(server))
            }
            Unworked::NoMemory => write!(f, "{}", NoMemory),
            Unworked::Halted(why) => write!(f, "{why}"),
        }
    }
}

// The same text.
fn copy_of(alloc: Global, text: &Text) -> Result<String, NoMemory>
    ensures { IfOk result (λ copy. string_bytes copy ≡ text.now) }
{
    let mut copy = String::new(alloc);
    match copy.push_str(text.as_str()) {
        Ok(()) => Ok(copy),
        Err(_) => Err(NoMemory),
    }
}

// Works a ledger off at these doors, which are its pair's.
fn work_at<D: Disk, N: Net>(
    kept: &mut Kept<KeptLedger, D>,
    places: &Places<'_>,
    net: &mut N,
) -> Result<(), Unworked>
    requires places { ArePairsPlaces kept.old.machine.ledger.state.pair places.now }
    requires durable { kept.old.journal.closed ≡ false
        → IsDurable ledger_rules (sight D.disk D.Counted.seen kept.old) }
    ensures worked { LedgerWorked D.disk D.Counted.seen kept.old kept.new result
        (N.seen net.old).calls (N.seen net.new).calls }
    ensures rests { OnOk result (ledger_wants kept.new.machine.ledger.state ≡ Rest) }
    ensures hears { HearsOnly kept.old.machine.ledger.state kept.new.machine.ledger.state }
    ensures durable { kept.new.journal.closed ≡ false
        → IsDurable ledger_rules (sight D.disk D.Counted.seen kept.new) }
    ensures net_fault { NetFaultBy (work_of result) (N.seen net.old).faults (N.seen net.new).faults }
    ensures disk_fault { DiskFaultBy (work_of result) (D.Counted.seen kept.old.disk).faults
        (D.Counted.seen kept.new.disk).faults }
    ensures door { (N.seen net.new).doors ≡ (N.seen net.old).doors }
{
    match work(kept, places, net) {
        Ok(()) => Ok(()),
        Err(why) => Err(Unworked::Halted(why)),
    }
}

/// Works the current request off at the doors that the ledger's pair names, until it has ended, or a server
/// says that it takes it later (`Ledger::refused`). Where the work halts the ledger stands where it had come to,
/// and may be worked on again.
pub fn work_ledger<D: Disk, N: Net>(
    alloc: Global,
    kept: &mut Kept<KeptLedger, D>,
    net: &mut N,
) -> Result<(), Unworked>
    ensures worked { LedgerWorked D.disk D.Counted.seen kept.old kept.new result
        (N.seen net.old).calls (N.seen net.new).calls }
    ensures rests { OnOk result (ledger_wants kept.new.machine.ledger.state ≡ Rest) }
    // Nothing but frames that were heard was noted.
    ensures hears { HearsOnly kept.old.machine.ledger.state kept.new.machine.ledger.state }
    ensures durable { kept.new.journal.closed ≡ false
        → IsDurable ledger_rules (sight D.disk D.Counted.seen kept.new) }
    ensures net_fault { NetFaultBy (work_of result) (N.seen net.old).faults (N.seen net.new).faults }
    ensures disk_fault { DiskFaultBy (work_of result) (D.Counted.seen kept.old.disk).faults
        (D.Counted.seen kept.new.disk).faults }
    ensures door { (N.seen net.new).doors ≡ (N.seen net.old).doors }
{
    let pair = kept.machine().ledger().pair();
    let Ok(leader) = copy_of(alloc, &pair.leader.place) else {
        return Err(Unworked::NoMemory);
    };
    let Ok(helper) = copy_of(alloc, &pair.helper.place) else {
        return Err(Unworked::NoMemory);
    };
    let Some(leader) = Place::of(leader.as_str()) else {
        return Err(Unworked::NoPlace(Role::Leader));
    };
    let Some(helper) = Place::of(helper.as_str()) else {
        return Err(Unworked::NoPlace(Role::Helper));
    };
    work_at(kept, &Places { leader, helper }, net)
}
