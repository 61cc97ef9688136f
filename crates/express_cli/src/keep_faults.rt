//! Tells why a server with a journal ended, or wasn't opened.
ghost use Rattle.std.specs.Prelude.{◌≡◌, ◌≢◌, ◌⊎◌, ◌≤◌, ℕ, false, Err, IfOk, string_bytes};
ghost use Rattle.node_serve.specs.KeptOpening.{CountsOpen, IsFirstFault, IsOfOpening};
ghost use Rattle.node_serve.specs.JournalLog.{rises};
ghost use Rattle.express_cli.specs.Door.{EndsAtFirst, HaltCounts, ServedSays};
ghost use Rattle.express_cli.specs.Ends.{DiskCounts, Prints};
ghost use Rattle.express_cli.specs.Keeping.{KeepFaultMay, OpenFaultMay, end_by, fault_line};

use crate::door::TellsFaults;
use crate::ends::End;
use crate::texts::{NET_FAULT, say, say_bad_key, say_line};
use express_words::outside::Sink;
use node_journal::{Disk, JournalFault};
use node_restart::{KeepFault, Kept};
use node_serve::{Halt, OpenFault};
use std::alloc::{AllocError, Global};

const DISK_FAULT: &str = "disk fault\n";

// A server with a journal that isn't closed.
impl<D: Disk> TellsFaults for Kept<D> {
    ghost use Rattle.node_serve.proofs.FirstFaults.{first_fault};

    ghost whole = { λ kept. kept.journal.closed ≡ false };

    ghost first = { IsFirstFault };

    ghost tells = { KeepFaultMay };

    #[tactic(auto, using(crate::proofs::CountLaws::told_counts))]
    fn tell_halt<K: Sink>(alloc: Global, out: &mut K, halt: Halt<KeepFault>) -> End
        requires first { EndsAtFirst IsFirstFault halt }
        ensures tells { Prints (ServedSays KeepFaultMay (Err halt)) (K.seen out.old) (K.seen out.new) result }
        ensures counts { (before now : ℕ) → HaltCounts rises halt before now → DiskCounts result before now }
    {
        match halt {
            Halt::Door => say(out, NET_FAULT, End::NetFault),
            Halt::Log(fault) => tell_fault(alloc, out, fault),
        }
    }

    ghost stops_first = { first_fault D.disk };
}

// How the program ends by a fault.
fn end_by(fault: KeepFault) -> End
    ensures by { result ≡ end_by fault }
    ensures written { result ≢ End.WriteFault }
{
    match fault {
        KeepFault::NoMemory => End::OutOfMemory,
        KeepFault::Foreign(number) => End::JournalForeign(number),
        KeepFault::Journal(JournalFault::Full(_)) => End::JournalFull,
        KeepFault::Journal(JournalFault::Damaged(at)) => End::JournalDamaged(at),
        KeepFault::Journal(_) => End::DiskFault,
    }
}

fn fault_line(alloc: Global, fault: KeepFault) -> Result<String, AllocError>
    ensures { IfOk result (λ text. string_bytes text ≡ fault_line fault) }
{
    format!(in alloc; "{fault}\n")
}

// Says which fault ended a server, or kept it from being opened, unless memory is wanting; of a fault of the disk it
// says so without memory.
fn tell_fault<K: Sink>(alloc: Global, out: &mut K, fault: KeepFault) -> End
    requires first { IsFirstFault fault }
    ensures tells { Prints (KeepFaultMay fault) (K.seen out.old) (K.seen out.new) result }
    ensures counts { (before now : ℕ) → rises fault before now → DiskCounts result before now }
{
    let end = end_by(fault);
    match end {
        End::DiskFault => say(out, DISK_FAULT, end),
        _ => say_line(out, fault_line(alloc, fault), end),
    }
}

/// Says why a server wasn't opened, unless memory is wanting.
pub(crate) fn tell_unopened<K: Sink>(alloc: Global, out: &mut K, fault: OpenFault) -> End
    requires { IsOfOpening fault }
    ensures tells { Prints (OpenFaultMay fault) (K.seen out.old) (K.seen out.new) result }
    ensures counts { (before now : ℕ) → CountsOpen before now fault → DiskCounts result before now }
{
    match fault {
        OpenFault::Keep(fault) => tell_fault(alloc, out, fault),
        OpenFault::Differs(key) => say_bad_key(alloc, out, key.name()),
    }
}
