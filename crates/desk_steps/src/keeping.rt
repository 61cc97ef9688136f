//! A note that is kept.
ghost use Rattle.std.specs.Prelude.{◌≡◌, false, OnErr, OnOk};
ghost use Rattle.kept_machine.specs.Keeps.{IsDurable, Keeps, sight};
ghost use Rattle.kept_ledger.specs.Ledgers.{step_of};
ghost use Rattle.kept_ledger.specs.Machines.{IsInput, ledger_rules};
ghost use Rattle.kept_ledger.specs.Notes.{note_record, plain_note};

use kept_ledger::{KeptLedger, LedgerNote};
use kept_machine::{KeepFault, Kept, take};
use node_journal::Disk;

/// Keeps a note: its record is on the disk before the ledger takes its step. Where it isn't kept the ledger
/// stands as it stood.
#[tactic(auto, using(crate::proofs::KeepLaws::noted))]
pub fn keep_note<D: Disk>(
    kept: &mut Kept<KeptLedger, D>,
    note: &LedgerNote<'_>,
) -> Result<(), KeepFault>
    requires input { IsInput (plain_note note.now) }
    ensures noted { OnOk result (kept.new.machine.ledger.state
        ≡ step_of kept.old.machine.ledger.state (plain_note note.now)) }
    ensures same { OnErr result (kept.new.machine.ledger.state ≡ kept.old.machine.ledger.state) }
    ensures keeps { Keeps ledger_rules (note_record (plain_note note.now)) (sight D.disk D.Counted.seen kept.old)
        (sight D.disk D.Counted.seen kept.new) result }
    ensures durable { kept.new.journal.closed ≡ false
        → IsDurable ledger_rules (sight D.disk D.Counted.seen kept.new) }
{
    match take(kept, note, &mut []) {
        Ok(()) => Ok(()),
        Err(fault) => Err(fault),
    }
}
