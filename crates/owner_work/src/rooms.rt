//! The room of a desk's ledger.
ghost use Rattle.std.specs.Prelude.{◌≡◌, ◌↔◌, IfErr, IsTrue, OnOk};
ghost use Rattle.owner_work.specs.Rooms.{IsFull, IsNearlyFull, hundredths};

use desk_around::Trouble;
use kept_ledger::KeptLedger;
use kept_machine::Kept;
use node_journal::Disk;

/// A ledger takes at most so many bytes of the disk.
pub const LIMIT: u64 = 268_435_456;

// So many of them are kept for what is under way, once nothing new is begun.
const RESERVE: u64 = 1_048_576;

/// Whether nothing new is to be begun in a ledger that takes so many bytes.
pub fn is_full(used: u64) -> bool
    ensures { IsTrue result ↔ IsFull used }
{
    used > LIMIT - RESERVE
}

/// The same of what is begun with a note, and takes as much once more to be carried out: 64 boxes at the
/// most.
pub fn is_nearly_full(used: u64) -> bool
    ensures { IsTrue result ↔ IsNearlyFull used }
{
    used > LIMIT - 2 * RESERVE
}

/// Refuses to note what there is no room to carry out, by `Trouble::Full`.
pub fn check_room<'a, D: Disk>(kept: &Kept<KeptLedger, D>) -> Result<(), Trouble<'a>>
    ensures room { OnOk result (IsNearlyFull kept.now.journal.end → ⊥) }
    ensures full { IfErr result (λ t. (t ≡ Trouble.Full) × IsNearlyFull kept.now.journal.end) }
{
    if is_nearly_full(kept.used()) {
        Err(Trouble::Full)
    } else {
        Ok(())
    }
}

/// How many hundredths of its room a ledger takes that takes so many bytes.
pub fn hundredths(used: u64) -> u64
    ensures { result ≡ hundredths used }
{
    used.min(LIMIT) * 100 / LIMIT
}
