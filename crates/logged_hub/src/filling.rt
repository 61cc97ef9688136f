//! The records of frames, in a batch.
ghost use Rattle.std.specs.Prelude.{◌≡◌, ◌+◌, ◌*◌, [], IsOk, OnOk, IfErr, IfOk};
ghost use Rattle.many_words.specs.Events.{records_of};
ghost use Rattle.logged_hub.specs.Logs.{IsFaultOfBatch};

use crate::fault::LogFault;
use express_words::NoMemory;
use many_words::Entry;
use node_journal::{Batch, RECORD_MAX};
use std::alloc::Global;

/// So many bytes a record takes of a batch at most: its gate, its length and the longest one.
const RECORD_ROOM: usize = 5 + RECORD_MAX;

/// An empty batch with room for so many of the longest records.
pub fn batch_of(alloc: Global, records: usize) -> Result<Batch, NoMemory>
    ensures { IfOk result (λ b. b ≡ record { records = []; room = 8219 * records + 1 }) }
{
    let Some(bytes) = records.checked_mul(RECORD_ROOM) else {
        return Err(NoMemory);
    };
    let Some(room) = bytes.checked_add(1) else {
        return Err(NoMemory);
    };
    Batch::new(alloc, room)
}

/// Puts the records of these frames into an empty batch, in their order.
pub(crate) fn fill(batch: &mut Batch, entries: &[Entry]) -> Result<(), LogFault>
    requires { batch.old.records ≡ [] }
    ensures filled { OnOk result (batch.new.records ≡ records_of entries.now) }
    ensures room { batch.new.room ≡ batch.old.room }
    ensures none { records_of entries.now ≡ [] → IsOk result }
    ensures fault { IfErr result (IsFaultOfBatch batch.old.room (records_of entries.now)) }
{
    for entry in entries {
        if let Some(bytes) = entry.record() {
            if bytes.is_empty() || bytes.len() > RECORD_MAX {
                return Err(LogFault::WrongSize);
            }
            let Ok(()) = batch.push(bytes) else {
                return Err(LogFault::BatchFull);
            };
        }
    }
    Ok(())
}
