//! The entries that outcomes leave.
ghost use Rattle.std.specs.Prelude.{◌≡◌, ◌<◌, ◌^◌, IfOk, IfSome};
ghost use Rattle.client_restart.specs.Cores.{ended_in, outcome_in};
ghost use Rattle.desk_entries.specs.Records.{IsEntry};
ghost use Rattle.desk_ledger.specs.Storing.{Holds, Leaves, LeavesReading, OfRead, OfRetire, of_register, reading_of, refused, registered_by};
ghost use Rattle.desk_ledger.specs.Sizes.{IsSmall};

use client_restart::{Ended, Errand, KeptOutcome, OwnedBox};
use desk_entries::{BoxAt, Denial, Denied, Entry, Held, Reading};
use desk_letters::{Opened, open};
use express_words::limits::MOST_WIDTH;
use express_words::{List, NoMemory, Refusal};
use std::alloc::Global;

/// When and by what request a box was read, which one, and whether for the last time.
#[derive(Clone, Copy)]
pub(crate) struct Read {
    serial: u32,
    registered: u32,
    last: bool,
    seconds: u64,
}

// What a box with these bytes held.
fn held_in(alloc: Global, bytes: &[u8]) -> Result<Held, NoMemory>
    ensures holds { IfOk result (λ held. Holds held bytes.now) }
    ensures small { IfOk result IsSmall }
{
    if bytes.len() > MOST_WIDTH as usize {
        return Ok(Held::Met);
    }
    match open(bytes) {
        Opened::Empty => Ok(Held::Nothing),
        Opened::Letter { id, text } => {
            let text = Vec::from_slice(alloc, text)?;
            Ok(Held::Letter {
                id,
                text: List::from_vec(text),
            })
        }
        Opened::Met => Ok(Held::Met),
    }
}

// The serial that registered the own box of this number, or 0.
fn registered_by(boxes: &[OwnedBox], own: u32) -> u32
    ensures { result ≡ registered_by boxes.now own }
{
    match boxes.get(own as usize) {
        Some(found) => found.serial,
        None => 0,
    }
}

#[tactic(auto, using(crate::proofs::EntryLaws::is_refused))]
fn refused(serial: u32, address: u128, denial: Denial) -> Option<Entry>
    ensures value { result ≡ refused serial address denial }
    ensures is { IfSome result IsEntry }
{
    Some(Entry::Refused(Denied {
        serial,
        address,
        denial,
    }))
}

#[tactic(auto, using(crate::proofs::EntryLaws::is_registered))]
fn of_register(serial: u32, address: u128, outcome: &KeptOutcome) -> Option<Entry>
    ensures value { result ≡ of_register serial address (outcome_in outcome.now) }
    ensures is { IfSome result IsEntry }
{
    match outcome {
        KeptOutcome::Registered(_) => Some(Entry::Registered(BoxAt { serial, address })),
        KeptOutcome::Refused(Refusal::Taken(_)) => refused(serial, address, Denial::Taken),
        KeptOutcome::Refused(Refusal::Full(_)) => refused(serial, address, Denial::Full),
        KeptOutcome::Refused(_) => None,
        KeptOutcome::Accepted => None,
        KeptOutcome::Message(_) => None,
    }
}

#[tactic(auto, using(crate::proofs::EntryLaws::is_read))]
fn a_reading(serial: u32, registered: u32, last: bool, seconds: u64, held: Held) -> Reading
    requires small { IsSmall held }
    ensures value { result ≡ record {
      serial = serial;
      registered = registered;
      last = last;
      seconds = seconds;
      held = held;
    } }
    ensures is { IsEntry (Entry.Read result) }
{
    Reading {
        serial,
        registered,
        last,
        seconds,
        held,
    }
}

// The reading of a box with these bytes, where the box held something or is retired.
fn of_message(alloc: Global, read: &Read, bytes: &[u8]) -> Result<Option<Entry>, NoMemory>
    ensures leaves { IfOk result (λ found. LeavesReading read.now bytes.now found) }
    ensures is { IfOk result (λ found. IfSome found IsEntry) }
{
    let held = held_in(alloc, bytes)?;
    let reading = a_reading(read.serial, read.registered, read.last, read.seconds, held);
    if reading.is_telling() {
        Ok(Some(Entry::Read(reading)))
    } else {
        Ok(None)
    }
}

fn of_read(alloc: Global, read: &Read, outcome: &KeptOutcome) -> Result<Option<Entry>, NoMemory>
    ensures leaves { IfOk result (λ found. OfRead read.now (outcome_in outcome.now) found) }
    ensures is { IfOk result (λ found. IfSome found IsEntry) }
{
    match outcome {
        KeptOutcome::Message(bytes) => of_message(alloc, read, bytes),
        KeptOutcome::Registered(_) => Ok(None),
        KeptOutcome::Accepted => Ok(None),
        KeptOutcome::Refused(_) => Ok(None),
    }
}

fn of_retire(alloc: Global, read: &Read, outcome: &KeptOutcome) -> Result<Option<Entry>, NoMemory>
    ensures leaves { IfOk result (λ found. OfRetire read.now (outcome_in outcome.now) found) }
    ensures is { IfOk result (λ found. IfSome found IsEntry) }
{
    match outcome {
        KeptOutcome::Message(bytes) => of_message(alloc, read, bytes),
        KeptOutcome::Refused(Refusal::NoBox(_)) => of_message(alloc, read, &[]),
        KeptOutcome::Refused(_) => Ok(None),
        KeptOutcome::Registered(_) => Ok(None),
        KeptOutcome::Accepted => Ok(None),
    }
}

/// The entry that an outcome leaves at this time, in seconds since 1970 UTC: of a register the box, or that
/// there is no address or no room for it; of a read what the box held, if anything; of a retire that, and
/// that the box is retired.
pub(crate) fn entry_of(
    alloc: Global,
    boxes: &[OwnedBox],
    ended: &Ended,
    seconds: u64,
) -> Result<Option<Entry>, NoMemory>
    ensures leaves { IfOk result (λ found. Leaves boxes.now seconds (ended_in ended.now) found) }
    ensures is { IfOk result (λ found. IfSome found IsEntry) }
{
    let read = |own: u32, last: bool| Read {
        serial: ended.serial,
        registered: registered_by(boxes, own),
        last,
        seconds,
    };
    match ended.errand {
        Errand::Register(address) => Ok(of_register(ended.serial, address, &ended.outcome)),
        Errand::Write(_) => Ok(None),
        Errand::Read(own) => of_read(alloc, &read(own, false), &ended.outcome),
        Errand::Retire(own) => of_retire(alloc, &read(own, true), &ended.outcome),
    }
}
