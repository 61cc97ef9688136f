//! What an owner wants of the desk's boxes, noted.
ghost use Rattle.std.specs.Prelude.{◌≡◌, Err, IfErr, IfSome, IsTrue, OnErr, OnOk, map};
ghost use Rattle.kept_ledger.specs.Ledgers.{fold_from, step_of};
ghost use Rattle.kept_ledger.specs.Machines.{IsInput};
ghost use Rattle.kept_ledger.specs.Notes.{AreAddresses, Closed, IsWanted, Retiring, plain_note, plain_wanted};
ghost use Rattle.desk_texts.specs.Days.{IsDay};
ghost use Rattle.desk_around.specs.Ends.{IsCause, IsOfName};
ghost use Rattle.owner_ledger.specs.Desks.{IsNamed, IsUnnamed, RefusesName, WantsBoxes};

use desk_around::{Trouble, unnoted};
use desk_steps::keep_note;
use desk_texts::Day;
use kept_ledger::{ClosedName, KeptLedger, LedgerNote, MOST_AT_ONCE, WantedBoxes, is_name};
use kept_machine::Kept;
use node_journal::Disk;

// A reading that is carried over has at most so many bytes.
const MOST_CARRIED: usize = 8189;

// A frame that was heard has at most so many.
const MOST_HEARD: usize = 8213;

// Numbers of 128 bits are addresses.
#[tactic(auto, using(crate::proofs::NoteLaws::are_addresses))]
fn are_addresses(addresses: &[u128])
    ensures { AreAddresses addresses.now }
{}

fn is_wanted(wanted: WantedBoxes<'_>) -> bool
    ensures { IsTrue result → IsWanted (plain_wanted wanted.entry) }
{
    are_addresses(wanted.addresses);
    if !is_name(wanted.name.as_bytes()) || wanted.addresses.is_empty() {
        return false;
    }
    if wanted.addresses.len() > MOST_AT_ONCE {
        return false;
    }
    is_until(wanted.until)
}

fn is_until(until: Option<Day>) -> bool
    ensures { IsTrue result → IfSome until IsDay }
{
    match until {
        Some(day) => day.is_day(),
        None => true,
    }
}

// Whether a record can be made of a note: names are names, days are days of the calendar, and it has room.
fn is_input(note: LedgerNote<'_>) -> bool
    ensures { IsTrue result → IsInput (plain_note note.entry) }
{
    match note {
        LedgerNote::Named(wanted) => is_wanted(wanted),
        LedgerNote::Closed(closed) => is_name(closed.name.as_bytes()) && closed.day.is_day(),
        LedgerNote::Retiring(name) => is_name(name.as_bytes()),
        LedgerNote::Heard(frame) => frame.len() <= MOST_HEARD,
        LedgerNote::Carried(reading) => reading.bytes.len() <= MOST_CARRIED,
        LedgerNote::Marked(_) => true,
        LedgerNote::Asked(_) => true,
        LedgerNote::Time(_) => true,
        LedgerNote::GivenUp => true,
        LedgerNote::Owned(_) => true,
        LedgerNote::Denied(_) => true,
    }
}

// Keeps a note, if a record can be made of it.
fn note_one<'a, D: Disk>(
    kept: &mut Kept<KeptLedger, D>,
    note: &LedgerNote<'_>,
) -> Result<(), Trouble<'a>>
    ensures noted { OnOk result (kept.new.machine.ledger.state
        ≡ step_of kept.old.machine.ledger.state (plain_note note.now)) }
    ensures same { OnErr result (kept.new.machine.ledger.state ≡ kept.old.machine.ledger.state) }
    ensures still_open { OnOk result (kept.new.journal.closed ≡ kept.old.journal.closed) }
    ensures cause { IfErr result IsCause }
{
    if !is_input(*note) {
        return Err(Trouble::Damaged);
    }
    match keep_note(kept, note) {
        Ok(()) => Ok(()),
        Err(fault) => Err(unnoted(fault)),
    }
}

/// Keeps notes, one after another.
#[tactic(auto, unfolding(kept_ledger::specs::Ledgers::fold_from))]
pub(crate) fn note_all<'a, D: Disk>(
    kept: &mut Kept<KeptLedger, D>,
    notes: &[LedgerNote<'_>],
) -> Result<(), Trouble<'a>>
    ensures noted { OnOk result (kept.new.machine.ledger.state
        ≡ fold_from kept.old.machine.ledger.state (map plain_note notes.now)) }
    ensures still_open { OnOk result (kept.new.journal.closed ≡ kept.old.journal.closed) }
    ensures cause { IfErr result IsCause }
{
    let mut rest = notes;
    while let [note, behind @ ..] = rest {
        note_one(kept, note)?;
        rest = behind;
    }
    Ok(())
}

/// Notes that boxes with a name are wanted at these addresses, where nothing speaks against it.
pub fn want_boxes<'a, D: Disk>(
    kept: &mut Kept<KeptLedger, D>,
    wanted: &WantedBoxes<'_>,
) -> Result<(), Trouble<'a>>
    ensures wants { OnOk result (WantsBoxes (plain_wanted wanted.now)
        kept.old.machine.ledger.state kept.new.machine.ledger.state) }
    ensures same { OnErr result (kept.new.machine.ledger.state ≡ kept.old.machine.ledger.state) }
    ensures refused { IfErr result (RefusesName (plain_wanted wanted.now) kept.old.machine.ledger.state) }
    ensures trouble { IfErr result IsOfName }
{
    let fault = kept
        .machine()
        .ledger()
        .check_name(wanted.name, wanted.addresses);
    if let Some(fault) = fault {
        return Err(Trouble::Name(fault));
    }
    note_one(kept, &LedgerNote::Named(*wanted))
}

fn has_name<D: Disk>(kept: &Kept<KeptLedger, D>, name: &str) -> bool
    ensures named { IsTrue result → IsNamed name.now kept.now.machine.ledger.state }
    ensures unnamed { (IsTrue result → ⊥) → IsUnnamed name.now kept.now.machine.ledger.state }
{
    kept.machine().ledger().named_boxes(name).is_some()
}

/// Notes that the boxes with a name are closed on this day, where they weren't before.
pub fn close_name<'a, D: Disk>(
    kept: &mut Kept<KeptLedger, D>,
    name: &'a str,
    day: Day,
) -> Result<(), Trouble<'a>>
    ensures named { OnOk result (IsNamed name.entry.now kept.old.machine.ledger.state) }
    ensures closed { OnOk result (kept.new.machine.ledger.state
        ≡ step_of kept.old.machine.ledger.state (Closed name.entry.now day)) }
    ensures same { OnErr result (kept.new.machine.ledger.state ≡ kept.old.machine.ledger.state) }
    ensures unnamed { IsUnnamed name.entry.now kept.old.machine.ledger.state
        → result ≡ Err (Trouble.NoName name.entry) }
    ensures cause { IfErr result IsCause }
{
    if !has_name(kept, name) {
        return Err(Trouble::NoName(name));
    }
    note_one(kept, &LedgerNote::Closed(ClosedName { name, day }))
}

/// Notes that the boxes with a name are to be retired.
pub fn retire_name<'a, D: Disk>(
    kept: &mut Kept<KeptLedger, D>,
    name: &'a str,
) -> Result<(), Trouble<'a>>
    ensures named { OnOk result (IsNamed name.entry.now kept.old.machine.ledger.state) }
    ensures retiring { OnOk result (kept.new.machine.ledger.state
        ≡ step_of kept.old.machine.ledger.state (Retiring name.entry.now)) }
    ensures same { OnErr result (kept.new.machine.ledger.state ≡ kept.old.machine.ledger.state) }
    ensures unnamed { IsUnnamed name.entry.now kept.old.machine.ledger.state
        → result ≡ Err (Trouble.NoName name.entry) }
    ensures cause { IfErr result IsCause }
{
    if !has_name(kept, name) {
        return Err(Trouble::NoName(name));
    }
    note_one(kept, &LedgerNote::Retiring(name))
}
