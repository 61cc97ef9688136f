//! The notes with which a ledger begins that follows another one.
ghost use Rattle.std.specs.Prelude.{◌≡◌, ◌≤◌, ◌<◌, ◌^◌, ◌++◌, ◌∷◌, [], IfOk, OnOk, map};
ghost use Rattle.std.specs.List.{flat_map};
ghost use Rattle.kept_ledger.specs.Follow.{box_note, closed_notes, kept_notes, letter_notes, name_notes};
ghost use Rattle.kept_ledger.specs.Follow.{next_serial, retiring_notes};
ghost use Rattle.kept_ledger.specs.Notes.{Carried, Denied as DeniedNote, IsOpening, Marked as MarkedNote};
ghost use Rattle.kept_ledger.specs.Notes.{plain_note, plain_opening};

use crate::entry::{Denial, Denied, LedgerBox, Marked, NamedBoxes, OwnBox, Reading};
use crate::ledger::Ledger;
use crate::note::{CarriedReading, ClosedName, LedgerNote, WantedBoxes};
use crate::opening::LedgerOpening;
use express_words::NoMemory;
use std::alloc::Global;

/// What a ledger that follows keeps.
#[derive(Clone, Copy, Debug, PartialEq, Eq)]
pub enum Keeping {
    /// All but what boxes held and which letters were shown or written.
    WithoutLetters,
    /// All.
    All,
}

fn add<'a>(notes: &mut Vec<LedgerNote<'a>>, note: LedgerNote<'a>) -> Result<(), NoMemory>
    ensures { OnOk result (map plain_note notes.new.items
        ≡ map plain_note notes.old.items ++ plain_note note.entry ∷ []) }
{
    match notes.push(note) {
        Ok(()) => Ok(()),
        Err(_) => Err(NoMemory),
    }
}

fn add_closed<'a>(notes: &mut Vec<LedgerNote<'a>>, named: &'a NamedBoxes) -> Result<(), NoMemory>
    ensures { OnOk result (map plain_note notes.new.items
        ≡ map plain_note notes.old.items ++ closed_notes named.now.name named.now.closed) }
{
    match named.closed {
        Some(day) => {
            let name = named.name.as_str();
            add(notes, LedgerNote::Closed(ClosedName { name, day }))
        }
        None => Ok(()),
    }
}

fn add_retiring<'a>(notes: &mut Vec<LedgerNote<'a>>, named: &'a NamedBoxes) -> Result<(), NoMemory>
    ensures { OnOk result (map plain_note notes.new.items
        ≡ map plain_note notes.old.items ++ retiring_notes named.now.name named.now.is_retiring) }
{
    if named.is_retiring {
        add(notes, LedgerNote::Retiring(named.name.as_str()))
    } else {
        Ok(())
    }
}

fn add_name<'a>(notes: &mut Vec<LedgerNote<'a>>, named: &'a NamedBoxes) -> Result<(), NoMemory>
    ensures { OnOk result (map plain_note notes.new.items
        ≡ map plain_note notes.old.items ++ name_notes named.now) }
{
    let wanted = WantedBoxes {
        name: named.name.as_str(),
        addresses: named.addresses.as_slice(),
        until: named.until,
    };
    add(notes, LedgerNote::Named(wanted))?;
    add_closed(notes, named)?;
    add_retiring(notes, named)
}

fn add_names<'a>(notes: &mut Vec<LedgerNote<'a>>, named: &'a [NamedBoxes]) -> Result<(), NoMemory>
    ensures { OnOk result (map plain_note notes.new.items
        ≡ map plain_note notes.old.items ++ flat_map name_notes named.now) }
{
    let mut rest = named;
    while let [one, behind @ ..] = rest {
        add_name(notes, one)?;
        rest = behind;
    }
    Ok(())
}

fn add_denied<'a>(notes: &mut Vec<LedgerNote<'a>>, denied: &[Denied]) -> Result<(), NoMemory>
    ensures { OnOk result (map plain_note notes.new.items
        ≡ map plain_note notes.old.items ++ map DeniedNote denied.now) }
{
    let mut rest = denied;
    while let [one, behind @ ..] = rest {
        add(notes, LedgerNote::Denied(*one))?;
        rest = behind;
    }
    Ok(())
}

// A live box is owned; of a retired one stays that it is.
fn box_note(one: &LedgerBox) -> LedgerNote<'static>
    ensures { plain_note result ≡ box_note one.now }
{
    if one.is_retired {
        LedgerNote::Denied(Denied {
            address: one.address,
            denial: Denial::Retired,
        })
    } else {
        LedgerNote::Owned(OwnBox {
            number: one.number,
            serial: one.serial,
            address: one.address,
        })
    }
}

fn add_boxes<'a>(notes: &mut Vec<LedgerNote<'a>>, boxes: &[LedgerBox]) -> Result<(), NoMemory>
    ensures { OnOk result (map plain_note notes.new.items
        ≡ map plain_note notes.old.items ++ map box_note boxes.now) }
{
    let mut rest = boxes;
    while let [one, behind @ ..] = rest {
        add(notes, box_note(one))?;
        rest = behind;
    }
    Ok(())
}

fn add_reading<'a>(notes: &mut Vec<LedgerNote<'a>>, reading: &'a Reading) -> Result<(), NoMemory>
    ensures { OnOk result (map plain_note notes.new.items
        ≡ map plain_note notes.old.items ++ Carried reading.now ∷ []) }
{
    let carried = CarriedReading {
        address: reading.address,
        seconds: reading.seconds,
        bytes: reading.bytes.as_slice(),
    };
    add(notes, LedgerNote::Carried(carried))
}

fn add_readings<'a>(
    notes: &mut Vec<LedgerNote<'a>>,
    readings: &'a [Reading],
) -> Result<(), NoMemory>
    ensures { OnOk result (map plain_note notes.new.items
        ≡ map plain_note notes.old.items ++ map Carried readings.now) }
{
    let mut rest = readings;
    while let [one, behind @ ..] = rest {
        add_reading(notes, one)?;
        rest = behind;
    }
    Ok(())
}

fn add_marks<'a>(notes: &mut Vec<LedgerNote<'a>>, marks: &[Marked]) -> Result<(), NoMemory>
    ensures { OnOk result (map plain_note notes.new.items
        ≡ map plain_note notes.old.items ++ map MarkedNote marks.now) }
{
    let mut rest = marks;
    while let [one, behind @ ..] = rest {
        add(notes, LedgerNote::Marked(*one))?;
        rest = behind;
    }
    Ok(())
}

impl Ledger {
    fn add_letters<'a>(
        &'a self,
        notes: &mut Vec<LedgerNote<'a>>,
        keeping: Keeping,
    ) -> Result<(), NoMemory>
        ensures { OnOk result (map plain_note notes.new.items
            ≡ map plain_note notes.old.items ++ letter_notes keeping self.now.state) }
    {
        match keeping {
            Keeping::WithoutLetters => Ok(()),
            Keeping::All => {
                add_readings(notes, self.readings.as_slice())?;
                add_marks(notes, self.marks.as_slice())
            }
        }
    }

    /// The notes with which a ledger begins that follows this one: its names, the addresses without a box,
    /// its live boxes and that the others are retired, and where letters are kept what boxes held and the
    /// marks of letters. A request that is under way isn't among them.
    pub fn kept_notes(
        &self,
        alloc: Global,
        keeping: Keeping,
    ) -> Result<Vec<LedgerNote<'_>>, NoMemory>
        ensures { IfOk result (λ notes. map plain_note notes.items ≡ kept_notes keeping self.now.state) }
    {
        let mut notes = Vec::new(alloc);
        add_names(&mut notes, self.named.as_slice())?;
        add_denied(&mut notes, self.denied.as_slice())?;
        add_boxes(&mut notes, self.boxes.as_slice())?;
        self.add_letters(&mut notes, keeping)?;
        Ok(notes)
    }

    /// The serial from which a ledger goes on that follows this one: a request that is under way has used its
    /// own. From 2^32 on there is none.
    pub fn next_serial(&self) -> u64
        ensures { result ≡ next_serial self.now.state }
    {
        if self.client.is_idle() {
            self.client.serial()
        } else {
            self.client.serial() + 1
        }
    }

    /// The opening of a ledger that follows this one, from a serial on.
    pub fn opening_at(&self, first_serial: u32) -> LedgerOpening<'_>
        ensures opening { plain_opening result
            ≡ record { pair = self.now.state.pair; seed = self.now.state.seed; first_serial = first_serial } }
        ensures is { 1 ≤ first_serial → IsOpening (plain_opening result) }
    {
        LedgerOpening::on(&self.pair, &self.seed, first_serial)
    }
}
