//! The letters of a desk.
ghost use Rattle.std.specs.Prelude.{◌≡◌, ◌∷◌, [], IfOk, map};
ghost use Rattle.std.specs.List.{fold, list_any};
ghost use Rattle.desk_entries.specs.Letters.{has_id, is_anew, letters_of, shown_of, written_of};

use crate::entry::{Entry, Held, Reading};
use express_words::NoMemory;
use std::alloc::Global;

// Whether the reading gave the letter with this id.
fn has_id(reading: &Reading, id: u64) -> bool
    ensures { result ≡ has_id id reading.now }
{
    match reading.held {
        Held::Letter { id: other, text: _ } => other == id,
        Held::Nothing | Held::Met => false,
    }
}

fn has_id_among(told: &[&Reading], id: u64) -> bool
    ensures { result ≡ list_any (has_id id) (map (λ r. r.now) told.now) }
{
    let mut rest = told;
    while let [reading, behind @ ..] = rest {
        if has_id(reading, id) {
            return true;
        }
        rest = behind;
    }
    false
}

// Whether a box held something that wasn't told already: letters that met, or a letter with a new id.
fn is_anew(told: &[&Reading], held: &Held) -> bool
    ensures { result ≡ is_anew (map (λ r. r.now) told.now) held.now }
{
    match held {
        Held::Nothing => false,
        Held::Letter { id, text: _ } => !has_id_among(told, *id),
        Held::Met => true,
    }
}

/// The letters that these entries tell, and the boxes in which letters met, in the order in which they were
/// read. A letter that came twice, by its id, is there once; a box that held nothing isn't.
pub fn letters_of(alloc: Global, entries: &[Entry]) -> Result<Vec<&Reading>, NoMemory>
    ensures { IfOk result (λ told. map (λ r. r.now) told.items ≡ letters_of entries.now) }
{
    let mut told = Vec::new(alloc);
    let mut rest = entries;
    while let [entry, behind @ ..] = rest {
        if let Entry::Read(reading) = entry
            && is_anew(&told, &reading.held)
        {
            told.push(reading)?;
        }
        rest = behind;
    }
    Ok(told)
}

/// How many of the letters were shown.
pub fn shown_of(entries: &[Entry]) -> u32
    ensures { result ≡ shown_of entries.now }
{
    let mut shown = 0;
    let mut rest = entries;
    while let [entry, behind @ ..] = rest {
        if let Entry::Shown(count) = entry {
            shown = *count;
        }
        rest = behind;
    }
    shown
}

/// How many of the letters were written into files.
pub fn written_of(entries: &[Entry]) -> u32
    ensures { result ≡ written_of entries.now }
{
    let mut written = 0;
    let mut rest = entries;
    while let [entry, behind @ ..] = rest {
        if let Entry::Written(count) = entry {
            written = *count;
        }
        rest = behind;
    }
    written
}
