//! What readings tell.
ghost use Rattle.std.specs.Prelude.{◌≡◌, ◌≤◌, All, IfOk, OnOk, List, length};
ghost use Rattle.known_pieces.specs.Known.{Reading as BoxReading};
ghost use Rattle.known_pieces.specs.Telling.{Accounts, IsTried, Tells};
ghost use Rattle.letter_reader.specs.Reader.{AreApart, AreBoxes, told_as};

use crate::opening::open_reading;
use crate::reading::{Card, KnownPiece, Reading, Told};
use express_words::NoMemory;
use std::alloc::Global;

/// Which pieces the readings of a card's boxes tell, and which readings are left. Each reading is tried with
/// all 65,536 subsets of the sixteen newest pieces that are awaited at its address, and once more whenever
/// another was opened: there are at most as many passes as readings.
pub fn tell<'a>(alloc: Global, card: Card, readings: &[Reading<'a>]) -> Result<Told<'a>, NoMemory>
    requires card { card.addresses ≤ 64 }
    requires wide { AreBoxes card.width readings.now }
    ensures { IfOk result (λ told.
        Tells card.addresses readings.now (told_as told.known.items told.left.items)) }
{
    let mut known = Vec::new(alloc);
    let mut before = readings.len();
    let mut left = pass(alloc, card, readings, &mut known)?;
    while left.len() < before {
        before = left.len();
        left = pass(alloc, card, left.as_slice(), &mut known)?;
    }
    Ok(Told { known, left })
}

// Tries each reading once: those that are opened are left no more.
fn pass<'a>(
    alloc: Global,
    card: Card,
    left: &[Reading<'a>],
    known: &mut Vec<KnownPiece>,
) -> Result<Vec<Reading<'a>>, NoMemory>
    requires card { card.addresses ≤ 64 }
    requires wide { AreBoxes card.width left.now }
    requires apart { AreApart card.width known.old.items }
    ensures accounts { IfOk result (λ kept. (readings : List BoxReading)
        → Accounts card.addresses readings (told_as known.old.items left.now)
        → Accounts card.addresses readings (told_as known.new.items kept.items)) }
    ensures tried { IfOk result (λ kept. length kept.items ≡ length left.now
        → All (IsTried known.new.items) kept.items) }
    ensures fewer { IfOk result (λ kept. length kept.items ≤ length left.now) }
    ensures wide { IfOk result (λ kept. AreBoxes card.width kept.items) }
    ensures apart { OnOk result (AreApart card.width known.new.items) }
{
    let mut kept = Vec::new(alloc);
    for reading in left {
        let is_opened = open_reading(alloc, card, reading, known)?;
        if !is_opened {
            kept.push(reading.copied())?;
        }
    }
    Ok(kept)
}
