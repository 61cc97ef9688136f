//! Sheets of earlier versions.
ghost use Rattle.std.specs.Prelude.{◌≡◌, is_some};
ghost use Rattle.desk_texts.specs.Lines.{lines_in};
ghost use Rattle.desk_sheets.specs.Earlier.{behind_lanes, begins_earlier, fault_at, is_earlier};

use crate::fault::SheetFault;
use desk_texts::{first_trimmed, from_first};
use express_texts::{after, number_at};

// What follows a card's width, its lanes and how many addresses it has, with a space behind each number.
#[tactic(auto, unfolding(crate::specs::Earlier::behind_lanes))]
fn has_lanes(line: &[u8]) -> Option<()>
    ensures { result ≡ behind_lanes line.now }
{
    let rest = after(b"express card 2 ", line)?;
    let (_, rest) = number_at(32, 4096, rest)?;
    let rest = after(b" ", rest)?;
    let (_, rest) = number_at(0, 255, rest)?;
    let rest = after(b" ", rest)?;
    let (_, rest) = number_at(0, 255, rest)?;
    let rest = after(b" ", rest)?;
    let (_, rest) = number_at(1, 64, rest)?;
    after(b" ", rest)?;
    Some(())
}

// Whether a sheet of an earlier version begins with the line.
fn is_earlier(line: &[u8]) -> bool
    ensures { result ≡ is_earlier line.now }
{
    after(b"express card 1 ", line).is_some()
        || after(b"express pair 1 ", line).is_some()
        || has_lanes(line).is_some()
}

#[tactic(auto, unfolding(express_texts::specs::Lines::lines_of))]
fn begins_earlier(text: &[u8]) -> bool
    ensures { result ≡ begins_earlier (lines_in text.now) }
{
    if text.is_empty() {
        return false;
    }
    let (line, _) = first_trimmed(text);
    is_earlier(line)
}

/// What is told of a text whose first bad line has this number.
#[tactic(auto, unfolding(crate::specs::Earlier::fault_at))]
pub fn fault_at(text: &[u8], line: u32) -> SheetFault
    ensures { result ≡ fault_at (lines_in text.now) line }
{
    let (before, rest) = from_first(text);
    if line == before + 1 && begins_earlier(rest) {
        SheetFault::Earlier
    } else {
        SheetFault::Wrong(line)
    }
}
