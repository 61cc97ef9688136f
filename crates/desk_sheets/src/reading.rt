//! Reads a sheet.
ghost use Rattle.std.specs.Prelude.{◌≡◌, ℕ, ◌≤◌, List as Listed, Ok, Err, IfOk};
ghost use Rattle.express_texts.specs.Judging.{Gives};
ghost use Rattle.desk_texts.specs.Lines.{lines_in};
ghost use Rattle.desk_texts.specs.Sheets.{line_as};
ghost use Rattle.desk_sheets.specs.Heads.{count_of, head_of};
ghost use Rattle.desk_sheets.specs.Judging.{IsBadAt, IsEarlier, Judges, JudgesCard, JudgesPair};
ghost use Rattle.desk_sheets.specs.Keys.{server_of};
ghost use Rattle.desk_sheets.specs.Sheets.{Tells, card_at, card_in, pair_at, pair_in};
ghost use Rattle.desk_sheets.specs.Sheets.{sheet_at, sheet_in, sheet_of};
ghost use Rattle.desk_sheets.specs.Spelling.{SpellsSheet};
ghost use Rattle.desk_sheets.specs.declared.fault.SheetFault.TheVariants as faults;
ghost use Rattle.desk_sheets.specs.declared.sheet.Sheet.{Sheet};

use crate::earlier::fault_at;
use crate::fault::SheetFault;
use crate::head::{CardHead, Head, PairHead, head_of};
use crate::keyed::server_of;
use crate::sheet::{Card, OwnersServer, Pair, Sheet};
use desk_texts::{addresses_at, content_at, from_first, place_at, place_text};
use express_texts::TextFault;
use std::alloc::Global;

#[tactic(auto, unfolding(desk_texts::specs::Sheets::line_as))]
fn head_at<'a>(
    place: u32,
    said: &mut Vec<u8>,
    text: &'a [u8],
) -> Result<(Head, &'a [u8]), TextFault>
    ensures line { Gives (λ r. (r.0, said.new.items, lines_in r.1.now)) result
        (line_as place said.old.items head_of (lines_in text.now)) }
    ensures few { IfOk result (λ r. count_of r.0 ≤ 64) }
{
    let (content, rest) = content_at(place, said, text)?;
    match head_of(content) {
        Some(head) => Ok((head, rest)),
        None => Err(TextFault::Wrong(place)),
    }
}

#[tactic(auto, unfolding(desk_texts::specs::Sheets::line_as))]
fn server_at<'a>(
    alloc: Global,
    place: u32,
    said: &mut Vec<u8>,
    word: &[u8],
    text: &'a [u8],
) -> Result<(OwnersServer, &'a [u8]), TextFault>
    ensures { Gives (λ r. (r.0, said.new.items, lines_in r.1.now)) result
        (line_as place said.old.items (server_of word.now) (lines_in text.now)) }
{
    let (content, rest) = content_at(place, said, text)?;
    match server_of(word, content) {
        Some((found, key)) => {
            let place = place_text(alloc, found)?;
            Ok((OwnersServer { place, key }, rest))
        }
        None => Err(TextFault::Wrong(place)),
    }
}

// The lines of a card behind its first, which has this number in a text.
#[tactic(auto, unfolding(crate::specs::Sheets::card_at))]
fn card_at(
    alloc: Global,
    place: u32,
    head: &CardHead,
    said: &mut Vec<u8>,
    text: &[u8],
) -> Result<Card, TextFault>
    requires few { head.now.addresses ≤ 64 }
    requires near { place ≤ 65_536 }
    ensures { Gives (λ card. card) result (card_at place head.now said.old.items (lines_in text.now)) }
{
    let (leader, rest) = place_at(place + 1, said, b"leader ", text)?;
    let (helper, rest) = place_at(place + 2, said, b"helper ", rest)?;
    let addresses = addresses_at(alloc, head.addresses, place + 3, said, rest)?;
    let leader = place_text(alloc, leader)?;
    let helper = place_text(alloc, helper)?;
    Ok(Card {
        width: head.width,
        until: head.until,
        leader,
        helper,
        addresses,
    })
}

// The lines of a pair file behind its first.
#[tactic(auto, unfolding(crate::specs::Sheets::pair_at))]
fn pair_at(
    alloc: Global,
    place: u32,
    head: &PairHead,
    said: &mut Vec<u8>,
    text: &[u8],
) -> Result<Pair, TextFault>
    requires { place ≤ 65_536 }
    ensures { Gives (λ pair. pair) result (pair_at place head.now said.old.items (lines_in text.now)) }
{
    let (leader, rest) = server_at(alloc, place + 1, said, b"leader ", text)?;
    let (helper, _) = server_at(alloc, place + 2, said, b"helper ", rest)?;
    Ok(Pair {
        width: head.width,
        boxes: head.boxes,
        lane: head.lane,
        leader,
        helper,
    })
}

// The sheet whose first line has this number in a text, and stands at the front.
#[tactic(auto, unfolding(crate::specs::Sheets::sheet_at))]
fn sheet_at(alloc: Global, place: u32, text: &[u8]) -> Result<Sheet, TextFault>
    requires { place ≤ 65_536 }
    ensures { Gives (λ sheet. sheet) result (sheet_at place (lines_in text.now)) }
{
    let mut said = Vec::new(alloc);
    let (head, rest) = head_at(place, &mut said, text)?;
    match head {
        Head::Card(head) => {
            let card = card_at(alloc, place, &head, &mut said, rest)?;
            Ok(Sheet::Card(card))
        }
        Head::Pair(head) => {
            let pair = pair_at(alloc, place, &head, &mut said, rest)?;
            Ok(Sheet::Pair(pair))
        }
    }
}

#[tactic(auto, unfolding(crate::specs::Sheets::sheet_of))]
fn sheet_of(alloc: Global, text: &[u8]) -> Result<Sheet, TextFault>
    ensures { Gives (λ sheet. sheet) result (sheet_of (lines_in text.now)) }
{
    let (before, text) = from_first(text);
    sheet_at(alloc, before + 1, text)
}

#[tactic(auto, unfolding(crate::specs::Sheets::sheet_in))]
fn sheet_in(alloc: Global, text: &[u8]) -> Result<Sheet, SheetFault>
    ensures { Tells result (sheet_in (lines_in text.now)) }
{
    match sheet_of(alloc, text) {
        Ok(sheet) => Ok(sheet),
        Err(TextFault::Wrong(line)) => Err(fault_at(text, line)),
        Err(TextFault::WrongKey(_)) => unreachable!(),
        Err(TextFault::NoMemory) => Err(SheetFault::NoMemory),
    }
}

/// The card or the pair file that stands in the text, or why there is none.
///
/// A card is the lines `express card 2 WIDTH ADDRESSES`, or `express card 2 WIDTH ADDRESSES UNTIL` with its
/// last day as `2027-03-01`, `leader HOST:PORT`, `helper HOST:PORT`, and as many lines `address ADDRESS` as
/// its first line says, all different. A pair file is the lines `express pair 2 WIDTH BOXES LANE`, `leader
/// HOST:PORT KEY` and `helper HOST:PORT KEY`, where each KEY is the key of the owner's lane at that server
/// in 32 hexadecimal digits. Each line ends with a space and five digits, which are those that `check_word`
/// of `specs/Checks` of `desk_texts` makes of the lines so far; digits and letters are in lower case. The
/// last LF may be missing, and spaces, tabs and CRs at the end of a line aren't looked at.
///
/// The first line that begins with `express card ` or `express pair ` is the first of these; the lines
/// before it and those behind the last aren't looked at. Where it begins a sheet of an earlier version,
/// that is told. Else the first bad line is, counted from 1 for the text's first; where none of the first
/// 65,536 lines begins so, line 1 is the bad one.
pub fn read_sheet(alloc: Global, text: &[u8]) -> Result<Sheet, SheetFault>
    ensures judges { Judges text.now result }
    ensures sheet { Tells result (sheet_in (lines_in text.now)) }
{
    sheet_in(alloc, text)
}

/// The card that stands in the text, as `read_sheet` finds it, or why there is none.
pub fn read_card(alloc: Global, text: &[u8]) -> Result<Card, SheetFault>
    ensures judges { JudgesCard text.now result }
    ensures card { Tells result (card_in (lines_in text.now)) }
{
    match read_sheet(alloc, text) {
        Ok(Sheet::Card(card)) => Ok(card),
        Ok(Sheet::Pair(_)) => Err(SheetFault::OtherKind),
        Err(fault) => Err(fault),
    }
}

/// The pair file that stands in the text, as `read_sheet` finds it, or why there is none.
pub fn read_pair(alloc: Global, text: &[u8]) -> Result<Pair, SheetFault>
    ensures judges { JudgesPair text.now result }
    ensures pair { Tells result (pair_in (lines_in text.now)) }
{
    match read_sheet(alloc, text) {
        Ok(Sheet::Pair(pair)) => Ok(pair),
        Ok(Sheet::Card(_)) => Err(SheetFault::OtherKind),
        Err(fault) => Err(fault),
    }
}

/// A text is read as a sheet exactly where it spells it, refused as an earlier one exactly where it is one,
/// and refused at a line exactly where that is its first bad one.
pub fn sheet_is_read_exactly()
    ensures found { (text : Listed ℕ) (sheet : Sheet)
        → sheet_in (lines_in text) ≡ Ok sheet → SpellsSheet sheet text }
    ensures only { (text : Listed ℕ) (sheet : Sheet)
        → SpellsSheet sheet text → sheet_in (lines_in text) ≡ Ok sheet }
    ensures earlier { (text : Listed ℕ) → sheet_in (lines_in text) ≡ Err faults.Earlier → IsEarlier text }
    ensures only_earlier { (text : Listed ℕ)
        → IsEarlier text → sheet_in (lines_in text) ≡ Err faults.Earlier }
    ensures bad { (text : Listed ℕ) (n : ℕ)
        → sheet_in (lines_in text) ≡ Err (faults.Wrong n) → IsBadAt n text }
    ensures only_bad { (text : Listed ℕ) (n : ℕ)
        → IsBadAt n text → sheet_in (lines_in text) ≡ Err (faults.Wrong n) }
{}
