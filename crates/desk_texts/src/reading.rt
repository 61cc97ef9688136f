//! Reads a sheet.
ghost use Rattle.std.specs.Prelude.{◌≡◌, ℕ, ◌≤◌, List as Listed, [], true, Ok, Err, IfOk};
ghost use Rattle.express_texts.specs.Judging.{Gives};
ghost use Rattle.desk_texts.specs.Fields.{head_of, place_of};
ghost use Rattle.desk_texts.specs.Lines.{lines_in};
ghost use Rattle.desk_texts.specs.Judging.{Judges};
ghost use Rattle.desk_texts.specs.Places.{is_place};
ghost use Rattle.desk_texts.specs.Spelling.{SpellsSheet, IsFirstBadLine};
ghost use Rattle.desk_texts.specs.declared.sheet.Sheet.{Sheet};
ghost use Rattle.desk_texts.specs.Sheets.{line_as, count_of, new_address, addresses_at, sheet_at, sheet_of};

use crate::fields::{address_of, head_of, place_of};
use crate::lines::{content_at, from_first};
use crate::sheet::{Head, Sheet};
use express_texts::TextFault;
use express_words::{List, NoMemory, Text};
use std::alloc::Global;

#[tactic(auto, unfolding(crate::specs::Sheets::line_as))]
fn head_at<'a>(
    place: u32,
    said: &mut Vec<u8>,
    text: &'a [u8],
) -> Result<(Head, &'a [u8]), TextFault>
    ensures line { Gives (λ r. (r.0, said.new.items, lines_in r.1.now)) result
        (line_as place said.old.items head_of (lines_in text.now)) }
    ensures few { IfOk result (λ r. count_of r.0 ≤ 64) }
{
    let (content, rest) = content_at(place, said, text)?;
    match head_of(content) {
        Some(head) => Ok((head, rest)),
        None => Err(TextFault::Wrong(place)),
    }
}

/// The place on the line at this place of a text, behind this word, and the text behind that line. What the
/// line says is added to what was said so far.
#[tactic(auto, unfolding(crate::specs::Sheets::line_as))]
pub fn place_at<'a>(
    place: u32,
    said: &mut Vec<u8>,
    word: &[u8],
    text: &'a [u8],
) -> Result<(&'a [u8], &'a [u8]), TextFault>
    ensures line { Gives (λ r. (r.0.now, said.new.items, lines_in r.1.now)) result
        (line_as place said.old.items (place_of word.now) (lines_in text.now)) }
    ensures place { IfOk result (λ r. is_place r.0.now ≡ true) }
{
    let (content, rest) = content_at(place, said, text)?;
    match place_of(word, content) {
        Some(found) => Ok((found, rest)),
        None => Err(TextFault::Wrong(place)),
    }
}

#[tactic(auto, unfolding(crate::specs::Sheets::new_address))]
fn new_address(before: &[u128], content: &[u8]) -> Option<u128>
    ensures { result ≡ new_address before.now content.now }
{
    let address = address_of(content)?;
    if before.contains(&address) {
        None
    } else {
        Some(address)
    }
}

#[tactic(auto, unfolding(crate::specs::Sheets::line_as))]
fn address_at<'a>(
    place: u32,
    said: &mut Vec<u8>,
    before: &[u128],
    text: &'a [u8],
) -> Result<(u128, &'a [u8]), TextFault>
    ensures { Gives (λ r. (r.0, said.new.items, lines_in r.1.now)) result
        (line_as place said.old.items (new_address before.now) (lines_in text.now)) }
{
    let (content, rest) = content_at(place, said, text)?;
    match new_address(before, content) {
        Some(address) => Ok((address, rest)),
        None => Err(TextFault::Wrong(place)),
    }
}

/// The addresses of so many more lines from this place on, all different. What the lines say is added to
/// what was said so far.
pub fn addresses_at(
    alloc: Global,
    count: u32,
    place: u32,
    said: &mut Vec<u8>,
    text: &[u8],
) -> Result<List<u128>, TextFault>
    requires few { count ≤ 64 }
    requires near { place ≤ 65_539 }
    ensures { Gives (λ addresses. addresses) result
        (addresses_at count place said.old.items [] (lines_in text.now)) }
{
    let mut addresses = Vec::new(alloc);
    let mut rest = text;
    for index in 0..count {
        let (address, behind) = address_at(place + index, said, &addresses, rest)?;
        addresses.push(address)?;
        rest = behind;
    }
    Ok(List::from_vec(addresses))
}

fn count_of(head: &Head) -> u32
    ensures { result ≡ count_of head.now }
{
    match head {
        Head::Card(card) => card.addresses,
        Head::Pair(_) => 0,
    }
}

/// A place as a text: its characters are ASCII.
pub fn place_text(alloc: Global, place: &[u8]) -> Result<Text, NoMemory>
    requires { is_place place.now ≡ true }
    ensures { IfOk result (λ text. text ≡ place.now) }
{
    match std::str::from_utf8(place) {
        Ok(place) => {
            let text = String::from_str(alloc, place)?;
            Ok(Text::from_string(text))
        }
        Err(_) => unreachable!(),
    }
}

// The sheet whose first line has this number in a text, and stands at the front.
#[tactic(auto, unfolding(crate::specs::Sheets::sheet_at))]
fn sheet_at(alloc: Global, place: u32, text: &[u8]) -> Result<Sheet, TextFault>
    requires { place ≤ 65_536 }
    ensures { Gives (λ sheet. sheet) result (sheet_at place (lines_in text.now)) }
{
    let mut said = Vec::new(alloc);
    let (head, rest) = head_at(place, &mut said, text)?;
    let (leader, rest) = place_at(place + 1, &mut said, b"leader ", rest)?;
    let (helper, rest) = place_at(place + 2, &mut said, b"helper ", rest)?;
    let addresses = addresses_at(alloc, count_of(&head), place + 3, &mut said, rest)?;
    let leader = place_text(alloc, leader)?;
    let helper = place_text(alloc, helper)?;
    Ok(Sheet {
        head,
        leader,
        helper,
        addresses,
    })
}

#[tactic(auto, unfolding(crate::specs::Sheets::sheet_of))]
fn sheet_in(alloc: Global, text: &[u8]) -> Result<Sheet, TextFault>
    ensures { Gives (λ sheet. sheet) result (sheet_of (lines_in text.now)) }
{
    let (before, text) = from_first(text);
    sheet_at(alloc, before + 1, text)
}

/// The card or the pair file that stands in the text, or its first bad line, counted from 1 for the text's
/// first.
///
/// A card is the lines `express card 1 WIDTH FROM TO ADDRESSES`, or
/// `express card 2 WIDTH FROM TO ADDRESSES UNTIL` with its last day as `2027-03-01`, `leader HOST:PORT`,
/// `helper HOST:PORT`, and as many lines `address ADDRESS` as its first line says, all different. A pair file
/// is the lines `express pair 1 WIDTH BOXES LANE FROM TO`, `leader HOST:PORT` and `helper HOST:PORT`. Each
/// line ends with a space and five digits, which are those that `check_word` of `specs/Checks` makes of the
/// lines so far; digits and letters are in lower case. The last LF may be missing, and spaces, tabs and CRs
/// at the end of a line aren't looked at.
///
/// The first line that begins with `express card ` or `express pair ` is the first of these; the lines before
/// it and those behind the last aren't looked at. Where none of the first 65,536 lines begins so, line 1 is
/// the bad one.
pub fn read_sheet(alloc: Global, text: &[u8]) -> Result<Sheet, TextFault>
    ensures judges { Judges text.now result }
    ensures sheet { Gives (λ sheet. sheet) result (sheet_of (lines_in text.now)) }
{
    sheet_in(alloc, text)
}

/// A text is read as a sheet exactly where it spells it, and refused at a line exactly where that is its
/// first bad one.
pub fn sheet_is_read_exactly()
    ensures found { (text : Listed ℕ) (sheet : Sheet)
        → sheet_of (lines_in text) ≡ Ok sheet → SpellsSheet sheet text }
    ensures only { (text : Listed ℕ) (sheet : Sheet)
        → SpellsSheet sheet text → sheet_of (lines_in text) ≡ Ok sheet }
    ensures bad { (text : Listed ℕ) (n : ℕ) → sheet_of (lines_in text) ≡ Err n → IsFirstBadLine n text }
    ensures only_bad { (text : Listed ℕ) (n : ℕ) → IsFirstBadLine n text → sheet_of (lines_in text) ≡ Err n }
{}
